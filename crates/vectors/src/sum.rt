// The checksum Adler-32.
ghost use Rattle.std.specs.Prelude.{◌≡◌};
ghost use Rattle.vectors.specs.Sum.{checksum as Sum·checksum};

// The greatest prime below 2^16.
const PRIME: u64 = 65521;

// The second sum stands above the 16 bits of the first.
const HALF: u64 = 65536;

// A number that changes with any one byte.
pub fn checksum(v: &[u8]) -> u64
    ensures { result ≡ Sum·checksum v.now }
{
    let mut low: u64 = 1;
    let mut high: u64 = 0;
    for byte in v {
        low = (low + u64::from(*byte)) % PRIME;
        high = (high + low) % PRIME;
    }
    high * HALF + low
}
