// Bytes made of a seed.
ghost use Rattle.std.specs.Prelude.{◌≡◌, ◌%◌, length};
ghost use Rattle.vectors.specs.Seed.{seeded};

// So many different ones, none of them 0, so that none looks like a hole.
const DIFFERENT: u64 = 251;

const STEP: u64 = 7;

// Byte i is (seed + 7 i) mod 251, plus 1.
pub fn fill(buffer: &mut [u8], seed: u64)
    ensures { buffer.new ≡ seeded (seed % 251) (length buffer.old) }
{
    let mut value = seed % DIFFERENT;
    for byte in buffer.iter_mut() {
        *byte = (value + 1) as u8;
        value = (value + STEP) % DIFFERENT;
    }
}
