// Division by a power of two, which is a shift.
ghost use Rattle.std.specs.Prelude.{◌≡◌, ◌/◌, ◌%◌, ◌<◌};
ghost use Rattle.std.specs.Int.Count.{ones};

// How often a power goes into a number.
pub fn quotient(x: u64, power: u64) -> u64
    requires { ones power ≡ 1 }
    ensures { result ≡ x / power }
{
    x >> u64::trailing_zeros(power)
}

// What a power leaves of a number.
pub fn remainder(x: u64, power: u64) -> u64
    requires { ones power ≡ 1 }
    ensures { (result ≡ x % power) × (result < power) }
{
    x - quotient(x, power) * power
}
