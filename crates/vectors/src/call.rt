// Lines of calls on a volume, and what a program lends them.
ghost use Rattle.std.specs.Prelude.{◌≡◌, [], ◌∷◌, ◌+◌, ◌≤◌, min, length, drop};
ghost use Rattle.vectors.specs.Scan.{numbers_at, after_at};

use crate::numbers::Numbers;

// The longest memory and the longest buffer that a call is lent.
pub const MEMORY: usize = 1_572_864;

pub const BUFFER: usize = 262_144;

// The numbers of a line: which call, and four more. What each means depends on the call.
#[derive(Clone, Copy)]
pub struct Call {
    pub name: u64,
    pub node: u64,
    pub place: u64,
    pub length: u64,
    pub seed: u64,
}

// Zeros, to make volumes in.
pub fn blank_memory() -> [u8; MEMORY]
    ensures { 1572864 ≡ length result }
{
    [0; MEMORY]
}

// Zeros, to read into, to write from, and to keep names and paths in.
pub fn blank_buffer() -> [u8; BUFFER]
    ensures { 262144 ≡ length result }
{
    [0; BUFFER]
}

impl Call {
    // The call that comes next.
    pub fn read(numbers: &mut Numbers<'_>) -> Call
        ensures values { (result.name ∷ result.node ∷ result.place ∷ result.length ∷ result.seed ∷ []) ≡ numbers_at numbers.old 0 5 }
        ensures left { numbers.new ≡ drop (after_at numbers.old 0 5) numbers.old }
        ensures behind { min 1 (length numbers.old) + length numbers.new ≤ length numbers.old }
    {
        let [name, node, place, length, seed] = numbers.numbers::<5>();
        Call {
            name,
            node,
            place,
            length,
            seed,
        }
    }
}
