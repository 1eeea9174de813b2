// Copies, zero fills and moves of runs of bytes.
ghost use Rattle.std.specs.Prelude.{◌≡◌, ◌+◌, ◌-◌, ◌≤◌, length};
ghost use Rattle.words.specs.Bytes.{part, over, zeros};

// Copies src to index at. Byte by byte: LLVM makes vector code of it. Std's `copy_from_slice` becomes a call of `memmove`, and the library
// for C needs nothing of the C library but `memset`.
pub fn copy(v: &mut [u8], at: usize, src: &[u8])
    requires { at + length src.now ≤ length v.old }
    ensures { v.new ≡ over v.old at src.now }
{
    for (i, byte) in src.iter().enumerate() {
        v[at + i] = *byte;
    }
}

// Writes n zeros from index at.
pub fn clear(v: &mut [u8], at: usize, n: usize)
    requires { at + n ≤ length v.old }
    ensures { v.new ≡ over v.old at (zeros n) }
{
    v[at..at + n].fill(0);
}

// Moves the bytes from index from to before index to up by a distance. None is lost where the two places overlap.
pub fn shift_up(v: &mut [u8], from: usize, to: usize, by: usize)
    requires { (from ≤ to) × (to + by ≤ length v.old) }
    ensures { v.new ≡ over v.old (from + by) (part v.old from (to - from)) }
{
    v.copy_within(from..to, from + by);
}

// Moves the same bytes down by a distance.
pub fn shift_down(v: &mut [u8], from: usize, to: usize, by: usize)
    requires { (by ≤ from) × ((from ≤ to) × (to ≤ length v.old)) }
    ensures { v.new ≡ over v.old (from - by) (part v.old from (to - from)) }
{
    v.copy_within(from..to, from - by);
}
