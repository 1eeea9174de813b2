// Bytes of a table moved.
ghost use Rattle.std.specs.Prelude.{◌≡◌, ◌+◌, ◌-◌, ◌≤◌, length};
ghost use Rattle.words.specs.Bytes.{part, over, zeros, spell};

// Takes so many bytes out of a table, those before an index: what follows, to the end of the rows used, moves down in one move, zeros
// stand behind it, and the header's word says how many rows are left.
pub fn take_out(volume: &mut [u8], from: usize, end: usize, gone: usize, head: usize, left: u64)
    requires { (gone ≤ from) × (from ≤ end) × (end ≤ length volume.old) × (head + 8 ≤ length volume.old) }
    ensures { volume.new ≡ over (over (over volume.old (from - gone) (part volume.old from (end - from))) (end - gone) (zeros gone)) head (spell 8 left) }
{
    words::shift_down(volume, from, end, gone);
    words::clear(volume, end - gone, gone);
    words::put::<8>(volume, head, left);
}
