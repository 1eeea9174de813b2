// Numbers and runs of bytes in lent bytes, little-endian as the volume is.
// The contracts speak of the bytes as lists: `part`, `over`, `num`, `spell` and `zeros` of specs/Bytes.antt.
#![tactic(auto)]

mod compare;
mod dividing;
mod halving;
mod moves;
mod ranks;

ghost use Rattle.std.specs.Prelude.{◌≡◌, ◌+◌, ◌*◌, ◌^◌, ◌≤◌, ◌<◌, length};
ghost use Rattle.words.specs.Bytes.{over, spell, num};
ghost use Rattle.words.specs.Tables.{lay_words};

pub use compare::{is_zero, same};
pub use dividing::{quotient, remainder};
pub use halving::seek;
pub use moves::{clear, copy, shift_down, shift_up};
pub use ranks::ranks_below;

// The number that the N bytes from index at spell.
pub fn get<const N: usize>(v: &[u8], at: usize) -> u64
    requires width { N ≤ 8 }
    requires inside { at + N ≤ length v.now }
    ensures value { result ≡ num N v.now at }
    ensures bound { result < 256 ^ N }
{
    let mut bytes = [0; 8];
    bytes[..N].copy_from_slice(&v[at..at + N]);
    u64::from_le_bytes(bytes)
}

// Writes the N least bytes of a number from index at.
pub fn put<const N: usize>(v: &mut [u8], at: usize, x: u64)
    requires width { N ≤ 8 }
    requires inside { at + N ≤ length v.old }
    ensures { v.new ≡ over v.old at (spell N x) }
{
    v[at..at + N].copy_from_slice(&x.to_le_bytes()[..N]);
}

// Writes words one behind another from index at.
pub fn put_words(v: &mut [u8], at: usize, ws: &[u64])
    requires { at + 8 * length ws.now ≤ length v.old }
    ensures { v.new ≡ over v.old at (lay_words ws.now) }
{
    for (i, w) in ws.iter().enumerate() {
        put::<8>(v, at + 8 * i, *w);
    }
}
