// The order of byte strings by their ranks: shorter ones first, those of one length by the numbers that they spell. Equal ones alone have one
// rank. Compared in blocks from the last byte on: only what is left of the first block byte by byte.
// An iterator over single bytes, `a.iter().rev().lt(b.iter().rev())`, takes five times as long.
ghost use Rattle.std.specs.Prelude.{◌≡◌, ◌+◌, ◌*◌, ◌≤◌, length, drop, ltb, MatchOption};
ghost use Rattle.words.specs.Tests.{rank};

use crate::get;

// Whether one byte string ranks below another.
pub fn ranks_below(a: &[u8], b: &[u8]) -> bool
    ensures { result ≡ ltb (rank a.now) (rank b.now) }
{
    if a.len() != b.len() {
        return a.len() < b.len();
    }
    let front = a.len() % 8;
    match last_apart::<8>(a, b, front, a.len() / 8) {
        Some(below) => below,
        None => last_apart::<1>(a, b, 0, front).unwrap_or(false),
    }
}

// Of so many blocks of N bytes from index from on, what the last that differs decides: `None` where none does. All behind them is equal.
fn last_apart<const N: usize>(a: &[u8], b: &[u8], from: usize, count: usize) -> Option<bool>
    requires width { N ≤ 8 }
    requires lengths { length a.now ≡ length b.now }
    requires inside { from + N * count ≤ length a.now }
    requires behind { drop (from + N * count) a.now ≡ drop (from + N * count) b.now }
    ensures { MatchOption result (drop from a.now ≡ drop from b.now) (λ below. below ≡ ltb (rank a.now) (rank b.now)) }
{
    for i in (0..count).rev() {
        let x = get::<N>(a, from + N * i);
        let y = get::<N>(b, from + N * i);
        if x != y {
            return Some(x < y);
        }
    }
    None
}
