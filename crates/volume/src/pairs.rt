// The order of pairs, in which the entry and the chunk table stand.
ghost use Rattle.std.specs.Prelude.{◌≡◌};
ghost use Rattle.volume.specs.Search.{pair_before};

// Whether (a, b) stands before (c, d).
pub fn pair_before(a: u64, b: u64, c: u64, d: u64) -> bool
    ensures { result ≡ pair_before a b c d }
{
    if a == c {
        return b < d;
    }
    a < c
}
