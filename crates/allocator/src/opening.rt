// Allocator open: refuses words that no allocator left, and renews an old marker and an unset size.
ghost use Rattle.std.specs.Prelude.{◌≡◌, not, ◌+◌, ◌*◌, ◌≤◌, length, eqb};
ghost use Rattle.std.specs.Int.Count.{ones};
ghost use Rattle.words.specs.Bytes.{word};
ghost use Rattle.words.specs.Rules.{upto};
ghost use Rattle.types.specs.Outcomes.{outcome};
ghost use Rattle.allocator.specs.Opening.{mark_known, size_meant, size_allowed, free_word, lined, free_words_lined, free_words_apart, free_words_good, openable, mark_renewed, size_renewed, opened};

use crate::{CHUNK_SIZE, MARKER, accepted, chunk_size, get_len, get_ptr, is_counted, max_ptr};
use types::Error;

// The first four bytes of older words: `ALO1`.
const OLD_MARK: u64 = 827280449;

const DEFAULT_CHUNK_SIZE: u64 = 16384;

const LEAST: usize = types::WORD * types::ALLOCATOR_WORDS;

// Whether words have a marker, this one or the older.
#[tactic(auto, unfolding(words::specs::Rules::either, crate::specs::Opening::mark_known))]
fn is_marked(words: &[u8]) -> bool
    requires { 128 ≤ length words.now }
    ensures { result ≡ mark_known words.now }
{
    let mark = words::get::<4>(words, 0);
    mark == MARKER || mark == OLD_MARK
}

// The stored size, or the default where none is stored.
#[tactic(auto, unfolding(words::specs::Rules::pick, crate::specs::Opening::size_meant))]
fn size_meant(words: &[u8]) -> u64
    requires { 128 ≤ length words.now }
    ensures { result ≡ size_meant words.now }
{
    match chunk_size(words) {
        0 => DEFAULT_CHUNK_SIZE,
        span => span,
    }
}

// Whether the size is unset and no pointer was given out, or is accepted.
#[tactic(auto, unfolding(words::specs::Rules::pick, crate::specs::Opening::size_allowed))]
fn is_sized(words: &[u8]) -> bool
    requires { 128 ≤ length words.now }
    ensures { result ≡ size_allowed words.now }
{
    match chunk_size(words) {
        0 => max_ptr(words) == 0,
        span => accepted(span),
    }
}

// Aligned and below word 3.
#[tactic(auto, unfolding(words::specs::Rules::both, crate::specs::Opening::lined))]
pub fn is_lined(span: u64, next: u64, pointer: u64) -> bool
    requires { ones span ≡ 1 }
    ensures { result ≡ lined span next pointer }
{
    words::remainder(pointer, span) == 0 && pointer < next
}

// Every free pointer is aligned and below word 3.
fn all_lined(words: &[u8], span: u64) -> bool
    requires { (ones span ≡ 1) × (128 + 8 * word words.now 16 ≤ length words.now) }
    ensures { result ≡ free_words_lined words.now span }
{
    let count = get_len(words) as usize;
    let next = max_ptr(words);
    (0..count).all(|i| is_lined(span, next, get_ptr(words, i)))
}

// No free pointer before index i is the one there.
fn is_first(words: &[u8], i: usize) -> bool
    requires { 128 + 8 * i + 8 ≤ length words.now }
    ensures { result ≡ upto i (λ j. not (eqb (free_word words.now j) (free_word words.now i))) }
{
    let pointer = get_ptr(words, i);
    // A loop: `(0..i).all(..)` has to keep apart how it ended and takes half as long again, with as many pairs as there may be.
    for j in 0..i {
        if get_ptr(words, j) == pointer {
            return false;
        }
    }
    true
}

// Whether no free pointer stands twice.
fn all_apart(words: &[u8]) -> bool
    requires { 128 + 8 * word words.now 16 ≤ length words.now }
    ensures { result ≡ free_words_apart words.now }
{
    let count = get_len(words) as usize;
    (0..count).all(|i| is_first(words, i))
}

// Whether word 3 and the free pointers can be of a chunk size.
#[tactic(auto, unfolding(words::specs::Rules::both, crate::specs::Opening::free_words_good))]
fn pointers_good(words: &[u8], span: u64) -> bool
    requires { (128 ≤ length words.now) × (ones span ≡ 1) }
    ensures { result ≡ free_words_good words.now span }
{
    words::remainder(max_ptr(words), span) == 0
        && is_counted(words)
        && all_lined(words, span)
        && all_apart(words)
}

// Whether words can be opened.
#[tactic(auto, using(crate::proofs::Opened::meant_one), unfolding(words::specs::Rules::both, crate::specs::Opening::openable))]
fn is_openable(words: &[u8]) -> bool
    requires { 128 ≤ length words.now }
    ensures { result ≡ openable words.now }
{
    is_marked(words) && is_sized(words) && pointers_good(words, size_meant(words))
}

// Writes the marker of today.
#[tactic(auto, unfolding(words::specs::Rules::pick, crate::specs::Opening::mark_renewed))]
fn renew_mark(words: &mut [u8])
    requires { 128 ≤ length words.old }
    ensures { words.new ≡ mark_renewed words.old }
{
    if words::get::<4>(words, 0) == OLD_MARK {
        words::put::<8>(words, 0, MARKER);
    }
}

// Writes the default size where none is stored.
#[tactic(auto, unfolding(words::specs::Rules::pick, crate::specs::Opening::size_renewed))]
fn renew_size(words: &mut [u8])
    requires { 128 ≤ length words.old }
    ensures { words.new ≡ size_renewed words.old }
{
    if chunk_size(words) == 0 {
        words::put::<8>(words, CHUNK_SIZE, DEFAULT_CHUNK_SIZE);
    }
}

// Opens any words: what is refused is left as it was.
#[tactic(auto, unfolding(words::specs::Rules::pick, crate::specs::Opening::opened))]
pub fn open(words: &mut [u8]) -> Result<u64, Error>
    ensures { outcome result words.new ≡ opened words.old }
{
    if words.len() < LEAST {
        return Err(Error::InvalidArgument);
    }
    if !is_openable(words) {
        return Err(Error::UnsoundMemory);
    }
    renew_mark(words);
    renew_size(words);
    Ok(0)
}
