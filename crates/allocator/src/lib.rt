// The chunk pointer allocator, on its words alone: a part of the volume that starts in its middle.
#![tactic(auto)]

mod opening;

ghost use Rattle.std.specs.Prelude.{◌≡◌, ◌+◌, ◌*◌, ◌≤◌, ◌<◌, length, leb};
ghost use Rattle.words.specs.Bytes.{word, over, spell};
ghost use Rattle.allocator.specs.Sizes.{accepted_size};
ghost use Rattle.allocator.specs.Allocator.{free_room, read_allocator, lay_allocator, allocate, release, set_chunk_size};
ghost use Rattle.allocator.specs.Words.{WordsFormed, Takable, last_free, without_last, well_marked};

pub use opening::{is_lined, open};
use types::Error;

// Word 0: `FSA1` and four zero bytes.
pub const MARKER: u64 = 826364742;

// Where each word starts, in bytes.
const CHUNK_SIZE: usize = 8;

const AVAILABLE_CHUNKS_LEN: usize = 16;

const MAX_PTR: usize = 24;

const FIRST_PTR: usize = 128;

// The exponents of the least and the greatest chunk size.
const LEAST_SHIFT: u32 = 12;

const MOST_SHIFT: u32 = 16;

// Whether a chunk size is one of those offered: its one bit set and the zeros behind it decide.
#[tactic(auto, unfolding(words::specs::Rules::both, crate::specs::Sizes::accepted_size))]
pub fn accepted(span: u64) -> bool
    ensures { result ≡ accepted_size span }
{
    span.count_ones() == 1 && matches!(span.trailing_zeros(), LEAST_SHIFT..=MOST_SHIFT)
}

// The chunk size.
pub fn chunk_size(words: &[u8]) -> u64
    requires { 128 ≤ length words.now }
    ensures { result ≡ word words.now 8 }
{
    words::get::<8>(words, CHUNK_SIZE)
}

// How many pointers are free.
pub fn get_len(words: &[u8]) -> u64
    requires { 128 ≤ length words.now }
    ensures { result ≡ word words.now 16 }
{
    words::get::<8>(words, AVAILABLE_CHUNKS_LEN)
}

// The free pointer with an index.
pub fn get_ptr(words: &[u8], index: usize) -> u64
    requires { 128 + 8 * index + 8 ≤ length words.now }
    ensures { result ≡ word words.now (128 + 8 * index) }
{
    words::get::<8>(words, FIRST_PTR + types::WORD * index)
}

// Word 3, which grows by the chunk size.
fn get_next_max_ptr(words: &mut [u8]) -> u64
    requires { (128 ≤ length words.old) × (word words.old 24 + word words.old 8 < 18446744073709551616) }
    ensures { (result ≡ word words.old 24) × (words.new ≡ over words.old 24 (spell 8 (word words.old 24 + word words.old 8))) }
{
    let next = max_ptr(words);
    let span = chunk_size(words);
    words::put::<8>(words, MAX_PTR, next + span);
    next
}

// Puts a pointer behind the free ones.
fn push_ptr(words: &mut [u8], pointer: u64)
    requires { 128 + 8 * word words.old 16 + 8 ≤ length words.old }
    ensures { words.new ≡ over (over words.old (128 + 8 * word words.old 16) (spell 8 pointer)) 16 (spell 8 (word words.old 16 + 1)) }
{
    let len = get_len(words);
    words::put::<8>(words, FIRST_PTR + types::WORD * (len as usize), pointer);
    words::put::<8>(words, AVAILABLE_CHUNKS_LEN, len + 1);
}

// The pointer last freed. Its word keeps the old number.
#[tactic(auto, unfolding(words::specs::Rules::pick, crate::specs::Words::last_free, crate::specs::Words::without_last))]
fn pop_ptr(words: &mut [u8]) -> Option<u64>
    requires { (128 ≤ length words.old) × (128 + 8 * word words.old 16 ≤ length words.old) }
    ensures { (result ≡ last_free words.old) × (words.new ≡ without_last words.old) }
{
    let last = get_len(words).checked_sub(1)?;
    let pointer = get_ptr(words, last as usize);
    words::put::<8>(words, AVAILABLE_CHUNKS_LEN, last);
    Some(pointer)
}

// The free pointer last freed, else a new one.
#[tactic(auto, using(crate::proofs::Steps::allocating), unfolding(words::specs::Bytes::Bytes))]
pub fn allocate(words: &mut [u8]) -> u64
    requires { (WordsFormed words.old) × (Takable words.old) }
    ensures { (result ≡ (allocate (read_allocator words.old)).pointer) × (words.new ≡ lay_allocator (allocate (read_allocator words.old)).after) }
{
    match pop_ptr(words) {
        Some(pointer) => pointer,
        None => get_next_max_ptr(words),
    }
}

// Takes a pointer back: it is the next one given out.
#[tactic(auto, using(crate::proofs::Steps::push), unfolding(words::specs::Bytes::Bytes))]
pub fn free(words: &mut [u8], pointer: u64)
    requires { (WordsFormed words.old) × (128 + 8 * word words.old 16 + 8 ≤ length words.old) }
    ensures { words.new ≡ lay_allocator (release pointer (read_allocator words.old)) }
{
    push_ptr(words, pointer);
}

// The size may change only while no chunk was ever given out.
#[tactic(auto, using(crate::proofs::Steps::resizing), unfolding(words::specs::Bytes::Bytes))]
pub fn set_chunk_size(words: &mut [u8], span: u64) -> Result<u64, Error>
    requires { WordsFormed words.old }
    ensures { (result ≡ (set_chunk_size span (read_allocator words.old)).answer) × (words.new ≡ lay_allocator (set_chunk_size span (read_allocator words.old)).after) }
{
    if !accepted(span) {
        return Err(Error::InvalidArgument);
    }
    if chunk_size(words) == span {
        return Ok(0);
    }
    if max_ptr(words) != 0 {
        return Err(Error::InvalidArgument);
    }
    words::put::<8>(words, CHUNK_SIZE, span);
    Ok(0)
}

// Word 3: the pointers given out lie below it.
pub fn max_ptr(words: &[u8]) -> u64
    requires { 128 ≤ length words.now }
    ensures { result ≡ word words.now 24 }
{
    words::get::<8>(words, MAX_PTR)
}

// Whether there are no more free pointers than words behind the first sixteen.
fn is_counted(words: &[u8]) -> bool
    requires { 128 ≤ length words.now }
    ensures { result ≡ leb (word words.now 16) (free_room words.now) }
{
    get_len(words) <= (words.len() / types::WORD - types::ALLOCATOR_WORDS) as u64
}

// Whether words have the whole marker, an accepted size, and no more free pointers than room for them.
#[tactic(auto, unfolding(words::specs::Rules::both, crate::specs::Words::well_marked))]
pub fn is_marked(words: &[u8]) -> bool
    requires { 128 ≤ length words.now }
    ensures { result ≡ well_marked words.now }
{
    words::get::<8>(words, 0) == MARKER && accepted(chunk_size(words)) && is_counted(words)
}
