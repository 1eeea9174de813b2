// Rules of the pointers: one mark for each multiple of the chunk size below word 3, which the pointer that stands there sets.
ghost use Rattle.std.specs.Prelude.{◌≡◌, true, ◌+◌, ◌*◌, ◌≤◌, length};
ghost use Rattle.std.specs.Int.Count.{ones};
ghost use Rattle.allocator.specs.Allocator.{free};
ghost use Rattle.allocator.specs.Opening.{free_word};
ghost use Rattle.soundness.specs.PointerRules.{next_fits, with_mark, markable, Passed, row_pointer, pointers_good};

use tables::Tables;

// As many marks as a volume may have chunks.
const MARKS: usize = types::MOST_ROWS as usize;

const UNMARKED: u8 = 0;

const MARKED: u8 = 1;

// Whether word 3 is a multiple of the chunk size, and the area and the table have room for the chunks below it.
#[tactic(auto, unfolding(words::specs::Rules::both, crate::specs::PointerRules::next_fits))]
pub fn next_fits(span: u64, next: u64, area: u64, chunks: u64) -> bool
    requires { (ones span ≡ 1) × (span ≤ 65536) × (chunks ≤ 4096) }
    ensures { result ≡ next_fits span next area chunks }
{
    words::remainder(next, span) == 0 && next <= area && next <= chunks * span
}

// Marks a pointer: whether it is a multiple of the chunk size below word 3, and was not marked yet.
#[tactic(auto, unfolding(words::specs::Rules::both, crate::specs::PointerRules::markable, crate::specs::PointerRules::with_mark))]
fn mark(marks: &mut [u8; MARKS], span: u64, next: u64, pointer: u64) -> bool
    requires { (ones span ≡ 1) × (next ≤ 4096 * span) }
    ensures { (result ≡ markable span next pointer marks.old) × (result ≡ true → marks.new ≡ with_mark span pointer marks.old) }
{
    if !allocator::is_lined(span, next, pointer) {
        return false;
    }
    let place = words::quotient(pointer, span) as usize;
    if marks[place] != UNMARKED {
        return false;
    }
    marks[place] = MARKED;
    true
}

// Marks the pointer of every row: whether each could be marked.
fn mark_rows(tables: &Tables, marks: &mut [u8; MARKS], span: u64, next: u64) -> bool
    requires { (ones span ≡ 1) × (next ≤ 4096 * span) }
    ensures { Passed span next (row_pointer tables.now.store.chunks) (length tables.now.store.chunks) marks.old result marks.new }
{
    let used = tables.chunks_used();
    for i in 0..used {
        let row = tables.chunk_row(i);
        if !mark(marks, span, next, row.pointer) {
            return false;
        }
    }
    true
}

// Marks every free pointer: whether each could be marked.
fn mark_free(words: &[u8], count: usize, marks: &mut [u8; MARKS], span: u64, next: u64) -> bool
    requires { (128 + 8 * count ≤ length words.now) × (ones span ≡ 1) × (next ≤ 4096 * span) }
    ensures { Passed span next (free_word words.now) count marks.old result marks.new }
{
    for i in 0..count {
        if !mark(marks, span, next, allocator::get_ptr(words, i)) {
            return false;
        }
    }
    true
}

// Whether every pointer ever given out is live once or free once. No pointer was marked twice, so that all are marked if there are as many
// as multiples.
pub fn pointers_good(tables: &Tables, span: u64, next: u64) -> bool
    requires { (ones span ≡ 1) × (next ≤ 4096 * span) }
    ensures { result ≡ pointers_good span next tables.now.store.chunks (free tables.now.store.allocator) }
{
    let mut marks = [UNMARKED; MARKS];
    if !mark_rows(tables, &mut marks, span, next) {
        return false;
    }
    let words = tables.allocator_words();
    let count = tables.free_count() as usize;
    if !mark_free(words, count, &mut marks, span, next) {
        return false;
    }
    (tables.chunks_used() + count) as u64 == words::quotient(next, span)
}
