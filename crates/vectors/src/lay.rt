// Bytes laid out from the numbers of a text.
ghost use Rattle.std.specs.Prelude.{◌≡◌, true, ◌+◌, ◌≤◌, length};

use crate::numbers::Numbers;
use types::WORD;

// Runs of words, their number first.
pub fn lay_runs(numbers: &mut Numbers<'_>, memory: &mut [u8])
    ensures { (length numbers.new ≤ length numbers.old) × (length memory.new ≡ length memory.old) }
{
    let runs = numbers.number();
    for _ in 0..runs {
        lay_run(numbers, memory);
    }
}

// A run: where it starts, how many words it has, and these. A word that does not fit is dropped: what a program prints shows it.
fn lay_run(numbers: &mut Numbers<'_>, memory: &mut [u8])
    ensures { (length numbers.new ≤ length numbers.old) × (length memory.new ≡ length memory.old) }
{
    let [start, count] = numbers.numbers::<2>();
    let mut at = start as usize;
    // A reader of the function's own: one that is lent would be stored anew at each word.
    let mut reader = numbers.copied();
    for _ in 0..count {
        let word = reader.number();
        if has_room(memory, at) {
            words::put::<WORD>(memory, at, word);
            at += WORD;
        } else if reader.is_done() {
            // No later word fits, and none is left to read.
            break;
        }
    }
    *numbers = reader;
}

// Whether a word fits from index at on.
fn has_room(memory: &[u8], at: usize) -> bool
    ensures { result ≡ true → at + 8 ≤ length memory.now }
{
    memory
        .len()
        .checked_sub(WORD)
        .is_some_and(|last| at <= last)
}
