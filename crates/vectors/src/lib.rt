// Test vectors: numbers read from text, bytes laid out from them or made of a seed, lines of calls, a checksum to tell many bytes by, and
// the numbers that a search is told by.
// Text holds numbers in lower-case hexadecimal, with any other bytes between them.
#![tactic(auto)]

mod call;
mod input;
mod lay;
mod numbers;
mod output;
mod search;
mod seed;
mod sum;

pub use call::{BUFFER, Call, MEMORY, blank_buffer, blank_memory};
pub use input::{ROOM, blank, read_text};
pub use lay::lay_runs;
pub use numbers::Numbers;
pub use output::Lossy;
pub use search::{SearchNumbers, search_numbers};
pub use seed::fill;
pub use sum::checksum;

// The descriptors of the standard input and the standard output.
pub const STDIN_FILENO: i32 = 0;

pub const STDOUT_FILENO: i32 = 1;
