// Replays vectors from the standard input on each public function of `words`.
// A step is a line of numbers: the function, then its arguments. Each step works on a fresh buffer, and prints a line: the number
// that the function answers, or the checksum of the buffer that it changed, or `outside` where its contract forbids the call.
#![tactic(auto)]

ghost use Rattle.std.specs.Prelude.{◌↔◌, ◌+◌, ◌≤◌, ◌<◌, length, IsSome, IsTrue};

use std::io;
use vectors::{Lossy, Numbers};

// Bytes of the buffer.
const SIZE: usize = 1024;

// The functions by number. A step of END is the last.
const END: u64 = 0;

const GET: u64 = 1;

const PUT: u64 = 2;

const PUT_WORDS: u64 = 3;

const COPY: u64 = 4;

const CLEAR: u64 = 5;

const SHIFT_UP: u64 = 6;

const SHIFT_DOWN: u64 = 7;

const SAME: u64 = 8;

const IS_ZERO: u64 = 9;

const RANKS_BELOW: u64 = 10;

// A line of PUT_WORDS has an index, how many words count, and then this many words.
const WORDS: usize = 8;

const WORD: usize = 8;

// The first byte of a pattern, and by how much each further one grows: in the buffer, and in the bytes that are copied into it.
const FIRST_BYTE: u8 = 3;

const BUFFER_STEP: u8 = 7;

const SOURCE_STEP: u8 = 11;

// A step: its function and the arguments.
#[derive(Clone, Copy)]
enum Step {
    Get {
        bytes: usize,
        at: usize,
    },
    Put {
        bytes: usize,
        at: usize,
        x: u64,
    },
    PutWords {
        at: usize,
        n: usize,
        words: [u64; WORDS],
    },
    Copy {
        at: usize,
        from: usize,
        n: usize,
    },
    Clear {
        at: usize,
        n: usize,
    },
    ShiftUp {
        from: usize,
        to: usize,
        by: usize,
    },
    ShiftDown {
        from: usize,
        to: usize,
        by: usize,
    },
    Same {
        n: usize,
        m: usize,
        at: usize,
        x: u64,
    },
    IsZero {
        from: usize,
        n: usize,
        at: usize,
        x: u64,
    },
    RanksBelow {
        n: usize,
        m: usize,
        at: usize,
        x: u64,
    },
    Unknown,
}

fn main(rt: HostRuntime) {
    let mut room = vectors::blank();
    let (text, _) = vectors::read_text(&mut rt.stdin(), &mut room);
    let _ = replay(&Lossy(rt), &mut Numbers::new(text));
}

// The steps up to a step of END, or to the end of the text.
fn replay(rt: &impl Print, numbers: &mut Numbers<'_>) -> io::Result<()> {
    while let Some(step) = read_step(numbers) {
        print(rt, run(step))?;
    }
    Ok(())
}

fn print(rt: &impl Print, answer: Option<u64>) -> io::Result<()> {
    match answer {
        Some(number) => println!(rt; "{number:x}"),
        None => println!(rt; "outside"),
    }
}

fn read_step(numbers: &mut Numbers<'_>) -> Option<Step>
    ensures { IsSome result → length numbers.new < length numbers.old }
{
    let step = match numbers.number() {
        END => return None,
        GET => {
            let [bytes, at] = indexes::<2>(numbers);
            Step::Get { bytes, at }
        }
        PUT => {
            let [bytes, at] = indexes::<2>(numbers);
            let x = numbers.number();
            Step::Put { bytes, at, x }
        }
        PUT_WORDS => {
            let [at, n] = indexes::<2>(numbers);
            let words = numbers.numbers::<WORDS>();
            Step::PutWords { at, n, words }
        }
        COPY => {
            let [at, from, n] = indexes::<3>(numbers);
            Step::Copy { at, from, n }
        }
        CLEAR => {
            let [at, n] = indexes::<2>(numbers);
            Step::Clear { at, n }
        }
        SHIFT_UP => {
            let [from, to, by] = indexes::<3>(numbers);
            Step::ShiftUp { from, to, by }
        }
        SHIFT_DOWN => {
            let [from, to, by] = indexes::<3>(numbers);
            Step::ShiftDown { from, to, by }
        }
        SAME => {
            let [n, m, at] = indexes::<3>(numbers);
            let x = numbers.number();
            Step::Same { n, m, at, x }
        }
        IS_ZERO => {
            let [from, n, at] = indexes::<3>(numbers);
            let x = numbers.number();
            Step::IsZero { from, n, at, x }
        }
        RANKS_BELOW => {
            let [n, m, at] = indexes::<3>(numbers);
            let x = numbers.number();
            Step::RanksBelow { n, m, at, x }
        }
        _ => Step::Unknown,
    };
    Some(step)
}

// The next N numbers, as indexes and counts of bytes.
fn indexes<const N: usize>(numbers: &mut Numbers<'_>) -> [usize; N]
    ensures { length numbers.new ≤ length numbers.old }
{
    let mut out = [0; N];
    for index in out.iter_mut() {
        *index = numbers.number() as usize;
    }
    out
}

// What a step tells. It and what it calls answer None where the call is forbidden.
fn run(step: Step) -> Option<u64> {
    match step {
        Step::Get { bytes, at } => get(&pattern(BUFFER_STEP), bytes, at),
        Step::Same { n, m, at, x } => {
            let w = changed(pattern(BUFFER_STEP), at, x)?;
            let v = pattern(BUFFER_STEP);
            Some(u64::from(words::same(v.get(..n)?, w.get(..m)?)))
        }
        Step::RanksBelow { n, m, at, x } => {
            let w = changed(pattern(BUFFER_STEP), at, x)?;
            let v = pattern(BUFFER_STEP);
            Some(u64::from(words::ranks_below(v.get(..n)?, w.get(..m)?)))
        }
        Step::IsZero { from, n, at, x } => {
            let v = changed([0; SIZE], at, x)?;
            Some(u64::from(words::is_zero(v.get(from..)?.get(..n)?)))
        }
        _ => {
            let mut v = pattern(BUFFER_STEP);
            change(&mut v, step)?;
            Some(vectors::checksum(&v))
        }
    }
}

// A step that changes v.
fn change(v: &mut [u8], step: Step) -> Option<()> {
    match step {
        Step::Put { bytes, at, x } => put(v, bytes, at, x),
        Step::PutWords { at, n, words } => put_words(v, at, words.get(..n)?),
        Step::Copy { at, from, n } => copy(v, at, pattern(SOURCE_STEP).get(from..)?.get(..n)?),
        Step::Clear { at, n } => clear(v, at, n),
        Step::ShiftUp { from, to, by } => shift_up(v, from, to, by),
        Step::ShiftDown { from, to, by } => shift_down(v, from, to, by),
        _ => None,
    }
}

// Byte i is i * by + FIRST_BYTE, modulo 256.
fn pattern(by: u8) -> [u8; SIZE] {
    let mut v = [0; SIZE];
    let mut next = FIRST_BYTE;
    for byte in v.iter_mut() {
        *byte = next;
        next = next.wrapping_add(by);
    }
    v
}

// Bytes where the one at index at is x.
fn changed(mut v: [u8; SIZE], at: usize, x: u64) -> Option<[u8; SIZE]> {
    put(&mut v, 1, at, x)?;
    Some(v)
}

// The number of so many bytes at index at.
fn get(v: &[u8], bytes: usize, at: usize) -> Option<u64> {
    if !fits(v, at, bytes) {
        return None;
    }
    match bytes {
        1 => Some(words::get::<1>(v, at)),
        2 => Some(words::get::<2>(v, at)),
        4 => Some(words::get::<4>(v, at)),
        8 => Some(words::get::<8>(v, at)),
        _ => None,
    }
}

// x as a number of so many bytes at index at.
fn put(v: &mut [u8], bytes: usize, at: usize, x: u64) -> Option<()> {
    if !fits(v, at, bytes) {
        return None;
    }
    match bytes {
        1 => Some(words::put::<1>(v, at, x)),
        2 => Some(words::put::<2>(v, at, x)),
        4 => Some(words::put::<4>(v, at, x)),
        8 => Some(words::put::<8>(v, at, x)),
        _ => None,
    }
}

fn put_words(v: &mut [u8], at: usize, words: &[u64]) -> Option<()> {
    fits(v, at, WORD * words.len()).then(|| words::put_words(v, at, words))
}

fn copy(v: &mut [u8], at: usize, source: &[u8]) -> Option<()> {
    fits(v, at, source.len()).then(|| words::copy(v, at, source))
}

fn clear(v: &mut [u8], at: usize, n: usize) -> Option<()> {
    fits(v, at, n).then(|| words::clear(v, at, n))
}

fn shift_up(v: &mut [u8], from: usize, to: usize, by: usize) -> Option<()> {
    let allowed = from <= to && fits(v, to, by);
    allowed.then(|| words::shift_up(v, from, to, by))
}

fn shift_down(v: &mut [u8], from: usize, to: usize, by: usize) -> Option<()> {
    let allowed = by <= from && from <= to && to <= v.len();
    allowed.then(|| words::shift_down(v, from, to, by))
}

// Whether n bytes lie in v from index at on.
fn fits(v: &[u8], at: usize, n: usize) -> bool
    ensures { IsTrue result ↔ (at + n ≤ length v.now) }
{
    at.checked_add(n).is_some_and(|end| end <= v.len())
}
