// Replays runs of the allocator from the standard input, and compares each answer and all words after it with those stored there.
// A step whose words its contract forbids counts as a difference. oracle/README.md tells what each line means.
#![tactic(auto)]

ghost use Rattle.std.specs.Prelude.{◌≡◌, true, ◌+◌, ◌*◌, ◌^◌, ◌≤◌, ◌<◌, length, IsSome};
ghost use Rattle.allocator.specs.Words.{WordsFormed, Takable};

use std::io;
use vectors::{Lossy, Numbers};

// What a line starts with.
const BEGIN: u64 = 1;

const OPEN: u64 = 2;

const SET_CHUNK_SIZE: u64 = 3;

const ALLOCATE: u64 = 4;

const FREE: u64 = 5;

// The most bytes that the part of a run has: 24 words.
const MOST_BYTES: usize = 192;

// What stands past the last whole word of a part: no zero, so that it shows where it is read.
const PAST: u8 = 255;

// Where the free pointers start, in bytes.
const FIRST_POINTER: usize = 128;

// A call, with its argument where it has one.
#[derive(Clone, Copy)]
enum Call {
    Open,
    SetChunkSize(u64),
    Allocate,
    Free(u64),
}

// A step up to its words. Where a call has no answer, that is 0.
#[derive(Clone, Copy)]
struct Step {
    call: Call,
    answer: u64,
}

// How many steps a run has, and the first that differs, counted from 1.
#[derive(Clone, Copy)]
struct Run {
    steps: usize,
    differs: Option<usize>,
}

fn main(rt: HostRuntime) {
    let mut room = vectors::blank();
    let (text, _) = vectors::read_text(&mut rt.stdin(), &mut room);
    let _ = replay(&Lossy(rt), text);
}

// The runs up to a line that begins none.
fn replay(rt: &impl Print, text: &[u8]) -> io::Result<()> {
    let mut numbers = Numbers::new(text);
    let mut runs: usize = 0;
    let mut steps: usize = 0;
    while numbers.number() == BEGIN {
        let run = replay_run(&mut numbers);
        runs += 1;
        steps += run.steps;
        print_run(rt, runs, run)?;
    }
    println!(rt; "all {runs} runs, {steps} steps")
}

fn print_run(rt: &impl Print, number: usize, run: Run) -> io::Result<()> {
    match run.differs {
        Some(step) => println!(rt; "run {number}: step {step} differs"),
        None => {
            let steps = run.steps;
            println!(rt; "run {number}: {steps} steps")
        }
    }
}

// A run behind the number that begins it. Whose answers they are makes no difference here. A part with more bytes than any has is cut,
// and so its run differs.
fn replay_run(numbers: &mut Numbers<'_>) -> Run
    requires { length numbers.old < 2 ^ 64 }
    ensures { result.steps + length numbers.new ≤ length numbers.old }
{
    let [_, length] = numbers.numbers::<2>();
    let n = length.min(MOST_BYTES as u64) as usize;
    let mut words = [PAST; MOST_BYTES];
    let mut expected = [PAST; MOST_BYTES];
    read_words(numbers, &mut words[..n]);
    replay_steps(numbers, &mut words[..n], &mut expected[..n])
}

// The steps of a run, up to the next line that is none. Behind the first one that differs they are only counted.
fn replay_steps(numbers: &mut Numbers<'_>, words: &mut [u8], expected: &mut [u8]) -> Run
    requires { length numbers.old < 2 ^ 64 }
    ensures { result.steps + length numbers.new ≤ length numbers.old }
{
    let mut run = Run {
        steps: 0,
        differs: None,
    };
    while let Some(step) = read_step(numbers) {
        read_words(numbers, expected);
        run = replay_step(run, words, step, expected);
    }
    run
}

// The run with one step more.
fn replay_step(before: Run, words: &mut [u8], step: Step, expected: &[u8]) -> Run
    requires { before.steps + 1 < 2 ^ 64 }
    ensures { result.steps ≡ before.steps + 1 }
{
    let steps = before.steps + 1;
    let differs = match before.differs {
        None => (!agrees(words, step, expected)).then_some(steps),
        earlier => earlier,
    };
    Run { steps, differs }
}

// As many words as out has room for.
fn read_words(numbers: &mut Numbers<'_>, out: &mut [u8])
    ensures { length numbers.new ≤ length numbers.old }
{
    for word in out.chunks_exact_mut(types::WORD) {
        words::put::<8>(word, 0, numbers.number());
    }
}

// The next step up to its words, if the next line is one.
fn read_step(numbers: &mut Numbers<'_>) -> Option<Step>
    ensures within { length numbers.new ≤ length numbers.old }
    ensures shorter { IsSome result → length numbers.new < length numbers.old }
{
    let (call, answer) = match numbers.peek() {
        OPEN => {
            let [_, answer] = numbers.numbers::<2>();
            (Call::Open, answer)
        }
        SET_CHUNK_SIZE => {
            let [_, size, answer] = numbers.numbers::<3>();
            (Call::SetChunkSize(size), answer)
        }
        ALLOCATE => {
            let [_, pointer] = numbers.numbers::<2>();
            (Call::Allocate, pointer)
        }
        FREE => {
            let [_, pointer] = numbers.numbers::<2>();
            (Call::Free(pointer), 0)
        }
        _ => return None,
    };
    Some(Step { call, answer })
}

// Whether the call is allowed and answers what the step says, and leaves the words expected.
fn agrees(words: &mut [u8], step: Step, expected: &[u8]) -> bool {
    carry_out(words, step.call) == Some(step.answer) && words::same(words, expected)
}

// What a call answers, or None where its contract forbids it.
fn carry_out(words: &mut [u8], call: Call) -> Option<u64> {
    match call {
        Call::Open => Some(u64::from(types::number(allocator::open(words)))),
        Call::SetChunkSize(size) => {
            let formed = is_formed(words);
            formed.then(|| u64::from(types::number(allocator::set_chunk_size(words, size))))
        }
        Call::Allocate => {
            let allowed = is_formed(words) && is_takable(words);
            allowed.then(|| allocator::allocate(words))
        }
        Call::Free(pointer) => {
            let allowed = is_formed(words) && allocator::get_len(words) < free_room(words);
            allowed.then(|| allocator::free(words, pointer))?;
            Some(0)
        }
    }
}

// Whether the words are such as set chunk size, allocate and free ask for.
fn is_formed(words: &[u8]) -> bool
    ensures { result ≡ true → WordsFormed words.now }
{
    FIRST_POINTER <= words.len()
        && words.len() % types::WORD == 0
        && allocator::get_len(words) <= free_room(words)
}

// The words for free pointers.
fn free_room(words: &[u8]) -> u64
    requires { 128 ≤ length words.now }
    ensures { 128 + 8 * result ≤ length words.now }
{
    ((words.len() - FIRST_POINTER) / types::WORD) as u64
}

// Whether there is a free pointer, or else a next new one that is a number.
fn is_takable(words: &[u8]) -> bool
    requires { 128 ≤ length words.now }
    ensures { result ≡ true → Takable words.now }
{
    let next = allocator::max_ptr(words).checked_add(allocator::chunk_size(words));
    allocator::get_len(words) != 0 || next.is_some()
}
