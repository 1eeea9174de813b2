// Replays sequences of calls that seeds draw, each on a new volume, and prints after each call what it answers and what then stands in
// every node. oracle/README.md tells what each line means; oracle/sequences.py draws the same calls.
#![tactic(auto)]

mod asking;
mod draws;
mod showing;

ghost use Rattle.std.specs.Prelude.{◌≤◌, length};

use crate::draws::Draw;
use std::io;
use vectors::{Lossy, Numbers};

// What a line starts with. Any other number ends the text.
const SEQUENCE: u64 = 1;

// Length: the memory's. Nodes, entries and chunks: what the tables have room for. Span: the chunk size.
#[derive(Clone, Copy)]
struct Sequence {
    seed: u64,
    calls: u64,
    length: u64,
    nodes: u64,
    entries: u64,
    chunks: u64,
    span: u64,
}

fn main(rt: HostRuntime) {
    let mut room = vectors::blank();
    let (text, _) = vectors::read_text(&mut rt.stdin(), &mut room);
    let mut memory = vectors::blank_memory();
    let mut buffer = vectors::blank_buffer();
    let _ = replay(
        &Lossy(rt),
        &mut Numbers::new(text),
        &mut memory,
        &mut buffer,
    );
}

// The sequences up to a line that is none, each lent as many bytes as it asks for, and a buffer as long as the part of a file that is
// shown.
fn replay(
    rt: &impl Print,
    numbers: &mut Numbers<'_>,
    memory: &mut [u8],
    buffer: &mut [u8],
) -> io::Result<()> {
    while numbers.number() == SEQUENCE {
        let line = read_line(numbers);
        let n = line.length.min(memory.len() as u64) as usize;
        let shown = draws::chunks(draws::WINDOW, line.span);
        let m = shown.min(buffer.len() as u64) as usize;
        replay_line(rt, line, &mut memory[..n], &mut buffer[..m])?;
    }
    Ok(())
}

// The numbers of a line behind the first.
fn read_line(numbers: &mut Numbers<'_>) -> Sequence
    ensures { length numbers.new ≤ length numbers.old }
{
    let [seed, calls, length, nodes, entries, chunks, span] = numbers.numbers::<7>();
    Sequence {
        seed,
        calls,
        length,
        nodes,
        entries,
        chunks,
        span,
    }
}

// A new volume and its calls, each drawn from the last number of the one before, and what stands after it.
fn replay_line(
    rt: &impl Print,
    line: Sequence,
    volume: &mut [u8],
    buffer: &mut [u8],
) -> io::Result<()> {
    let answer = volume::new_volume(volume, line.nodes, line.entries, line.chunks, line.span);
    println!(rt; "volume {}", types::number(answer))?;
    let mut state = line.seed;
    for _ in 0..line.calls {
        let draw = Draw::new(state);
        asking::call(rt, volume, draw, line.span, buffer)?;
        showing::show(rt, volume, buffer)?;
        println!(rt; "")?;
        state = draw.text;
    }
    Ok(())
}
