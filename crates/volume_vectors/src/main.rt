// Makes a new volume for each case of the standard input, and prints a line that tells what came of it.
// A case is a line of numbers: NEW, the rooms of the node, entry and chunk tables, the chunk size, and the bytes of the memory.
#![tactic(auto)]

ghost use Rattle.std.specs.Prelude.{◌+◌, ◌*◌, ◌≤◌, length};

use std::io;
use types::WORD;
use vectors::{Lossy, Numbers};

// What a case starts with. Any other number ends the text.
const NEW: u64 = 1;

// Where the allocator's free pointers start, in bytes. Behind the room for these stand the node rows.
const POINTERS: usize = volume::ALLOCATOR + WORD * types::ALLOCATOR_WORDS;

// The allocator's words that have a meaning of their own: marker, chunk size, free count, next new pointer.
const NAMED_WORDS: usize = 4;

// The rooms of the tables, and the chunk size.
#[derive(Clone, Copy)]
struct Case {
    nodes: u64,
    entries: u64,
    chunks: u64,
    size: u64,
}

fn main(rt: HostRuntime) {
    let mut room = vectors::blank();
    let (text, _) = vectors::read_text(&mut rt.stdin(), &mut room);
    let mut memory = vectors::blank_memory();
    let _ = replay(&Lossy(rt), &mut Numbers::new(text), &mut memory);
}

// The cases up to a line that is none, each lent as many bytes as it asks for.
fn replay(rt: &impl Print, numbers: &mut Numbers<'_>, memory: &mut [u8]) -> io::Result<()> {
    while numbers.number() == NEW {
        let [nodes, entries, chunks, size, length] = numbers.numbers::<5>();
        let case = Case {
            nodes,
            entries,
            chunks,
            size,
        };
        match memory.get_mut(..length as usize) {
            Some(memory) => make(rt, memory, case)?,
            None => println!(rt; "outside")?,
        }
    }
    Ok(())
}

fn make(rt: &impl Print, memory: &mut [u8], case: Case) -> io::Result<()> {
    fill(memory);
    let before = vectors::checksum(memory);
    let answer = volume::new_volume(memory, case.nodes, case.entries, case.chunks, case.size);
    let after = vectors::checksum(memory);
    print!(rt; "answer {} {}", types::number(answer), types::value(answer))?;
    match answer {
        Ok(_) => print_volume(rt, memory, case.chunks)?,
        Err(_) if before == after => print!(rt; " unchanged")?,
        Err(_) => print!(rt; " changed")?,
    }
    println!(rt; " checksum {after}")
}

// Byte i is 1 + i % 255: never zero, so that what a new volume leaves unwritten shows.
fn fill(memory: &mut [u8]) {
    for (i, byte) in memory.iter_mut().enumerate() {
        *byte = (i % 255 + 1) as u8;
    }
}

// The header, the allocator's named words, and the first node row.
fn print_volume(rt: &impl Print, volume: &[u8], chunks: u64) -> io::Result<()>
    requires { 232 + 8 * chunks ≤ length volume.now }
{
    let nodes = POINTERS + WORD * (chunks as usize);
    print!(rt; " header")?;
    print_words(rt, &volume[..WORD * types::HEADER_WORDS])?;
    print!(rt; " allocator")?;
    print_words(
        rt,
        &volume[volume::ALLOCATOR..volume::ALLOCATOR + WORD * NAMED_WORDS],
    )?;
    print!(rt; " node")?;
    print_words(rt, &volume[nodes..nodes + volume::NODE_ROW])
}

fn print_words(rt: &impl Print, words: &[u8]) -> io::Result<()> {
    for word in words.chunks_exact(WORD) {
        print!(rt; " {}", words::get::<8>(word, 0))?;
    }
    Ok(())
}
