// Asks of each memory that the standard input describes whether it is a sound volume, and prints a line that tells the answer.
// The text lays out volumes, and breaks a copy of the last one anew in each case. oracle/README.md tells what each line means.
#![tactic(auto)]

ghost use Rattle.std.specs.Prelude.{◌≡◌, ◌≤◌, length};

use std::io;
use vectors::{Lossy, Numbers};

// What a line starts with. Any other number ends the text.
const VOLUME: u64 = 1;

const CASE: u64 = 2;

// Replays the standard input, in memories of zeros.
fn main(rt: HostRuntime) {
    let mut room = vectors::blank();
    let (text, _) = vectors::read_text(&mut rt.stdin(), &mut room);
    let mut volume = vectors::blank_memory();
    let mut memory = vectors::blank_memory();
    let _ = replay(
        &Lossy(rt),
        &mut Numbers::new(text),
        &mut volume,
        &mut memory,
    );
}

// The volumes and cases of the text, one after the other. A case is lent as many bytes as it asks for; one that asks for too many is the
// last.
fn replay(
    rt: &impl Print,
    numbers: &mut Numbers<'_>,
    volume: &mut [u8],
    memory: &mut [u8],
) -> io::Result<()> {
    loop {
        match numbers.number() {
            VOLUME => {
                volume.fill(0);
                vectors::lay_runs(numbers, volume);
            }
            CASE => {
                let n = numbers.number() as usize;
                let (Some(volume), Some(memory)) = (volume.get(..n), memory.get_mut(..n)) else {
                    return println!(rt; "outside");
                };
                memory.copy_from_slice(volume);
                vectors::lay_runs(numbers, memory);
                judge(rt, memory, numbers.rest_of_line())?;
            }
            _ => return Ok(()),
        }
    }
}

// Opens the memory, and prints the number that a call on the volume would give back first, whether a byte changed, the checksum, and the
// label, which has a space before it.
fn judge(rt: &impl Print, memory: &[u8], label: &[u8]) -> io::Result<()> {
    let before = vectors::checksum(memory);
    let answer = u8::from(soundness::open(memory).is_err());
    let after = vectors::checksum(memory);
    let change = if before == after {
        "unchanged"
    } else {
        "changed"
    };
    print!(rt; "answer {answer} {change} checksum {after}")?;
    rt.write_all(label)?;
    println!(rt)
}
