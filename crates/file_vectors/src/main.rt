// Replays runs of file calls from the standard input, each on a volume that the text lays out, and prints what each call answers.
// oracle/README.md tells what each line means. Of a call's numbers, place is an offset, a size or a limit; length the bytes to read or
// write, or 1 where there is to be a limit.
#![tactic(auto)]

ghost use Rattle.std.specs.Prelude.{◌≤◌, ◌<◌, length, IsSome};

use std::io;
use types::{Error, WORD};
use vectors::{Call, Lossy, Numbers};

// What a line starts with. Any other number ends the text.
const VOLUME: u64 = 1;

const READ: u64 = 2;

const WRITE: u64 = 3;

const RESIZE: u64 = 4;

const SET_LIMIT: u64 = 5;

// Where node 0 has its size: every volume here has N = E = 8 and C = 64, and rows for nodes 0, 1, 2 and so on.
const FIRST_SIZE: usize = 728;

const NODES: u64 = 8;

// Which call a line is.
#[derive(Clone, Copy)]
enum Kind {
    Read,
    Write,
    Resize,
    SetLimit,
}

fn main(rt: HostRuntime) {
    let mut room = vectors::blank();
    let (text, _) = vectors::read_text(&mut rt.stdin(), &mut room);
    let mut memory = vectors::blank_memory();
    let mut buffer = vectors::blank_buffer();
    let _ = replay(
        &Lossy(rt),
        &mut Numbers::new(text),
        &mut memory,
        &mut buffer,
    );
}

// The runs up to a line that begins none, each with a volume that is lent as many bytes as it has.
fn replay(
    rt: &impl Print,
    numbers: &mut Numbers<'_>,
    memory: &mut [u8],
    buffer: &mut [u8],
) -> io::Result<()> {
    while numbers.number() == VOLUME {
        let length = numbers.number() as usize;
        let Some(volume) = memory.get_mut(..length) else {
            return println!(rt; "outside");
        };
        replay_run(rt, numbers, volume, buffer)?;
    }
    Ok(())
}

// A run from its words on, up to the next line that is no call.
fn replay_run(
    rt: &impl Print,
    numbers: &mut Numbers<'_>,
    volume: &mut [u8],
    buffer: &mut [u8],
) -> io::Result<()>
    ensures { length numbers.new ≤ length numbers.old }
{
    volume.fill(0);
    vectors::lay_runs(numbers, volume);
    println!(rt; "volume")?;
    while let Some((kind, call)) = read_call(numbers) {
        match buffer.get_mut(..call.length as usize) {
            Some(buffer) => carry_out(rt, volume, kind, call, buffer)?,
            None => println!(rt; "outside")?,
        }
    }
    Ok(())
}

// The next call, if the next line is one.
fn read_call(numbers: &mut Numbers<'_>) -> Option<(Kind, Call)>
    ensures within { length numbers.new ≤ length numbers.old }
    ensures shorter { IsSome result → length numbers.new < length numbers.old }
{
    let kind = kind_of(numbers.peek())?;
    Some((kind, Call::read(numbers)))
}

fn kind_of(name: u64) -> Option<Kind>
    ensures { IsSome result → 0 < name }
{
    match name {
        READ => Some(Kind::Read),
        WRITE => Some(Kind::Write),
        RESIZE => Some(Kind::Resize),
        SET_LIMIT => Some(Kind::SetLimit),
        _ => None,
    }
}

// The buffer is filled before a read too, so that its sum shows what the read leaves.
fn carry_out(
    rt: &impl Print,
    volume: &mut [u8],
    kind: Kind,
    call: Call,
    buffer: &mut [u8],
) -> io::Result<()> {
    vectors::fill(buffer, call.seed);
    let answer = ask(volume, kind, call, buffer);
    let size = size_of(volume, call.node);
    print!(rt; "{} {} {size}", types::number(answer), types::value(answer))?;
    if matches!(kind, Kind::Read) {
        print!(rt; " {}", vectors::checksum(buffer))?;
    }
    println!(rt; "")
}

fn ask(volume: &mut [u8], kind: Kind, call: Call, buffer: &mut [u8]) -> Result<u64, Error> {
    match kind {
        Kind::Read => lentilraft::read(volume, call.node, call.place, buffer),
        Kind::Write => lentilraft::write(volume, call.node, call.place, buffer),
        Kind::Resize => lentilraft::resize_file(volume, call.node, call.place),
        Kind::SetLimit => lentilraft::set_limit(volume, call.node, limit_of(call)),
    }
}

fn limit_of(call: Call) -> Option<u64> {
    (call.length != 0).then_some(call.place)
}

// The size in the node's row, or 0 for a node beyond the rows.
fn size_of(volume: &[u8], node: u64) -> u64 {
    if NODES <= node {
        return 0;
    }
    let at = FIRST_SIZE + volume::NODE_ROW * (node as usize);
    match volume.get(at..at + WORD) {
        Some(size) => words::get::<8>(size, 0),
        None => 0,
    }
}
