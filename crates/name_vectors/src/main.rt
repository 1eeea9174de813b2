// Replays runs of calls on names and files from the standard input, each on a new volume, and prints what each call answers.
// oracle/README.md tells what each line means. Of a call's numbers, node is also a parent, a directory or a start; place an offset, a
// size, a limit, a type, a target, an open count, an index, a chunk size, or where a poke goes; length that of the buffer, or of the name,
// path or poke behind the numbers, and 1 where there is to be a limit; seed also what unlink expects, and how many entries a search may
// look at.
#![tactic(auto)]

ghost use Rattle.std.specs.Prelude.{◌≡◌, true, ◌+◌, ◌≤◌, ◌<◌, length, IsSome};

use std::io;
use types::{Error, Expected, Search};
use vectors::{Call, Lossy, Numbers};

// What a line starts with. Any other number ends the text.
const VOLUME: u64 = 1;

const READ: u64 = 2;

const WRITE: u64 = 3;

const RESIZE: u64 = 4;

const SET_LIMIT: u64 = 5;

const CREATE: u64 = 6;

const LINK: u64 = 7;

const UNLINK: u64 = 8;

const REMOVE: u64 = 9;

const FIND: u64 = 10;

const NEXT_ENTRY: u64 = 11;

const SET_CHUNK_SIZE: u64 = 12;

const REPORT: u64 = 13;

const POKE: u64 = 14;

const SUM: u64 = 15;

const SEARCH: u64 = 16;

// What unlink is told to expect. Any other number stands for anything.
const DIRECTORY: u64 = 1;

const FILE: u64 = 2;

// Which call a line is. A sum is none: it tells all bytes of the volume.
#[derive(Clone, Copy)]
enum Kind {
    Read,
    Write,
    Resize,
    SetLimit,
    Create,
    Link,
    Unlink,
    Remove,
    Find,
    NextEntry,
    SetChunkSize,
    Report,
    Poke,
    Sum,
    Search,
}

fn main(rt: HostRuntime) {
    let mut room = vectors::blank();
    let (text, _) = vectors::read_text(&mut rt.stdin(), &mut room);
    let mut memory = vectors::blank_memory();
    let mut buffer = vectors::blank_buffer();
    let _ = replay(
        &Lossy(rt),
        &mut Numbers::new(text),
        &mut memory,
        &mut buffer,
    );
}

// The runs up to a line that begins none, each with a volume that is lent as many bytes as it has.
fn replay(
    rt: &impl Print,
    numbers: &mut Numbers<'_>,
    memory: &mut [u8],
    buffer: &mut [u8],
) -> io::Result<()> {
    while numbers.number() == VOLUME {
        let length = numbers.number() as usize;
        let Some(volume) = memory.get_mut(..length) else {
            return println!(rt; "outside");
        };
        replay_run(rt, numbers, volume, buffer)?;
    }
    Ok(())
}

// A run from the numbers of its new volume on, up to the next line that is no call.
fn replay_run(
    rt: &impl Print,
    numbers: &mut Numbers<'_>,
    volume: &mut [u8],
    buffer: &mut [u8],
) -> io::Result<()>
    ensures { length numbers.new ≤ length numbers.old }
{
    let [nodes, entries, chunks, size] = numbers.numbers::<4>();
    let answer = volume::new_volume(volume, nodes, entries, chunks, size);
    println!(rt; "volume {}", types::number(answer))?;
    while let Some((kind, call)) = read_call(numbers) {
        match buffer.get_mut(..call.length as usize) {
            Some(buffer) => {
                load(numbers, kind, call, buffer);
                carry_out(rt, volume, kind, call, buffer)?;
            }
            None => println!(rt; "outside")?,
        }
    }
    Ok(())
}

// The next call, if the next line is one.
fn read_call(numbers: &mut Numbers<'_>) -> Option<(Kind, Call)>
    ensures within { length numbers.new ≤ length numbers.old }
    ensures shorter { IsSome result → length numbers.new < length numbers.old }
{
    let kind = kind_of(numbers.peek())?;
    Some((kind, Call::read(numbers)))
}

fn kind_of(name: u64) -> Option<Kind>
    ensures { IsSome result → 0 < name }
{
    match name {
        READ => Some(Kind::Read),
        WRITE => Some(Kind::Write),
        RESIZE => Some(Kind::Resize),
        SET_LIMIT => Some(Kind::SetLimit),
        CREATE => Some(Kind::Create),
        LINK => Some(Kind::Link),
        UNLINK => Some(Kind::Unlink),
        REMOVE => Some(Kind::Remove),
        FIND => Some(Kind::Find),
        NEXT_ENTRY => Some(Kind::NextEntry),
        SET_CHUNK_SIZE => Some(Kind::SetChunkSize),
        REPORT => Some(Kind::Report),
        POKE => Some(Kind::Poke),
        SUM => Some(Kind::Sum),
        SEARCH => Some(Kind::Search),
        _ => None,
    }
}

// A name, a path or a poke from the text, or bytes made of the seed: before a read or a report too, so that its sum shows what that
// leaves.
fn load(numbers: &mut Numbers<'_>, kind: Kind, call: Call, buffer: &mut [u8])
    ensures { length numbers.new ≤ length numbers.old }
{
    match kind {
        Kind::Create | Kind::Link | Kind::Unlink | Kind::Find | Kind::Poke | Kind::Search =>
            numbers.bytes(buffer),
        _ => vectors::fill(buffer, call.seed),
    }
}

fn carry_out(
    rt: &impl Print,
    volume: &mut [u8],
    kind: Kind,
    call: Call,
    buffer: &mut [u8],
) -> io::Result<()> {
    match kind {
        Kind::NextEntry => print_entry(rt, volume, call)?,
        Kind::Search => print_search(rt, search(volume, call, buffer))?,
        Kind::Sum => print!(rt; "sum {}", vectors::checksum(volume))?,
        _ => print_answer(rt, ask(volume, kind, call, buffer))?,
    }
    if matches!(kind, Kind::Read | Kind::Report) {
        print!(rt; " {}", vectors::checksum(buffer))?;
    }
    println!(rt; "")
}

fn ask(volume: &mut [u8], kind: Kind, call: Call, buffer: &mut [u8]) -> Result<u64, Error> {
    match kind {
        Kind::Read => lentilraft::read(volume, call.node, call.place, buffer),
        Kind::Write => lentilraft::write(volume, call.node, call.place, buffer),
        Kind::Resize => lentilraft::resize_file(volume, call.node, call.place),
        Kind::SetLimit => lentilraft::set_limit(volume, call.node, limit_of(call)),
        Kind::SetChunkSize => lentilraft::set_chunk_size(volume, call.place),
        Kind::Report => lentilraft::report(volume, buffer),
        Kind::Poke => poke(volume, call.place as usize, buffer),
        _ => ask_names(volume, kind, call, buffer),
    }
}

// The text is a name or a path.
fn ask_names(volume: &mut [u8], kind: Kind, call: Call, text: &[u8]) -> Result<u64, Error> {
    match kind {
        Kind::Create => lentilraft::create(volume, call.node, text, (call.place & 0xff) as u8),
        Kind::Link => lentilraft::link(volume, call.node, text, call.place),
        Kind::Unlink => {
            lentilraft::unlink(volume, call.node, text, expected(call.seed), call.place)
        }
        Kind::Remove => lentilraft::remove(volume, call.node),
        _ => lentilraft::find_node(volume, call.node, text),
    }
}

// Puts bytes into the volume by no call, and asks check about it. Bytes that do not fit are dropped: what a program prints shows it.
fn poke(volume: &mut [u8], at: usize, bytes: &[u8]) -> Result<u64, Error> {
    if has_room(volume, at, bytes.len()) {
        words::copy(volume, at, bytes);
    }
    lentilraft::check(volume)
}

// Whether n bytes fit from index at on.
fn has_room(volume: &[u8], at: usize, n: usize) -> bool
    ensures { result ≡ true → at + n ≤ length volume.now }
{
    at.checked_add(n).is_some_and(|end| end <= volume.len())
}

fn limit_of(call: Call) -> Option<u64> {
    (call.length != 0).then_some(call.place)
}

fn expected(kind: u64) -> Expected {
    match kind {
        DIRECTORY => Expected::Directory,
        FILE => Expected::File,
        _ => Expected::Any,
    }
}

fn search(volume: &[u8], call: Call, name: &[u8]) -> Result<Search, Error> {
    lentilraft::search(volume, call.node, name, index_of(call), call.seed)
}

fn index_of(call: Call) -> u32 {
    (call.place & 0xffff_ffff) as u32
}

// What came of a search: found, absent or stopped; an index, a node, and how many entries were looked at.
fn print_search(rt: &impl Print, search: Result<Search, Error>) -> io::Result<()> {
    let told = vectors::search_numbers(search);
    print!(rt;
        "{} {} {} {} {}",
        told.number, told.case, told.index, told.node, told.looked
    )
}

// The next entry: its index, its node and the bytes of its name.
fn print_entry(rt: &impl Print, volume: &[u8], call: Call) -> io::Result<()> {
    let mut number = 0;
    let mut index = 0;
    let mut node = 0;
    let from = index_of(call);
    let name = lentilraft::next_entry(volume, call.node, from, &mut number, &mut index, &mut node);
    print!(rt; "{number} {index} {node}")?;
    for byte in name {
        print!(rt; " {byte}")?;
    }
    Ok(())
}

fn print_answer(rt: &impl Print, answer: Result<u64, Error>) -> io::Result<()> {
    print!(rt; "{} {}", types::number(answer), types::value(answer))
}
