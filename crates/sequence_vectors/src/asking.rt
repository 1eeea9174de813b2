// A drawn call, and what it answers.
ghost use Rattle.std.specs.Prelude.{◌≤◌};

use crate::draws::{Draw, Kind, SELDOM, is_rare};
use crate::{draws, showing};
use std::io;
use types::{Error, Expected, Search};

// Nodes that are tried at most.
const NODES: u64 = 4_096;

// The most rows that a new volume in the middle has room for.
const ROWS: u64 = 12;

// A search starts from an index below the one, and looks at fewer entries than the other.
const FIRSTS: u64 = 4;

const LOOKS: u64 = 5;

// Makes the call with as much of the buffer as it is lent, and prints its answer.
pub(crate) fn call(
    rt: &impl Print,
    volume: &mut [u8],
    draw: Draw,
    span: u64,
    buffer: &mut [u8],
) -> io::Result<()> {
    let n = draws::lent(draw, span).min(buffer.len() as u64) as usize;
    ask(rt, volume, draw, span, &mut buffer[..n])
}

fn ask(
    rt: &impl Print,
    volume: &mut [u8],
    draw: Draw,
    span: u64,
    buffer: &mut [u8],
) -> io::Result<()> {
    load(draw, buffer);
    tell(rt, volume, draw, span, buffer)?;
    if matches!(draw.kind, Kind::Read | Kind::Report) {
        print!(rt; " {}", vectors::checksum(buffer))?;
    }
    Ok(())
}

// A name, a path, or data: before a read or a report too, so that its sum shows what that leaves.
fn load(draw: Draw, buffer: &mut [u8]) {
    match draw.kind {
        Kind::Create | Kind::Link | Kind::Search => draws::spell_name(buffer, draw.text),
        Kind::Find | Kind::Unlink => draws::spell_path(buffer, draw.text),
        _ => vectors::fill(buffer, draw.text),
    }
}

fn tell(
    rt: &impl Print,
    volume: &mut [u8],
    draw: Draw,
    span: u64,
    buffer: &mut [u8],
) -> io::Result<()> {
    let last = last_node(volume);
    match draw.kind {
        Kind::NextEntry => {
            let from = (draw.other % ROWS) as u32;
            showing::print_entry(rt, volume, folder(draw.node, last), from)
        }
        Kind::Search => showing::print_search(rt, search(volume, draw, last, buffer)),
        _ => showing::print_answer(rt, ask_volume(volume, draw, span, last, buffer)),
    }
}

// The greatest number that a node got.
fn last_node(volume: &[u8]) -> u32
    ensures { result ≤ 4095 }
{
    let Some(header) = volume.get(..volume::ALLOCATOR) else {
        return 0;
    };
    let next = words::get::<8>(header, volume::NEXT_NODE);
    (next.saturating_sub(1) % NODES) as u32
}

// A node that was made behind node 0, or now and then the next one.
fn node(draw: u64, last: u32) -> u64 {
    let last = u64::from(last);
    if last == 0 {
        1
    } else if is_rare(draw) {
        last + 1
    } else {
        1 + draw / SELDOM % last
    }
}

// Mostly node 0.
fn folder(draw: u64, last: u32) -> u64 {
    if is_rare(draw) {
        node(draw / SELDOM, last)
    } else {
        0
    }
}

// Mostly another one.
fn file(draw: u64, last: u32) -> u64 {
    if is_rare(draw) {
        0
    } else {
        node(draw / SELDOM, last)
    }
}

fn ask_volume(
    volume: &mut [u8],
    draw: Draw,
    span: u64,
    last: u32,
    buffer: &mut [u8],
) -> Result<u64, Error> {
    match draw.kind {
        Kind::Report => lentilraft::report(volume, buffer),
        Kind::Check => lentilraft::check(volume),
        Kind::SetChunkSize => lentilraft::set_chunk_size(volume, draws::chunk_size(draw.other)),
        Kind::NewVolume => renew(volume, draw),
        _ => ask_files(volume, draw, span, last, buffer),
    }
}

fn renew(volume: &mut [u8], draw: Draw) -> Result<u64, Error> {
    let nodes = 1 + draw.node % ROWS;
    let entries = 1 + draw.other % ROWS;
    let chunks = 1 + draw.place % ROWS;
    volume::new_volume(
        volume,
        nodes,
        entries,
        chunks,
        draws::chunk_size(draw.length),
    )
}

fn ask_files(
    volume: &mut [u8],
    draw: Draw,
    span: u64,
    last: u32,
    buffer: &mut [u8],
) -> Result<u64, Error> {
    let file = file(draw.node, last);
    let place = draws::place(draw.place, span);
    match draw.kind {
        Kind::Read => lentilraft::read(volume, file, place, buffer),
        Kind::Write => lentilraft::write(volume, file, place, buffer),
        Kind::Resize => lentilraft::resize_file(volume, file, place),
        Kind::SetLimit => lentilraft::set_limit(volume, file, limit(draw.other, place)),
        _ => ask_names(volume, draw, last, buffer),
    }
}

// The text is a name or a path.
fn ask_names(volume: &mut [u8], draw: Draw, last: u32, text: &[u8]) -> Result<u64, Error> {
    let start = folder(draw.node, last);
    match draw.kind {
        Kind::Create => lentilraft::create(volume, start, text, file_type(draw.other)),
        Kind::Link => lentilraft::link(volume, start, text, file(draw.other, last)),
        Kind::Find => lentilraft::find_node(volume, start, text),
        Kind::Unlink => {
            let opens = u64::from(is_rare(draw.place));
            lentilraft::unlink(volume, start, text, expected(draw.other), opens)
        }
        _ => lentilraft::remove(volume, file(draw.node, last)),
    }
}

fn search(volume: &[u8], draw: Draw, last: u32, name: &[u8]) -> Result<Search, Error> {
    let start = folder(draw.node, last);
    let from = (draw.other % FIRSTS) as u32;
    lentilraft::search(volume, start, name, from, draw.place % LOOKS)
}

fn limit(draw: u64, place: u64) -> Option<u64> {
    (!is_rare(draw)).then_some(place)
}

// The byte of a file type, and one that is none.
fn file_type(draw: u64) -> u8 {
    match draw % 16 {
        0..=2 => 0,
        3..=13 => 1,
        14 => 2,
        _ => 3,
    }
}

fn expected(draw: u64) -> Expected {
    match draw % 8 {
        0 => Expected::Directory,
        1 => Expected::File,
        _ => Expected::Any,
    }
}
