// Prints what a call answers, and what stands in every node.
use crate::draws::joined;
use std::io;
use tables::Tables;
use types::{Error, FileType, NodeRecord, Search};

// An entry that was asked for: the number of the answer, a number that tells index, node and name, and the least index behind it.
#[derive(Clone, Copy)]
struct Listed {
    number: u32,
    told: u64,
    behind: u32,
}

pub(crate) fn print_answer(rt: &impl Print, answer: Result<u64, Error>) -> io::Result<()> {
    print!(rt; "{} {}", types::number(answer), types::value(answer))
}

pub(crate) fn print_entry(
    rt: &impl Print,
    volume: &[u8],
    directory: u64,
    from: u32,
) -> io::Result<()> {
    let entry = entry_from(volume, directory, from);
    print!(rt; "{} {}", entry.number, entry.told)
}

// A number that tells what came of a search, the index, the node and how many entries were looked at.
pub(crate) fn print_search(rt: &impl Print, search: Result<Search, Error>) -> io::Result<()> {
    let told = vectors::search_numbers(search);
    let entry = joined(joined(told.case, told.index), told.node);
    print!(rt; "{} {}", told.number, joined(entry, told.looked))
}

// A number for every node, in ascending order.
pub(crate) fn show(rt: &impl Print, volume: &[u8], buffer: &mut [u8]) -> io::Result<()> {
    let Ok(layout) = soundness::open(volume) else {
        return print!(rt; " unsound");
    };
    print!(rt; ":")?;
    let tables = Tables {
        bytes: volume,
        layout,
    };
    for place in 0..tables.nodes_used() {
        let row = tables.node_row(place);
        print!(rt; " {}", joined(row_told(row), content(volume, row, buffer)))?;
    }
    Ok(())
}

fn row_told(row: NodeRecord) -> u64 {
    let named = joined(row.node, u64::from(u8::from(row.kind)));
    let sized = joined(joined(named, row.links), row.size);
    joined(sized, limit_told(row.limit))
}

fn limit_told(limit: Option<u64>) -> u64 {
    match limit {
        None => 0,
        Some(most) => joined(1, most),
    }
}

// The entries of a directory, or the first bytes of a file.
fn content(volume: &[u8], row: NodeRecord, buffer: &mut [u8]) -> u64 {
    match row.kind {
        FileType::Directory => entries(volume, row.node, row.size),
        FileType::RegularFile | FileType::SymbolicLink => bytes(volume, row.node, buffer),
    }
}

// As many bytes as the buffer has room for, zeros past the size; and how many there were.
fn bytes(volume: &[u8], node: u64, buffer: &mut [u8]) -> u64 {
    buffer.fill(0);
    let answer = lentilraft::read(volume, node, 0, buffer);
    joined(types::value(answer), vectors::checksum(buffer))
}

fn entries(volume: &[u8], directory: u64, size: u64) -> u64 {
    let mut told = 0;
    let mut from = 0;
    for _ in 0..size {
        let entry = entry_from(volume, directory, from);
        told = joined(told, entry.told);
        from = entry.behind;
    }
    told
}

fn entry_from(volume: &[u8], directory: u64, from: u32) -> Listed {
    let mut number = 0;
    let mut index = 0;
    let mut node = 0;
    let name = lentilraft::next_entry(volume, directory, from, &mut number, &mut index, &mut node);
    Listed {
        number,
        told: joined(joined(u64::from(index), node), vectors::checksum(name)),
        behind: index.saturating_add(1),
    }
}
