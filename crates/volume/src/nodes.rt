// Rows of the node table.
ghost use Rattle.std.specs.Prelude.{◌≡◌, ◌+◌, ◌*◌, ◌≤◌, length};
ghost use Rattle.words.specs.Bytes.{part, over};
ghost use Rattle.words.specs.Tables.{table, lead};
ghost use Rattle.words.specs.Tests.{Falls};
ghost use Rattle.volume.specs.Rows.{lay_node, read_node, node_row};
ghost use Rattle.volume.specs.RowTests.{limit_formed, node_formed};
ghost use Rattle.volume.specs.Search.{node_under};

use crate::NODE_ROW;
use crate::kinds::{limit_flag, limit_of};
use types::{FileType, NodeRecord};

// Where the fields of a row start, behind its node: the type byte, the limit flag, zeros, links, size and limit.
const KIND: usize = 8;

const FLAG: usize = 9;

const SPARE: usize = 10;

const LINKS: usize = 16;

const SIZE: usize = 24;

const LIMIT: usize = 32;

// What the flag means.
const NO_LIMIT: u64 = 0;

const LIMITED: u64 = 1;

// How many zeros stand behind the flag.
const SPARE_SIZE: usize = 6;

// The node whose row starts at index at. A byte that means no kind is taken for a directory; no row of a framed volume has one.
pub fn read_node(volume: &[u8], at: usize) -> NodeRecord
    requires { at + node_row ≤ length volume.now }
    ensures { result ≡ read_node (part volume.now at node_row) }
{
    let byte = words::get::<1>(volume, at + KIND) as u8;
    let flag = words::get::<1>(volume, at + FLAG) as u8;
    let kind = FileType::try_from(byte).unwrap_or(FileType::Directory);
    let limit = limit_of(flag, words::get::<8>(volume, at + LIMIT));
    NodeRecord {
        node: words::get::<8>(volume, at),
        kind,
        limit,
        links: words::get::<8>(volume, at + LINKS),
        size: words::get::<8>(volume, at + SIZE),
    }
}

// Writes a node's row at index at.
pub fn write_node(volume: &mut [u8], at: usize, row: NodeRecord)
    requires { at + node_row ≤ length volume.old }
    ensures { volume.new ≡ over volume.old at (lay_node row) }
{
    let byte = u8::from(row.kind) as u64;
    let flag = limit_flag(row.limit) as u64;
    let rest = [row.links, row.size, types::limit_word(row.limit)];
    words::put::<8>(volume, at, row.node);
    words::put::<1>(volume, at + KIND, byte);
    words::put::<1>(volume, at + FLAG, flag);
    words::clear(volume, at + SPARE, SPARE_SIZE);
    words::put_words(volume, at + LINKS, &rest);
}

// How many of the rows stand before a node, by halving.
pub fn seek_node(volume: &[u8], base: usize, used: usize, node: u64) -> usize
    requires { (base + node_row * used ≤ length volume.now) × Falls (node_under node) (table read_node node_row volume.now base used) }
    ensures { (result ≡ lead (node_under node) (table read_node node_row volume.now base used)) × (result ≤ used) }
{
    words::seek(
        used,
        |i| words::get::<8>(volume, base + NODE_ROW * i) < node,
    )
}

// Whether a limit fits its flag: at most 2^40 under flag 1, 0 under flag 0.
fn limit_formed(flag: u64, limit: u64) -> bool
    ensures { result ≡ limit_formed flag limit }
{
    if flag == NO_LIMIT {
        return limit == 0;
    }
    if flag != LIMITED {
        return false;
    }
    limit <= types::MOST_SIZE
}

// Whether the bytes at index at can be a node's row.
pub fn node_formed(volume: &[u8], at: usize) -> bool
    requires { at + node_row ≤ length volume.now }
    ensures { result ≡ node_formed volume.now at }
{
    let byte = words::get::<1>(volume, at + KIND) as u8;
    if FileType::try_from(byte).is_err() {
        return false;
    }
    if !limit_formed(
        words::get::<1>(volume, at + FLAG),
        words::get::<8>(volume, at + LIMIT),
    ) {
        return false;
    }
    let spare = at + SPARE;
    words::is_zero(&volume[spare..spare + SPARE_SIZE])
}
