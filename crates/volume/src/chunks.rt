// Rows of the chunk table.
ghost use Rattle.std.specs.Prelude.{◌≡◌, ◌+◌, ◌*◌, ◌≤◌, length};
ghost use Rattle.std.specs.Int.Count.{ones};
ghost use Rattle.words.specs.Bytes.{part, over};
ghost use Rattle.words.specs.Tables.{table, lead};
ghost use Rattle.words.specs.Tests.{Falls};
ghost use Rattle.types.specs.Sizes.{most_size};
ghost use Rattle.volume.specs.Rows.{lay_chunk, read_chunk, chunk_row};
ghost use Rattle.volume.specs.Search.{chunk_under};
ghost use Rattle.volume.specs.Sound.{round_up};

use crate::pairs::pair_before;
use crate::{CHUNK_ROW, ChunkRow};

// Where the fields of a row start, behind its node.
const INDEX: usize = 8;

const POINTER: usize = 16;

// The chunk whose row starts at index at.
pub fn read_chunk(volume: &[u8], at: usize) -> ChunkRow
    requires { at + chunk_row ≤ length volume.now }
    ensures { result ≡ read_chunk (part volume.now at chunk_row) }
{
    ChunkRow {
        node: words::get::<8>(volume, at),
        index: words::get::<8>(volume, at + INDEX),
        pointer: words::get::<8>(volume, at + POINTER),
    }
}

// Writes a chunk's row at index at.
pub fn write_chunk(volume: &mut [u8], at: usize, row: ChunkRow)
    requires { at + chunk_row ≤ length volume.old }
    ensures { volume.new ≡ over volume.old at (lay_chunk row) }
{
    let fields = [row.node, row.index, row.pointer];
    words::put_words(volume, at, &fields);
}

// Whether the row whose bytes start at index at stands before (node, index).
fn chunk_under(volume: &[u8], at: usize, node: u64, index: u64) -> bool
    requires { at + chunk_row ≤ length volume.now }
    ensures { result ≡ chunk_under node index (read_chunk (part volume.now at chunk_row)) }
{
    pair_before(
        words::get::<8>(volume, at),
        words::get::<8>(volume, at + INDEX),
        node,
        index,
    )
}

// How many of the rows stand before (node, index), by halving.
pub fn seek_chunk(volume: &[u8], base: usize, used: usize, node: u64, index: u64) -> usize
    requires { (base + chunk_row * used ≤ length volume.now) × Falls (chunk_under node index) (table read_chunk chunk_row volume.now base used) }
    ensures { (result ≡ lead (chunk_under node index) (table read_chunk chunk_row volume.now base used)) × (result ≤ used) }
{
    words::seek(
        used,
        |i| chunk_under(volume, base + CHUNK_ROW * i, node, index),
    )
}

// A file's size divided by the chunk size, rounded up: its chunks have lower indexes.
pub fn round_up(size: u64, span: u64) -> u64
    requires { (ones span ≡ 1) × (span ≤ 65536) × (size ≤ most_size) }
    ensures { (result ≡ round_up span size) × (result ≤ size) }
{
    words::quotient(size + (span - 1), span)
}
