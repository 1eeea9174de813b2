// Writing. Room for every new chunk is known before the first byte changes. The first row is found by halving, the others follow it.
ghost use Rattle.std.specs.Prelude.{◌≡◌, ◌+◌, ◌-◌, ◌*◌, ◌/◌, max, ◌≤◌, ◌<◌, length, ltb};
ghost use Rattle.words.specs.Tables.{lead};
ghost use Rattle.volume.specs.Volume.{shown, laid, on_store};
ghost use Rattle.volume.specs.Search.{chunk_under};
ghost use Rattle.volume.specs.Sound.{Good};
ghost use Rattle.tables.specs.Tables.{Ready};
ghost use Rattle.tables.specs.OneRow.{chunk};
ghost use Rattle.store.specs.Room.{room, hole, num_of, holes as Room·holes};
ghost use Rattle.store.specs.Written.{low_of, high_of, write_chunk, written};
ghost use Rattle.store.specs.Workable.{Workable};
ghost use Rattle.files.specs.FileRows.{IsSpan};
ghost use Rattle.files.specs.Gap.{closed, Gapped};
ghost use Rattle.files.specs.Write.{write as Write·write};

use crate::chunks::{count_room, keep_chunk, take_chunk};
use crate::files::find_file;
use crate::rows::{count_leading, is_row};
use tables::Tables;
use types::{Error, NodeRecord};
use volume::Layout;

// What of the bytes falls into a chunk: from which byte of the chunk, from which of the bytes, how many.
#[derive(Clone, Copy)]
struct ChunkPiece {
    from: usize,
    start: usize,
    count: usize,
}

// Whether count bytes from an offset on end past a limit. Their end as a sum could wrap.
fn exceeds(limit: u64, offset: u64, count: u64) -> bool
    ensures { result ≡ ltb limit (offset + count) }
{
    if limit < offset {
        return true;
    }
    limit - offset < count
}

// How many chunks count bytes at an offset touch.
fn chunks_touched(offset: u64, count: u64, span: u64) -> u64
    requires { (0 < count) × (offset + count ≤ 1099511627776) × (0 < span) }
    ensures { (result ≡ num_of span offset count) × (offset / span + result ≤ 1099511627776) }
{
    (offset + count - 1) / span + 1 - offset / span
}

// How many chunks that count bytes at an offset touch have no row: counted from the rows, the first of which is at the place given.
fn count_holes(tables: &Tables, span: u64, node: u64, offset: u64, count: u64, place: usize) -> u64
    requires { Workable tables.now.store × (0 < count) × (offset + count ≤ 1099511627776) × (place ≡ lead (chunk_under node (offset / span)) tables.now.store.chunks) × IsSpan tables.now.store span }
    ensures { result ≡ Room·holes node offset count tables.now.store }
{
    let touched = chunks_touched(offset, count, span);
    let end = offset / span + touched;
    let rows = count_leading(tables, place, |row| {
        volume::pair_before(row.node, row.index, node, end)
    });
    touched - rows as u64
}

// Whether so many chunks outnumber those that can be taken.
fn is_cramped(tables: &Tables, span: u64, count: u64) -> bool
    requires { Workable tables.now.store × IsSpan tables.now.store span }
    ensures { result ≡ ltb (room tables.now.store) count }
{
    if count == 0 {
        return false;
    }
    count_room(tables, span) < count
}

// What of count bytes at an offset falls into the chunk of an index that they touch.
fn piece_of(offset: u64, count: u64, index: u64, span: u64) -> ChunkPiece
    requires { (offset < index * span + span) × (index * span < offset + count) × (offset + count ≤ 1099511627776) × (0 < span) × (span ≤ 65536) }
    ensures { (result.from ≡ low_of span offset index - index * span) × (result.start ≡ low_of span offset index - offset) × (result.count ≡ high_of span offset count index - low_of span offset index) }
{
    let begin = index * span;
    let end = begin + span;
    let low = offset.max(begin);
    let high = end.min(offset + count);
    ChunkPiece {
        from: (low - begin) as usize,
        start: (low - offset) as usize,
        count: (high - low) as usize,
    }
}

// Writes what falls into one chunk of a file, taking the chunk if its index is a hole, and answers the gap that is left in the rows. The
// chunk's row is behind the gap, or has to be put in, and is then at the gap's first place.
fn write_chunk(
    volume: &mut [u8],
    layout: Layout,
    span: u64,
    node: u64,
    offset: u64,
    bytes: &[u8],
    index: u64,
    place: usize,
    gap: usize,
) -> usize
    requires gapped { Gapped volume.old layout place gap × Workable (closed place gap volume.old).store × (place ≡ lead (chunk_under node index) (closed place gap volume.old).store.chunks) × (hole (chunk node index (closed place gap volume.old).store.chunks) ≤ room (closed place gap volume.old).store) × (hole (chunk node index (closed place gap volume.old).store.chunks) ≤ gap) × IsSpan (shown volume.old).store span }
    requires touched { (offset < index * (shown volume.old).store.allocator.chunk_size + (shown volume.old).store.allocator.chunk_size) × (index * (shown volume.old).store.allocator.chunk_size < offset + length bytes.now) × (offset + length bytes.now ≤ 1099511627776) }
    ensures { (result ≡ gap - hole (chunk node index (closed place gap volume.old).store.chunks)) × Gapped volume.new layout (place + 1) result × (closed (place + 1) result volume.new ≡ on_store (write_chunk node offset bytes.now index) (closed place gap volume.old)) }
{
    let piece = piece_of(offset, bytes.len() as u64, index, span);
    let from = piece.from;
    let start = piece.start;
    let count = piece.count;
    let part = &bytes[start..start + count];
    let tables = Tables {
        bytes: volume,
        layout,
    };
    if is_row(&tables, place + gap, node, index) {
        keep_chunk(volume, layout, span, place, gap, from, part);
        return gap;
    }
    take_chunk(volume, layout, span, node, index, place, gap, from, part)
}

// Writes all chunks that bytes at an offset touch. The first one's row is, or is put, at the place given. Room for the rows of the holes
// is made in one move.
fn write_chunks_v2(
    volume: &mut [u8],
    layout: Layout,
    span: u64,
    node: u64,
    offset: u64,
    bytes: &[u8],
    place: usize,
    holes: u64,
)
    requires { Ready volume.old layout × Workable (shown volume.old).store × (0 < length bytes.now) × (offset + length bytes.now ≤ 1099511627776) × (holes ≡ Room·holes node offset (length bytes.now) (shown volume.old).store) × (holes ≤ room (shown volume.old).store) × (place ≡ lead (chunk_under node (offset / span)) (shown volume.old).store.chunks) × IsSpan (shown volume.old).store span }
    ensures { volume.new ≡ laid (on_store (written node offset bytes.now) (shown volume.old)) }
{
    let first = offset / span;
    let count = chunks_touched(offset, bytes.len() as u64, span);
    let mut gap = holes as usize;
    tables::open_chunks(volume, layout, place, gap);
    for i in 0..count {
        gap = write_chunk(
            volume,
            layout,
            span,
            node,
            offset,
            bytes,
            first + i,
            place + i as usize,
            gap,
        );
    }
}

// Writes bytes into a file from an offset on, and answers how many. A gap before them reads zero.
pub fn write(
    volume: &mut [u8],
    layout: Layout,
    node: u64,
    offset: u64,
    bytes: &[u8],
) -> Result<u64, Error>
    requires { Ready volume.old layout × Good (shown volume.old) }
    ensures { (result ≡ (Write·write node offset bytes.now (shown volume.old)).answer) × (volume.new ≡ laid (Write·write node offset bytes.now (shown volume.old)).after) }
{
    let tables = Tables {
        bytes: volume,
        layout,
    };
    let file = find_file(&tables, node)?;
    let row = file.row;
    let count = bytes.len() as u64;
    if count == 0 {
        return Ok(0);
    }
    if exceeds(types::file_limit(row.limit), offset, count) {
        return Err(Error::FileTooLarge);
    }
    let span = tables.chunk_size();
    let first = tables.first_chunk(node, offset / span);
    let holes = count_holes(&tables, span, node, offset, count, first);
    if is_cramped(&tables, span, holes) {
        return Err(Error::NoChunkRoom);
    }
    write_chunks_v2(volume, layout, span, node, offset, bytes, first, holes);
    let end = offset + count;
    let size = row.size.max(end);
    tables::change_node(volume, layout, file.place, NodeRecord { size, ..row });
    Ok(count)
}
