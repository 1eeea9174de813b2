// Reading. The first row is found by halving, the others follow it in order; a hole gives zeros.
ghost use Rattle.std.specs.Prelude.{◌≡◌, ◌+◌, ◌-◌, ◌/◌, ◌%◌, min, ◌≤◌, ◌<◌, length};
ghost use Rattle.words.specs.Tables.{lead};
ghost use Rattle.types.specs.Outcomes.{outcome};
ghost use Rattle.volume.specs.Search.{chunk_under};
ghost use Rattle.volume.specs.Sound.{Good};
ghost use Rattle.store.specs.Content.{bytes_from};
ghost use Rattle.store.specs.Workable.{Workable};
ghost use Rattle.files.specs.FileRows.{IsSpan};
ghost use Rattle.files.specs.Read.{read_count, read as Read·read};

use crate::files::find_file;
use crate::rows::is_row;
use tables::Tables;
use types::Error;

// What is left of a chunk behind byte offset of a file, and no more than is left to do.
fn piece_size(offset: u64, span: u64, left: usize) -> usize
    requires { 0 < span }
    ensures { (result ≡ min left (span - offset % span)) × (result ≤ left) }
{
    left.min((span - offset % span) as usize)
}

// Reads bytes of one chunk, from byte offset of the file on. Its row, if it has one, is at the place given. Answers the place of the row
// of the next chunk.
fn read_piece(
    tables: &Tables,
    span: u64,
    node: u64,
    offset: u64,
    place: usize,
    out: &mut [u8],
) -> usize
    requires ready { IsSpan tables.now.store span × Workable tables.now.store }
    requires placed { (place ≡ lead (chunk_under node (offset / tables.now.store.allocator.chunk_size)) tables.now.store.chunks) × (length out.old ≤ tables.now.store.allocator.chunk_size - offset % tables.now.store.allocator.chunk_size) }
    ensures { (out.new ≡ bytes_from tables.now.store node offset (length out.old)) × (result ≡ lead (chunk_under node (offset / tables.now.store.allocator.chunk_size + 1)) tables.now.store.chunks) }
{
    if !is_row(tables, place, node, offset / span) {
        out.fill(0);
        return place;
    }
    let _ = &tables.layout;
    let chunk = tables.chunk_row(place);
    let area = tables.area();
    let from = (chunk.pointer + offset % span) as usize;
    let whole = out.len();
    words::copy(out, 0, &area[from..from + whole]);
    place + 1
}

// Reads as many bytes as the buffer has, from byte offset of a file on.
fn read_chunks_v2(tables: &Tables, span: u64, node: u64, offset: u64, buffer: &mut [u8])
    requires { IsSpan tables.now.store span × Workable tables.now.store × (offset + length buffer.old < 18446744073709551616) }
    ensures { buffer.new ≡ bytes_from tables.now.store node offset (length buffer.old) }
{
    let mut place = tables.first_chunk(node, offset / span);
    let mut done = 0;
    // A `while`: the first piece and the last may be shorter than a chunk, so the step changes.
    while done < buffer.len() {
        let from = offset + done as u64;
        let n = piece_size(from, span, buffer.len() - done);
        place = read_piece(tables, span, node, from, place, &mut buffer[done..done + n]);
        done += n;
    }
}

// The lesser of the buffer's length and what the file has behind the offset.
#[tactic(auto, unfolding(crate::specs::Read::read_count))]
fn read_count(size: u64, offset: u64, room: usize) -> usize
    ensures { (result ≡ read_count size offset room) × (result ≤ room) }
{
    room.min(size.saturating_sub(offset) as usize)
}

// Reads a file's bytes from an offset on into the front of the buffer, and answers how many.
pub fn read(tables: &Tables, node: u64, offset: u64, buffer: &mut [u8]) -> Result<u64, Error>
    requires { Good tables.now }
    ensures { outcome result buffer.new ≡ Read·read node offset tables.now buffer.old }
{
    let _ = &tables.layout;
    let file = find_file(tables, node)?;
    let row = file.row;
    let count = read_count(row.size, offset, buffer.len());
    let span = tables.chunk_size();
    read_chunks_v2(tables, span, node, offset, &mut buffer[..count]);
    Ok(count as u64)
}
