// Chunks of a store: room for new ones, one taken, one kept, bytes put into one.
ghost use Rattle.std.specs.Prelude.{◌≡◌, ◌+◌, ◌-◌, min, ◌≤◌, ◌<◌, length};
ghost use Rattle.std.proofs.Math.Option.{none};
ghost use Rattle.words.specs.Bytes.{over, zeros};
ghost use Rattle.words.specs.Tables.{lead};
ghost use Rattle.allocator.specs.Allocator.{allocate};
ghost use Rattle.volume.specs.Volume.{shown, laid, with_bytes, on_store};
ghost use Rattle.volume.specs.Search.{chunk_under};
ghost use Rattle.tables.specs.Tables.{Ready, chunk_at};
ghost use Rattle.tables.specs.OneRow.{chunk};
ghost use Rattle.store.specs.Room.{room};
ghost use Rattle.store.specs.Taken.{taken};
ghost use Rattle.store.specs.Workable.{Workable};
ghost use Rattle.files.specs.FileRows.{IsSpan};
ghost use Rattle.files.specs.Gap.{closed, Gapped};

use tables::Tables;
use volume::{ChunkRow, Layout};

// How many chunks can still be taken.
pub fn count_room(tables: &Tables, span: u64) -> u64
    requires { IsSpan tables.now.store span × Workable tables.now.store }
    ensures { result ≡ room tables.now.store }
{
    let _ = &tables.layout;
    let rows = (tables.chunk_room() - tables.chunks_used()) as u64;
    let area = tables.area_size() as u64 - tables.max_ptr();
    let chunks = tables.free_count() + area / span;
    rows.min(chunks)
}

// Fills a new chunk: bytes from a byte of it on, and zeros around them.
fn fill_chunk(chunk: &mut [u8], from: usize, bytes: &[u8])
    requires { from + length bytes.now ≤ length chunk.old }
    ensures { chunk.new ≡ over (zeros (length chunk.old)) from bytes.now }
{
    let rest = from + bytes.len();
    chunk[..from].fill(0);
    words::copy(chunk, from, bytes);
    chunk[rest..].fill(0);
}

// Takes a chunk for an index without a row, writes its row at the first place of a gap in the rows, and fills it.
pub fn take_chunk(
    volume: &mut [u8],
    layout: Layout,
    span: u64,
    node: u64,
    index: u64,
    place: usize,
    gap: usize,
    from: usize,
    bytes: &[u8],
) -> usize
    requires { Gapped volume.old layout place gap × Workable (closed place gap volume.old).store × (1 ≤ gap) × (place ≡ lead (chunk_under node index) (closed place gap volume.old).store.chunks) × (chunk node index (closed place gap volume.old).store.chunks ≡ none) × (1 ≤ room (closed place gap volume.old).store) × (from + length bytes.now ≤ (shown volume.old).store.allocator.chunk_size) × IsSpan (shown volume.old).store span }
    ensures { (result ≡ gap - 1) × Gapped volume.new layout (place + 1) result × (closed (place + 1) result volume.new ≡ on_store (with_bytes (over (taken node index (closed place gap volume.old).store).bytes ((allocate (shown volume.old).store.allocator).pointer + from) bytes.now)) (on_store (taken node index) (closed place gap volume.old))) }
{
    let pointer = tables::allocate(volume, layout);
    tables::change_chunk(
        volume,
        layout,
        place,
        ChunkRow {
            node,
            index,
            pointer,
        },
    );
    let at = layout.area + pointer as usize;
    fill_chunk(&mut volume[at..at + span as usize], from, bytes);
    gap - 1
}

// Puts bytes into the chunk that a pointer tells, from a byte of it on.
fn put_piece(volume: &mut [u8], layout: Layout, span: u64, pointer: u64, from: usize, bytes: &[u8])
    requires { Ready volume.old layout × (pointer + (shown volume.old).store.allocator.chunk_size ≤ length (shown volume.old).store.bytes) × (from + length bytes.now ≤ (shown volume.old).store.allocator.chunk_size) × IsSpan (shown volume.old).store span }
    ensures { volume.new ≡ laid (on_store (with_bytes (over (shown volume.old).store.bytes (pointer + from) bytes.now)) (shown volume.old)) }
{
    let at = layout.area + pointer as usize;
    words::copy(&mut volume[at..at + span as usize], from, bytes);
}

// Puts bytes into the chunk of the row behind a gap in the rows, and writes that row at the gap's first place.
pub fn keep_chunk(
    volume: &mut [u8],
    layout: Layout,
    span: u64,
    place: usize,
    gap: usize,
    from: usize,
    bytes: &[u8],
)
    requires { Gapped volume.old layout place gap × (place + gap < length (shown volume.old).store.chunks) × ((chunk_at (shown volume.old).store.chunks (place + gap)).pointer + (shown volume.old).store.allocator.chunk_size ≤ length (shown volume.old).store.bytes) × (from + length bytes.now ≤ (shown volume.old).store.allocator.chunk_size) × IsSpan (shown volume.old).store span }
    ensures { Gapped volume.new layout (place + 1) gap × (closed (place + 1) gap volume.new ≡ on_store (with_bytes (over (shown volume.old).store.bytes ((chunk_at (shown volume.old).store.chunks (place + gap)).pointer + from) bytes.now)) (closed place gap volume.old)) }
{
    let tables = Tables {
        bytes: volume,
        layout,
    };
    let row = tables.chunk_row(place + gap);
    put_piece(volume, layout, span, row.pointer, from, bytes);
    if gap == 0 {
        return;
    }
    tables::change_chunk(volume, layout, place, row);
}

// Zeroes the chunk that a pointer tells from a byte of it on.
pub fn clear_rest(volume: &mut [u8], layout: Layout, span: u64, pointer: u64, from: usize)
    requires { Ready volume.old layout × (pointer + (shown volume.old).store.allocator.chunk_size ≤ length (shown volume.old).store.bytes) × (from ≤ (shown volume.old).store.allocator.chunk_size) × IsSpan (shown volume.old).store span }
    ensures { volume.new ≡ laid (on_store (with_bytes (over (shown volume.old).store.bytes (pointer + from) (zeros ((shown volume.old).store.allocator.chunk_size - from)))) (shown volume.old)) }
{
    let whole = span as usize;
    let at = layout.area + pointer as usize;
    words::clear(&mut volume[at..at + whole], from, whole - from);
}
