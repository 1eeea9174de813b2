// The chunk table, changed. Its rows ascend by (node, index).
ghost use Rattle.std.specs.Prelude.{◌≡◌, [], ◌++◌, ◌+◌, ◌≤◌, ◌<◌, length, take, drop, set, replicate};
ghost use Rattle.volume.specs.Rows.{read_chunk};
ghost use Rattle.volume.specs.Volume.{shown, laid, with_chunks, on_store};
ghost use Rattle.tables.specs.Tables.{Ready};

use crate::reading::Tables;
use crate::rows::take_out;
use volume::{ChunkRow, Layout};

// Writes another row over the one at a place, as change_node does: one function over both writers would be longer than the two.
pub fn change_chunk(volume: &mut [u8], layout: Layout, place: usize, row: ChunkRow)
    requires { Ready volume.old layout × (place < length (shown volume.old).store.chunks) }
    ensures { volume.new ≡ laid (on_store (with_chunks (set (shown volume.old).store.chunks place row)) (shown volume.old)) }
{
    let base = layout.chunks;
    volume::write_chunk(volume, base + volume::CHUNK_ROW * place, row);
}

// Puts rows of zeros in before the row at a place, in one move.
pub fn open_chunks(volume: &mut [u8], layout: Layout, place: usize, count: usize)
    requires { Ready volume.old layout × (place ≤ length (shown volume.old).store.chunks) × (length (shown volume.old).store.chunks + count ≤ (shown volume.old).store.chunk_room) }
    ensures { volume.new ≡ laid (on_store (with_chunks (take place (shown volume.old).store.chunks ++ (replicate count (read_chunk []) ++ drop place (shown volume.old).store.chunks))) (shown volume.old)) }
{
    if count == 0 {
        return;
    }
    let used = Tables {
        bytes: volume,
        layout,
    }
    .chunks_used();
    let base = layout.chunks;
    let at = base + volume::CHUNK_ROW * place;
    let new = volume::CHUNK_ROW * count;
    words::shift_up(volume, at, base + volume::CHUNK_ROW * used, new);
    words::clear(volume, at, new);
    words::put::<8>(volume, volume::CHUNKS_USED, (used + count) as u64);
}

// Takes rows out, from a place on, in one move.
pub fn remove_chunks(volume: &mut [u8], layout: Layout, place: usize, count: usize)
    requires { Ready volume.old layout × (place + count ≤ length (shown volume.old).store.chunks) }
    ensures { volume.new ≡ laid (on_store (with_chunks (take place (shown volume.old).store.chunks ++ drop (place + count) (shown volume.old).store.chunks)) (shown volume.old)) }
{
    if count == 0 {
        return;
    }
    let used = Tables {
        bytes: volume,
        layout,
    }
    .chunks_used();
    let base = layout.chunks;
    take_out(
        volume,
        base + volume::CHUNK_ROW * (place + count),
        base + volume::CHUNK_ROW * used,
        volume::CHUNK_ROW * count,
        volume::CHUNKS_USED,
        (used - count) as u64,
    );
}
