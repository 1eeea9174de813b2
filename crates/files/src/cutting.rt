// Freeing the chunks of a file: its rows follow one another in the table.
ghost use Rattle.std.specs.Prelude.{◌≡◌, map, ℕ, ◌+◌, ◌≤◌, ◌<◌, length, take, drop};
ghost use Rattle.words.specs.Tables.{lead};
ghost use Rattle.allocator.specs.Allocator.{release, released};
ghost use Rattle.volume.specs.Search.{chunk_under};
ghost use Rattle.volume.specs.Volume.{shown, laid, with_allocator, on_store};
ghost use Rattle.tables.specs.Tables.{Ready, chunk_at};
ghost use Rattle.store.specs.Cut.{cut_from};
ghost use Rattle.store.specs.Workable.{Workable};

use crate::rows::count_leading;
use tables::Tables;
use volume::Layout;

// Frees the chunk of the row at a place.
fn free_row(volume: &mut [u8], layout: Layout, place: usize)
    requires { Ready volume.old layout × (place < length (shown volume.old).store.chunks) × ((shown volume.old).store.allocator.free_count < (shown volume.old).store.chunk_room) }
    ensures { volume.new ≡ laid (on_store (with_allocator (release (chunk_at (shown volume.old).store.chunks place).pointer (shown volume.old).store.allocator)) (shown volume.old)) }
{
    let tables = Tables {
        bytes: volume,
        layout,
    };
    let row = tables.chunk_row(place);
    tables::free(volume, layout, row.pointer);
}

// Frees the chunks of n rows, from the first place on, in the rows' order.
fn free_rows(volume: &mut [u8], layout: Layout, first: usize, n: usize)
    requires { Ready volume.old layout × (first + n ≤ length (shown volume.old).store.chunks) × ((shown volume.old).store.allocator.free_count + n ≤ (shown volume.old).store.chunk_room) }
    ensures { volume.new ≡ laid (on_store (with_allocator (released (map (λ c. c.pointer) (take n (drop first (shown volume.old).store.chunks))) (shown volume.old).store.allocator)) (shown volume.old)) }
{
    for i in 0..n {
        free_row(volume, layout, first + i);
    }
}

// Frees the chunks of a node's rows from the first place on, in ascending order, and takes the rows out in one move. Where that is the
// place of an index, the node has no chunk from that index on.
pub fn cut_rows(volume: &mut [u8], layout: Layout, node: u64, first: usize)
    requires { Ready volume.old layout × Workable (shown volume.old).store × (first ≤ length (shown volume.old).store.chunks) }
    ensures { (index : ℕ) → first ≡ lead (chunk_under node index) (shown volume.old).store.chunks → volume.new ≡ laid (on_store (cut_from node index) (shown volume.old)) }
{
    let tables = Tables {
        bytes: volume,
        layout,
    };
    let n = count_leading(&tables, first, |row| row.node == node);
    free_rows(volume, layout, first, n);
    tables::remove_chunks(volume, layout, first, n);
}
