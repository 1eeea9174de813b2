// Resizing: a file extended, or cut with its last chunk zeroed from its new end on; a hole there stays a hole. One search serves a whole
// cut: it gives the place of the tail, the row of the chunk that the new end falls into, or where that row would be.
ghost use Rattle.std.specs.Prelude.{◌≡◌, ◌/◌, ◌≤◌, length};
ghost use Rattle.words.specs.Tables.{lead};
ghost use Rattle.volume.specs.Volume.{shown, laid, on_store};
ghost use Rattle.volume.specs.Search.{chunk_under};
ghost use Rattle.volume.specs.Sound.{round_up, Good};
ghost use Rattle.tables.specs.Tables.{Ready};
ghost use Rattle.store.specs.Cut.{tail_zeroed, shrunk};
ghost use Rattle.store.specs.Workable.{Workable};
ghost use Rattle.files.specs.FileRows.{IsSpan};
ghost use Rattle.files.specs.Resize.{resize};

use crate::chunks::clear_rest;
use crate::cutting::cut_rows;
use crate::files::find_file;
use crate::rows::is_row;
use tables::Tables;
use types::{Error, NodeRecord};
use volume::Layout;

// Zeroes a file from byte end to the end of its chunk, unless that is a hole.
fn zero_tail(volume: &mut [u8], layout: Layout, span: u64, node: u64, end: u64, tail: usize)
    requires { Ready volume.old layout × Workable (shown volume.old).store × (tail ≡ lead (chunk_under node (end / span)) (shown volume.old).store.chunks) × IsSpan (shown volume.old).store span }
    ensures { volume.new ≡ laid (on_store (tail_zeroed node end) (shown volume.old)) }
{
    let tables = Tables {
        bytes: volume,
        layout,
    };
    if !is_row(&tables, tail, node, end / span) {
        return;
    }
    let chunk = tables.chunk_row(tail);
    let from = (end % span) as usize;
    clear_rest(volume, layout, span, chunk.pointer, from);
}

// The place of the first row that a cut to byte end frees: at the tail, or behind it if the end lies inside its chunk.
fn first_cut(tables: &Tables, span: u64, node: u64, end: u64, tail: usize) -> usize
    requires { Workable tables.now.store × (tail ≡ lead (chunk_under node (end / span)) tables.now.store.chunks) × IsSpan tables.now.store span }
    ensures { (result ≡ lead (chunk_under node (round_up tables.now.store.allocator.chunk_size end)) tables.now.store.chunks) × (result ≤ length tables.now.store.chunks) }
{
    let _ = &tables.layout;
    if end % span == 0 {
        return tail;
    }
    if is_row(tables, tail, node, end / span) {
        return tail + 1;
    }
    tail
}

// Frees the chunks behind byte end, then zeroes the last one from there on.
fn resize_file_internal(volume: &mut [u8], layout: Layout, node: u64, end: u64)
    requires { Ready volume.old layout × Good (shown volume.old) }
    ensures { volume.new ≡ laid (on_store (shrunk node end) (shown volume.old)) }
{
    let tables = Tables {
        bytes: volume,
        layout,
    };
    let span = tables.chunk_size();
    let tail = tables.first_chunk(node, end / span);
    let first = first_cut(&tables, span, node, end, tail);
    cut_rows(volume, layout, node, first);
    zero_tail(volume, layout, span, node, end, tail);
}

// Gives a file another size. A file cut has zeros behind its end, which show if it is extended again.
pub fn resize_file(volume: &mut [u8], layout: Layout, node: u64, size: u64) -> Result<u64, Error>
    requires { Ready volume.old layout × Good (shown volume.old) }
    ensures { (result ≡ (resize node size (shown volume.old)).answer) × (volume.new ≡ laid (resize node size (shown volume.old)).after) }
{
    let tables = Tables {
        bytes: volume,
        layout,
    };
    let file = find_file(&tables, node)?;
    let row = file.row;
    if types::file_limit(row.limit) < size {
        return Err(Error::FileTooLarge);
    }
    if row.size <= size {
        tables::change_node(volume, layout, file.place, NodeRecord { size, ..row });
        return Ok(0);
    }
    resize_file_internal(volume, layout, node, size);
    tables::change_node(volume, layout, file.place, NodeRecord { size, ..row });
    Ok(0)
}
