// Where the areas start, from the rooms of the tables and the length.
ghost use Rattle.std.specs.Prelude.{◌≡◌, ◌≤◌};
ghost use Rattle.types.specs.Sizes.{most_rows};
ghost use Rattle.volume.specs.Geometry.{roomy};
ghost use Rattle.volume.specs.Layouts.{layout_of, layout_in, place_of};
ghost use Rattle.volume.specs.Framed.{Headed};

use crate::{CHUNK_ROOM, CHUNK_ROW, ENTRY_ROOM, ENTRY_ROW, Layout, NODE_ROOM, NODE_ROW};

// The node rows stand behind the header's words, the allocator's first words, and a word for each chunk.
const FIRST_TABLE: usize = types::WORD * (types::HEADER_WORDS + types::ALLOCATOR_WORDS);

// Whether a table may have room for this many rows.
fn is_roomy(rows: u64) -> bool
    ensures { result ≡ roomy rows }
{
    if rows < 1 {
        return false;
    }
    rows <= types::MOST_ROWS
}

// Where each area starts, for tables with room for these numbers of rows.
fn starts(nodes: u64, entries: u64, chunks: u64) -> Layout
    requires { (nodes ≤ most_rows) × (entries ≤ most_rows) × (chunks ≤ most_rows) }
    ensures { result ≡ layout_of nodes entries chunks }
{
    let first = FIRST_TABLE + types::WORD * (chunks as usize);
    let second = first + NODE_ROW * (nodes as usize);
    let third = second + ENTRY_ROW * (entries as usize);
    Layout {
        nodes: first,
        entries: second,
        chunks: third,
        area: third + CHUNK_ROW * (chunks as usize),
    }
}

// Where the areas of a memory of this many bytes start: nowhere if a table's room is out of bounds or the memory too short.
pub fn place_tables(nodes: u64, entries: u64, chunks: u64, extent: u64) -> Option<Layout>
    ensures { result ≡ place_of nodes entries chunks extent }
{
    if !is_roomy(nodes) {
        return None;
    }
    if !is_roomy(entries) {
        return None;
    }
    if !is_roomy(chunks) {
        return None;
    }
    let layout = starts(nodes, entries, chunks);
    let area = layout.area as u64;
    if extent < area + types::LEAST_AREA {
        return None;
    }
    Some(layout)
}

// The areas of a volume whose header was checked.
pub fn read_layout(volume: &[u8]) -> Layout
    requires { Headed volume.now }
    ensures { result ≡ layout_in volume.now }
{
    starts(
        words::get::<8>(volume, NODE_ROOM),
        words::get::<8>(volume, ENTRY_ROOM),
        words::get::<8>(volume, CHUNK_ROOM),
    )
}
