// The volume's tables in lent bytes: where they stand, their rows, and a new volume.
#![tactic(auto)]

mod chunks;
mod entries;
mod fresh;
mod geometry;
mod kinds;
mod nodes;
mod pairs;

pub use chunks::{read_chunk, round_up, seek_chunk, write_chunk};
pub use entries::{
    NAME, entry_formed, entry_index, entry_name, entry_node, entry_parent, seek_entry, write_entry,
};
pub use fresh::new_volume;
pub use geometry::{place_tables, read_layout};
pub use nodes::{node_formed, read_node, seek_node, write_node};
pub use pairs::pair_before;

// The form that the bytes have.
pub const FORM: u64 = 1;

// Where the header's words stand: the rooms of the tables, the rows used, the next node.
pub const NODE_ROOM: usize = 8;

pub const ENTRY_ROOM: usize = 16;

pub const CHUNK_ROOM: usize = 24;

pub const NODES_USED: usize = 32;

pub const ENTRIES_USED: usize = 40;

pub const CHUNKS_USED: usize = 48;

pub const NEXT_NODE: usize = 56;

// Where the allocator's words start, behind the header.
pub const ALLOCATOR: usize = types::WORD * types::HEADER_WORDS;

// Bytes of a row of each table.
pub const NODE_ROW: usize = 40;

pub const ENTRY_ROW: usize = 280;

pub const CHUNK_ROW: usize = 24;

// A row of the chunk table: chunk index of node stands at pointer in the chunk area.
#[derive(Clone, Copy)]
pub struct ChunkRow {
    pub node: u64,
    pub index: u64,
    pub pointer: u64,
}

// Where each area starts.
#[derive(Clone, Copy)]
pub struct Layout {
    pub nodes: usize,
    pub entries: usize,
    pub chunks: usize,
    pub area: usize,
}
