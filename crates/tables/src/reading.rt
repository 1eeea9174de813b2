// What a volume that is laid out holds, read: numbers of its header, rows of its tables, the allocator's numbers, the chunk area.
#![tactic(auto, using(crate::proofs::ReadyVolume::inside))]

ghost use Rattle.std.specs.Prelude.{◌≡◌, ◌+◌, ◌*◌, ◌≤◌, ◌<◌, length};
ghost use Rattle.std.specs.Int.Count.{ones};
ghost use Rattle.words.specs.Tables.{lead, Asc};
ghost use Rattle.allocator.specs.Allocator.{read_allocator};
ghost use Rattle.allocator.specs.Words.{WordsFormed};
ghost use Rattle.volume.specs.Rows.{entry_row, name_start};
ghost use Rattle.volume.specs.Volume.{Volume, shown};
ghost use Rattle.volume.specs.Search.{entry_under, chunk_under};
ghost use Rattle.volume.specs.Sound.{node_before, entry_before, chunk_before};
ghost use Rattle.tables.specs.Tables.{Ready, layout_at, node_at, entry_at, chunk_at, found_node};

use std::marker::Model;
use types::NodeRecord;
use volume::{ChunkRow, Layout};

// A volume that is laid out, to be read: its bytes, and where its areas start.
#[derive(Drop)]
pub struct Tables<'a> {
    pub bytes: &'a [u8],
    pub layout: Layout,
}

impl<'a> Model for Tables<'a> {
    ghost Value = { Volume };

    ghost view = { λ t. shown t.bytes.now };

    ghost invariant = { λ t. Ready t.bytes.now t.layout };
}

impl<'a> Tables<'a> {
    // How many rows the node table has.
    pub fn nodes_used(&self) -> usize
        ensures { (result ≡ length self.now.names.nodes) × (result ≤ 4096) }
    {
        words::get::<8>(self.bytes, volume::NODES_USED) as usize
    }

    // How many rows the entry table has.
    pub fn entries_used(&self) -> usize
        ensures { (result ≡ length self.now.names.entries) × (result ≤ 4096) }
    {
        words::get::<8>(self.bytes, volume::ENTRIES_USED) as usize
    }

    // How many rows the chunk table has.
    pub fn chunks_used(&self) -> usize
        ensures { (result ≡ length self.now.store.chunks) × (result ≤ 4096) }
    {
        words::get::<8>(self.bytes, volume::CHUNKS_USED) as usize
    }

    // How many rows the node table has room for.
    pub fn node_room(&self) -> usize
        ensures { (result ≡ self.now.names.node_room) × (result ≤ 4096) }
    {
        words::get::<8>(self.bytes, volume::NODE_ROOM) as usize
    }

    // How many rows the entry table has room for.
    pub fn entry_room(&self) -> usize
        ensures { (result ≡ self.now.names.entry_room) × (result ≤ 4096) }
    {
        words::get::<8>(self.bytes, volume::ENTRY_ROOM) as usize
    }

    // How many rows the chunk table has room for.
    pub fn chunk_room(&self) -> usize
        ensures { (result ≡ self.now.store.chunk_room) × (result ≤ 4096) }
    {
        words::get::<8>(self.bytes, volume::CHUNK_ROOM) as usize
    }

    // The number that the next node made gets.
    pub fn next_node(&self) -> u64
        ensures { result ≡ self.now.names.next_node }
    {
        words::get::<8>(self.bytes, volume::NEXT_NODE)
    }

    // The node at a place.
    pub fn node_row(&self, place: usize) -> NodeRecord
        requires { place < length self.now.names.nodes }
        ensures { result ≡ node_at self.now.names.nodes place }
    {
        let base = self.layout.nodes;
        volume::read_node(self.bytes, base + volume::NODE_ROW * place)
    }

    // The number of the node at a place, read by itself.
    pub fn node_number(&self, place: usize) -> u64
        requires { place < length self.now.names.nodes }
        ensures { result ≡ (node_at self.now.names.nodes place).node }
    {
        let base = self.layout.nodes;
        words::get::<8>(self.bytes, base + volume::NODE_ROW * place)
    }

    // The row of a node, by halving.
    pub fn find_node(&self, node: u64) -> Option<usize>
        requires { Asc node_before self.now.names.nodes }
        ensures { result ≡ found_node node self.now.names.nodes }
    {
        let used = self.nodes_used();
        let base = self.layout.nodes;
        let place = volume::seek_node(self.bytes, base, used, node);
        if used <= place {
            return None;
        }
        if self.node_number(place) != node {
            return None;
        }
        Some(place)
    }

    // The parent of the entry at a place.
    pub fn entry_parent(&self, place: usize) -> u64
        requires { place < length self.now.names.entries }
        ensures { result ≡ (entry_at self.now.names.entries place).parent }
    {
        let base = self.layout.entries;
        volume::entry_parent(self.bytes, base + volume::ENTRY_ROW * place)
    }

    // The node that the entry at a place names.
    pub fn entry_node(&self, place: usize) -> u64
        requires { place < length self.now.names.entries }
        ensures { result ≡ (entry_at self.now.names.entries place).node }
    {
        let base = self.layout.entries;
        volume::entry_node(self.bytes, base + volume::ENTRY_ROW * place)
    }

    // The index of the entry at a place.
    pub fn entry_index(&self, place: usize) -> u64
        requires { place < length self.now.names.entries }
        ensures { (result ≡ (entry_at self.now.names.entries place).index) × (result < 4294967296) }
    {
        let base = self.layout.entries;
        volume::entry_index(self.bytes, base + volume::ENTRY_ROW * place)
    }

    // The name of the entry at a place, as a part of the volume.
    pub fn entry_name(&self, place: usize) -> &'a [u8]
        requires { place < length self.now.names.entries }
        ensures { result.now ≡ (entry_at self.now.names.entries place).name }
    {
        let base = self.layout.entries;
        volume::entry_name(self.bytes, base + volume::ENTRY_ROW * place)
    }

    // Where the name of the entry at a place starts in the volume.
    pub fn name_start(&self, place: usize) -> usize
        requires { place < length self.now.names.entries }
        ensures { result ≡ (layout_at self.now).entries + entry_row * place + name_start }
    {
        let base = self.layout.entries;
        base + volume::ENTRY_ROW * place + volume::NAME
    }

    // The first row at or above (parent, index).
    pub fn first_entry(&self, parent: u64, index: u64) -> usize
        requires { Asc entry_before self.now.names.entries }
        ensures { (result ≡ lead (entry_under parent index) self.now.names.entries) × (result ≤ length self.now.names.entries) }
    {
        let used = self.entries_used();
        let base = self.layout.entries;
        volume::seek_entry(self.bytes, base, used, parent, index)
    }

    // The chunk at a place.
    pub fn chunk_row(&self, place: usize) -> ChunkRow
        requires { place < length self.now.store.chunks }
        ensures { result ≡ chunk_at self.now.store.chunks place }
    {
        let base = self.layout.chunks;
        volume::read_chunk(self.bytes, base + volume::CHUNK_ROW * place)
    }

    // The first row at or above (node, index).
    pub fn first_chunk(&self, node: u64, index: u64) -> usize
        requires { Asc chunk_before self.now.store.chunks }
        ensures { (result ≡ lead (chunk_under node index) self.now.store.chunks) × (result ≤ length self.now.store.chunks) }
    {
        let used = self.chunks_used();
        let base = self.layout.chunks;
        volume::seek_chunk(self.bytes, base, used, node, index)
    }

    // The allocator's words.
    pub fn allocator_words(&self) -> &'a [u8]
        ensures { (read_allocator result.now ≡ self.now.store.allocator) × (length result.now ≡ 128 + 8 * self.now.store.chunk_room) × WordsFormed result.now }
    {
        let end = self.layout.nodes;
        &self.bytes[volume::ALLOCATOR..end]
    }

    // The chunk size, within the bounds that the invariant gives.
    pub fn chunk_size(&self) -> u64
        ensures { (result ≡ self.now.store.allocator.chunk_size) × (0 < result) × (result ≤ 65536) × (ones result ≡ 1) }
    {
        let _ = &self.layout;
        allocator::chunk_size(self.allocator_words())
    }

    // How many pointers are free: no more than the invariant allows.
    pub fn free_count(&self) -> u64
        ensures { (result ≡ self.now.store.allocator.free_count) × (result ≤ 4096) }
    {
        let _ = &self.layout;
        allocator::get_len(self.allocator_words())
    }

    // The number below which all pointers given out lie.
    pub fn max_ptr(&self) -> u64
        ensures { result ≡ self.now.store.allocator.next_ptr }
    {
        allocator::max_ptr(self.allocator_words())
    }

    // The chunk area.
    pub fn area(&self) -> &'a [u8]
        ensures { result.now ≡ self.now.store.bytes }
    {
        let start = self.layout.area;
        &self.bytes[start..]
    }

    // How many bytes the chunk area has.
    pub fn area_size(&self) -> usize
        ensures { result ≡ length self.now.store.bytes }
    {
        self.bytes.len() - self.layout.area
    }
}
