// Rules of chunk rows: whose chunk it is, and the zeros above the size.
ghost use Rattle.std.specs.Prelude.{◌≡◌, ℕ, ◌+◌, ◌≤◌, ◌<◌, length};
ghost use Rattle.std.specs.Int.Count.{ones};
ghost use Rattle.types.specs.Sizes.{most_size};
ghost use Rattle.volume.specs.Sound.{Named, Stored};
ghost use Rattle.soundness.specs.EntryRules.{is_found};
ghost use Rattle.soundness.specs.OwnerRules.{tail_zero, owned_by, row_owned, chunks_owned};

use crate::nearby::find_near;
use tables::Tables;
use types::NodeRecord;
use volume::ChunkRow;

// Whether the bytes of a chunk above the file's size are zero. Only a chunk that the size ends in has any.
#[tactic(auto, unfolding(words::specs::Rules::either, crate::specs::OwnerRules::tail_zero))]
fn tail_zero(tables: &Tables, span: u64, row: ChunkRow, size: u64) -> bool
    requires { (ones span ≡ 1) × (span ≤ 65536) × (row.pointer + span ≤ length tables.now.store.bytes) }
    ensures { result ≡ tail_zero span tables.now.store.bytes row size }
{
    if row.index < words::quotient(size, span) {
        return true;
    }
    let used = words::remainder(size, span);
    let area = tables.area();
    let from = (row.pointer + used) as usize;
    let rest = (span - used) as usize;
    words::is_zero(&area[from..from + rest])
}

// Whether the owner can have the chunk: it is no directory, its size reaches the index, and the bytes above the size are zero. Indexes are
// compared as u64: one may have any value.
#[tactic(auto, unfolding(words::specs::Rules::both, crate::specs::OwnerRules::owned_by))]
fn owned_by(tables: &Tables, span: u64, row: ChunkRow, owner: NodeRecord) -> bool
    requires { (ones span ≡ 1) × (span ≤ 65536) × (row.pointer + span ≤ length tables.now.store.bytes) × (owner.size ≤ most_size) }
    ensures { result ≡ owned_by span tables.now.store.bytes row owner }
{
    !owner.kind.is_directory()
        && row.index < volume::round_up(owner.size, span)
        && tail_zero(tables, span, row, owner.size)
}

// The row of the owner of the chunk in row i, if it can have it, looked for near another row first. The rules of both halves hold already:
// node rows ascend, and the chunk lies in the area.
fn find_owner(tables: &Tables, span: u64, i: usize, near: usize) -> Option<usize>
    requires { Named tables.now.names × Stored tables.now.store × (span ≡ tables.now.store.allocator.chunk_size) × (0 < span) × (span ≤ 65536) × (ones span ≡ 1) × (i < length tables.now.store.chunks) × (near ≤ 4096) }
    ensures { (is_found result ≡ row_owned tables.now.names tables.now.store i) × ((k : ℕ) → result ≡ Some k → k < 4096) }
{
    let _ = &tables.layout;
    let row = tables.chunk_row(i);
    let k = find_near(tables, row.node, near)?;
    let owner = tables.node_row(k);
    if !owned_by(tables, span, row, owner) {
        return None;
    }
    Some(k)
}

// Whether every chunk row has an owner that can have its chunk. Rows of one file follow one another.
pub fn is_owned(tables: &Tables, span: u64) -> bool
    requires { Named tables.now.names × Stored tables.now.store × (span ≡ tables.now.store.allocator.chunk_size) × (0 < span) × (span ≤ 65536) × (ones span ≡ 1) }
    ensures { result ≡ chunks_owned tables.now.names tables.now.store }
{
    let used = tables.chunks_used();
    let mut near = 0;
    for i in 0..used {
        let Some(owner) = find_owner(tables, span, i, near) else {
            return false;
        };
        near = owner;
    }
    true
}
