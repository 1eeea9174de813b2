// Rows of the chunk table.
ghost use Rattle.std.specs.Prelude.{◌≡◌, Bool, ◌≤◌, length, drop, ltb};
ghost use Rattle.words.specs.Rules.{both};
ghost use Rattle.words.specs.Tables.{lead};
ghost use Rattle.volume.specs.declared.ChunkRow.{ChunkRow};
ghost use Rattle.tables.specs.Tables.{chunk_at};
ghost use Rattle.tables.specs.OneRow.{is_chunk};

use tables::Tables;
use volume::ChunkRow;

// Whether a row is that of a node's chunk.
#[tactic(auto, unfolding(words::specs::Rules::both))]
fn is_chunk(row: ChunkRow, node: u64, index: u64) -> bool
    ensures { result ≡ is_chunk node index row }
{
    row.node == node && row.index == index
}

// Whether there is a row at a place of the chunk table, and it is that of a node's chunk.
#[tactic(auto, unfolding(words::specs::Rules::both))]
pub fn is_row(tables: &Tables, place: usize, node: u64, index: u64) -> bool
    ensures { result ≡ both (ltb place (length tables.now.store.chunks)) (is_chunk node index (chunk_at tables.now.store.chunks place)) }
{
    place < tables.chunks_used() && is_chunk(tables.chunk_row(place), node, index)
}

// How many rows pass a test, from the first place on, until one fails it.
pub fn count_leading<F: Fn(ChunkRow) -> bool>(tables: &Tables, first: usize, passes: F) -> usize
    requires inside { first ≤ length tables.now.store.chunks }
    requires asked { (row : ChunkRow) → F.pre passes row }
    ensures { (test : ChunkRow → Bool) → ((row : ChunkRow) (b : Bool) → F.post passes row b → b ≡ test row) → result ≡ lead test (drop first tables.now.store.chunks) }
{
    let used = tables.chunks_used();
    (first..used)
        .map(|i| tables.chunk_row(i))
        .take_while(|row| passes(*row))
        .count()
}
