// Rules of rows that look at one row, or at one and the next.
ghost use Rattle.std.specs.Prelude.{◌≡◌, ◌<◌, length};
ghost use Rattle.tables.specs.Tables.{entry_at};
ghost use Rattle.soundness.specs.OrderRules.{nodes_ascend, entries_ascend, chunks_ascend, entry_numbered, entries_numbered, nodes_below, rooted};

use tables::Tables;

// The root's number.
const ROOT: u64 = 0;

// The place of its row: rows ascend by number.
const ROOT_ROW: usize = 0;

// The least index that an entry has.
const LEAST_INDEX: u64 = 1;

// Whether the node rows strictly ascend by number.
pub fn nodes_ascend(tables: &Tables) -> bool
    ensures { result ≡ nodes_ascend tables.now.names.nodes }
{
    let used = tables.nodes_used();
    (0..used.saturating_sub(1)).all(|i| tables.node_number(i) < tables.node_number(i + 1))
}

// Whether the entry rows strictly ascend by parent and index.
pub fn entries_ascend(tables: &Tables) -> bool
    ensures { result ≡ entries_ascend tables.now.names.entries }
{
    let used = tables.entries_used();
    (0..used.saturating_sub(1)).all(|i| {
        volume::pair_before(
            tables.entry_parent(i),
            tables.entry_index(i),
            tables.entry_parent(i + 1),
            tables.entry_index(i + 1),
        )
    })
}

// Whether the chunk rows strictly ascend by node and index.
pub fn chunks_ascend(tables: &Tables) -> bool
    ensures { result ≡ chunks_ascend tables.now.store.chunks }
{
    let used = tables.chunks_used();
    (0..used.saturating_sub(1)).all(|i| {
        let here = tables.chunk_row(i);
        let next = tables.chunk_row(i + 1);
        volume::pair_before(here.node, here.index, next.node, next.index)
    })
}

// Whether next node exceeds every node.
pub fn nodes_below_next(tables: &Tables) -> bool
    ensures { result ≡ nodes_below tables.now.names.next_node tables.now.names.nodes }
{
    let used = tables.nodes_used();
    let next = tables.next_node();
    (0..used).all(|i| tables.node_number(i) < next)
}

// Whether the first node row is node 0, a directory.
#[tactic(auto, unfolding(words::specs::Rules::both, crate::specs::OrderRules::rooted))]
pub fn is_rooted(tables: &Tables) -> bool
    ensures { result ≡ rooted tables.now.names.nodes }
{
    ROOT_ROW < tables.nodes_used()
        && tables.node_number(ROOT_ROW) == ROOT
        && tables.node_row(ROOT_ROW).kind.is_directory()
}

// Whether the index, the node and the name of the entry in row i are as they must be.
#[tactic(auto, unfolding(words::specs::Rules::both, crate::specs::OrderRules::entry_numbered))]
fn entry_numbered(tables: &Tables, i: usize) -> bool
    requires { i < length tables.now.names.entries }
    ensures { result ≡ entry_numbered (entry_at tables.now.names.entries i) }
{
    LEAST_INDEX <= tables.entry_index(i)
        && tables.entry_node(i) != ROOT
        && paths::name_allowed(tables.entry_name(i))
}

// Whether every entry has an index from 1 on, does not name the root, and has a name that is allowed.
pub fn entries_numbered(tables: &Tables) -> bool
    ensures { result ≡ entries_numbered tables.now.names.entries }
{
    let used = tables.entries_used();
    (0..used).all(|i| entry_numbered(tables, i))
}
