// A node's row looked for near another one first: rows that follow one another often tell of one node, or of the next one.
ghost use Rattle.std.specs.Prelude.{◌≡◌, ◌≤◌, eqb, ltb, length};
ghost use Rattle.words.specs.Rules.{both};
ghost use Rattle.words.specs.Tables.{Asc};
ghost use Rattle.volume.specs.Sound.{node_before};
ghost use Rattle.tables.specs.Tables.{node_at, found_node};

use tables::Tables;

// Whether there is a row at a place of the node table, and it is that of a node.
#[tactic(auto, unfolding(words::specs::Rules::both))]
fn is_node(tables: &Tables, place: usize, node: u64) -> bool
    ensures { result ≡ both (ltb place (length tables.now.names.nodes)) (eqb (node_at tables.now.names.nodes place).node node) }
{
    place < tables.nodes_used() && tables.node_number(place) == node
}

// The row of a node: at a place, right behind it, or else by halving.
pub fn find_near(tables: &Tables, node: u64, place: usize) -> Option<usize>
    requires { Asc node_before tables.now.names.nodes × (place ≤ 4096) }
    ensures { result ≡ found_node node tables.now.names.nodes }
{
    if is_node(tables, place, node) {
        return Some(place);
    }
    if is_node(tables, place + 1, node) {
        return Some(place + 1);
    }
    tables.find_node(node)
}
