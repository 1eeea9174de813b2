// Rules of nodes by the entries that name them and those they hold, which were counted by the rows of the nodes.
ghost use Rattle.std.specs.Prelude.{◌≡◌, ◌≤◌, eqb};
ghost use Rattle.words.specs.Rules.{bit};
ghost use Rattle.volume.specs.Sound.{naming, entries_of};
ghost use Rattle.soundness.specs.NodeRules.{directory_good, node_good, nodes_good};
ghost use Rattle.soundness.specs.Counters.{Counts};

use tables::Tables;
use types::NodeRecord;

// As many counters as a table may have rows. There are two arrays of them, each told by itself (Counts).
pub const COUNTERS: usize = types::MOST_ROWS as usize;

// The root's number.
const ROOT: u64 = 0;

// The most entries that may name a directory.
const MOST_NAMES: u64 = 1;

// Whether a directory is named at most once, has no limit, and a size equal to its number of entries, which is 0 if it has no link.
#[tactic(auto, unfolding(words::specs::Rules::both, words::specs::Rules::either, crate::specs::NodeRules::directory_good))]
fn directory_good(named: u64, held: u64, row: NodeRecord) -> bool
    ensures { result ≡ directory_good named held row }
{
    named <= MOST_NAMES
        && row.limit.is_none()
        && row.size == held
        && (1 <= row.links || row.size == 0)
}

// 1 for the root, which has a link that no entry makes; else 0.
#[tactic(auto, unfolding(words::specs::Rules::bit))]
fn root_bit(node: u64) -> u64
    ensures { (result ≡ bit (eqb node 0)) × (result ≤ 1) }
{
    if node == ROOT {
        return 1;
    }
    0
}

// Whether the links are the entries that name the node, the size is within the file limit, and a directory is a good one.
#[tactic(auto, unfolding(words::specs::Rules::both, words::specs::Rules::pick, crate::specs::NodeRules::node_good))]
fn node_good(named: u64, held: u64, row: NodeRecord) -> bool
    requires { named ≤ 4096 }
    ensures { result ≡ node_good named held row }
{
    row.links == root_bit(row.node) + named
        && row.size <= types::file_limit(row.limit)
        && (!row.kind.is_directory() || directory_good(named, held, row))
}

// Whether every node's row agrees with the entries, which were counted.
pub fn nodes_good(tables: &Tables, named: &[u16; COUNTERS], held: &[u16; COUNTERS]) -> bool
    requires { Counts naming tables.now.names named.now × Counts entries_of tables.now.names held.now }
    ensures { result ≡ nodes_good tables.now.names.nodes tables.now.names.entries }
{
    let used = tables.nodes_used();
    (0..used).all(|i| node_good(named[i] as u64, held[i] as u64, tables.node_row(i)))
}
