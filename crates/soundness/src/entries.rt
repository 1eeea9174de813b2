// Rules between entries and the nodes they name: one pass, which also counts for each node how many entries name it and how many it holds.
ghost use Rattle.std.specs.Prelude.{◌≡◌, true, ℕ, ◌+◌, ◌≤◌, ◌<◌, get_or, set, replicate};
ghost use Rattle.words.specs.Tables.{Asc};
ghost use Rattle.volume.specs.Sound.{naming, entries_of, node_before};
ghost use Rattle.tables.specs.Tables.{found_node};
ghost use Rattle.soundness.specs.EntryRules.{is_found, found_directory, entries_related};
ghost use Rattle.soundness.specs.Counters.{Counts};

use crate::nearby::find_near;
use crate::nodes::COUNTERS;
use tables::Tables;

// The row of a directory, if the node is one, looked for near another row first.
fn find_directory(tables: &Tables, node: u64, near: usize) -> Option<usize>
    requires { Asc node_before tables.now.names.nodes × (near ≤ 4096) }
    ensures { (is_found result ≡ found_directory tables.now.names.nodes (found_node node tables.now.names.nodes)) × ((k : ℕ) → result ≡ Some k → Some k ≡ found_node node tables.now.names.nodes) }
{
    let k = find_near(tables, node, near)?;
    if !tables.node_row(k).kind.is_directory() {
        return None;
    }
    Some(k)
}

// Adds one to the counter of a row.
fn bump(counts: &mut [u16; COUNTERS], row: usize)
    requires { (row < 4096) × (get_or counts.old row 0 ≤ 4096) }
    ensures { counts.new ≡ set counts.old row (get_or counts.old row 0 + 1) }
{
    counts[row] += 1;
}

// Whether every entry's parent is a directory and its node has a row. Counts, by the rows of the nodes, the entries that name each and those
// that each holds. Entries of one directory follow one another, and nodes often come in the order of their entries.
pub fn relate_entries(
    tables: &Tables,
    named: &mut [u16; COUNTERS],
    held: &mut [u16; COUNTERS],
) -> bool
    requires { Asc node_before tables.now.names.nodes × (named.old ≡ replicate 4096 0) × (held.old ≡ replicate 4096 0) }
    ensures { (result ≡ entries_related tables.now.names.nodes tables.now.names.entries) × (result ≡ true → Counts naming tables.now.names named.new × Counts entries_of tables.now.names held.new) }
{
    let _ = &tables.layout;
    let used = tables.entries_used();
    let mut directory = 0;
    let mut target = 0;
    for i in 0..used {
        let parent = tables.entry_parent(i);
        let Some(holder) = find_directory(tables, parent, directory) else {
            return false;
        };
        let node = tables.entry_node(i);
        let Some(row) = find_near(tables, node, target) else {
            return false;
        };
        bump(held, holder);
        bump(named, row);
        directory = holder;
        target = row;
    }
    true
}
