// The whole check: the frame, then nodes and entries, the chunk store, and the owners of the chunks; each in the scope's order.
ghost use Rattle.std.specs.Prelude.{◌≡◌, ◌≤◌, ◌<◌};
ghost use Rattle.std.specs.Int.Count.{ones};
ghost use Rattle.words.specs.Tables.{Asc};
ghost use Rattle.volume.specs.Sound.{node_before};
ghost use Rattle.soundness.specs.Checked.{ordered, numbered, related, named, stored, good, place_if_sound};

use crate::entries::relate_entries;
use crate::frame::{is_formed, read_header};
use crate::names::names_once;
use crate::nodes::{COUNTERS, nodes_good};
use crate::order::{
    chunks_ascend, entries_ascend, entries_numbered, is_rooted, nodes_ascend, nodes_below_next,
};
use crate::owners::is_owned;
use crate::pointers::{next_fits, pointers_good};
use tables::Tables;
use types::Error;
use volume::Layout;

// Whether the rows of nodes and of entries strictly ascend.
#[tactic(auto, unfolding(words::specs::Rules::both, crate::specs::Checked::ordered))]
fn is_ordered(tables: &Tables) -> bool
    ensures { result ≡ ordered tables.now.names }
{
    nodes_ascend(tables) && entries_ascend(tables)
}

// Whether the next node, node 0, and the indexes, nodes and names of entries are as they must be.
#[tactic(auto, unfolding(words::specs::Rules::both, crate::specs::Checked::numbered))]
fn is_numbered(tables: &Tables) -> bool
    ensures { result ≡ numbered tables.now.names }
{
    nodes_below_next(tables) && is_rooted(tables) && entries_numbered(tables)
}

// Whether entries and the nodes they name agree. Node rows have to ascend: they are searched. The last counters are done with when the names
// are looked at, and their array holds the order of these.
#[tactic(auto, unfolding(words::specs::Rules::both, crate::specs::Checked::related))]
fn is_related(tables: &Tables) -> bool
    requires { Asc node_before tables.now.names.nodes }
    ensures { result ≡ related tables.now.names }
{
    let mut named = [0u16; COUNTERS];
    let mut held = [0u16; COUNTERS];
    relate_entries(tables, &mut named, &mut held)
        && nodes_good(tables, &named, &held)
        && names_once(tables, &mut held)
}

// Whether all rules of nodes and entries hold.
#[tactic(auto, using(crate::proofs::Checked::ordered_nodes), unfolding(words::specs::Rules::both, crate::specs::Checked::named))]
fn is_named(tables: &Tables) -> bool
    ensures { result ≡ named tables.now.names }
{
    is_ordered(tables) && is_numbered(tables) && is_related(tables)
}

// Whether the rules of the chunk store hold: the rows' order, word 3, and the pointers. The chunk size was read.
#[tactic(auto, using(crate::proofs::PointerRules::next_there), unfolding(words::specs::Rules::both, crate::specs::Checked::stored))]
fn is_stored(tables: &Tables, span: u64) -> bool
    requires { (span ≡ tables.now.store.allocator.chunk_size) × (0 < span) × (span ≤ 65536) × (ones span ≡ 1) }
    ensures { result ≡ stored tables.now.store }
{
    let next = tables.max_ptr();
    let area = tables.area_size() as u64;
    let chunks = tables.chunk_room() as u64;
    chunks_ascend(tables)
        && next_fits(span, next, area, chunks)
        && pointers_good(tables, span, next)
}

// Whether all rules of the tables hold.
#[tactic(auto, unfolding(words::specs::Rules::both, crate::specs::Checked::good))]
fn is_good(tables: &Tables) -> bool
    ensures { result ≡ good tables.now }
{
    let _ = &tables.layout;
    let span = tables.chunk_size();
    is_named(tables) && is_stored(tables, span) && is_owned(tables, span)
}

// Opens a memory, of any length and content: where its areas start, if it is a sound volume.
pub fn open(volume: &[u8]) -> Result<Layout, Error>
    ensures { result ≡ place_if_sound volume.now }
{
    let layout = read_header(volume).ok_or(Error::UnsoundMemory)?;
    if !is_formed(volume, layout) {
        return Err(Error::UnsoundMemory);
    }
    let tables = Tables {
        bytes: volume,
        layout,
    };
    if !is_good(&tables) {
        return Err(Error::UnsoundMemory);
    }
    Ok(layout)
}
