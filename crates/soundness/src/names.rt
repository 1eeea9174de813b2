// Names twice in a directory. The rows looked at are kept in an order of their names, by their numbers in a local array: a name that was
// there has its place there, which is found by halving. Any names cost the same: those of one directory, alike, in any order.
ghost use Rattle.std.specs.Prelude.{◌≡◌, true, false, not, ◌+◌, ◌≤◌, ◌<◌, length, get_or};
ghost use Rattle.tables.specs.Tables.{entry_at};
ghost use Rattle.soundness.specs.EntryRules.{same_name, name_new, names_once};
ghost use Rattle.soundness.specs.NameOrder.{name_before, InOrder, PlaceOf, PutIn};

use tables::Tables;

// As many places as a table may have rows.
const PLACES: usize = types::MOST_ROWS as usize;

// Whether entry row i stands before row j in the order of names.
fn name_before(tables: &Tables, i: usize, j: usize) -> bool
    requires { (i < length tables.now.names.entries) × (j < length tables.now.names.entries) }
    ensures { result ≡ name_before (entry_at tables.now.names.entries i) (entry_at tables.now.names.entries j) }
{
    let parent = tables.entry_parent(i);
    let other = tables.entry_parent(j);
    if parent != other {
        return parent < other;
    }
    words::ranks_below(tables.entry_name(i), tables.entry_name(j))
}

// Whether rows i and j have different names, or stand in different directories. If row i is not before row j then, it is behind it.
fn names_differ(tables: &Tables, i: usize, j: usize) -> bool
    requires { (i < length tables.now.names.entries) × (j < length tables.now.names.entries) }
    ensures { (result ≡ not (same_name (entry_at tables.now.names.entries i) (entry_at tables.now.names.entries j))) × (result ≡ true → name_before (entry_at tables.now.names.entries i) (entry_at tables.now.names.entries j) ≡ false → name_before (entry_at tables.now.names.entries j) (entry_at tables.now.names.entries i) ≡ true) }
{
    if tables.entry_parent(i) != tables.entry_parent(j) {
        return true;
    }
    let other = tables.entry_name(i);
    let name = tables.entry_name(j);
    !words::same(other, name)
}

// How many of the rows before row i stand before it in the order of names, by halving.
fn seek_name(tables: &Tables, order: &[u16; PLACES], i: usize) -> usize
    requires { (i < length tables.now.names.entries) × InOrder tables.now.names.entries order.now i }
    ensures { PlaceOf tables.now.names.entries order.now i result }
{
    let _ = &tables.layout;
    words::seek(i, |p| name_before(tables, order[p] as usize, i))
}

// Whether no row before row i has its name in its directory: it would stand at the place found.
fn name_new(tables: &Tables, order: &[u16; PLACES], place: usize, i: usize) -> bool
    requires { (i < length tables.now.names.entries) × InOrder tables.now.names.entries order.now i × PlaceOf tables.now.names.entries order.now i place }
    ensures { (result ≡ name_new tables.now.names.entries i) × (result ≡ true → place < i → name_before (entry_at tables.now.names.entries i) (entry_at tables.now.names.entries (get_or order.now place 0)) ≡ true) }
{
    let _ = &tables.layout;
    if i <= place {
        return true;
    }
    names_differ(tables, order[place] as usize, i)
}

// Puts row i in at a place of the order of the rows before it: those from there on move up by one.
fn put_in(order: &mut [u16; PLACES], place: usize, i: usize)
    requires { (place ≤ i) × (i < 4096) × (length order.old ≡ 4096) }
    ensures { PutIn order.old i place order.new }
{
    order.copy_within(place..i, place + 1);
    order[place] = i as u16;
}

// Puts row i in its place in the order, if its name is new.
fn place_name(tables: &Tables, order: &mut [u16; PLACES], i: usize) -> bool
    requires { (i < length tables.now.names.entries) × InOrder tables.now.names.entries order.old i }
    ensures { (result ≡ name_new tables.now.names.entries i) × (result ≡ true → InOrder tables.now.names.entries order.new (i + 1)) }
{
    let _ = &tables.layout;
    let place = seek_name(tables, order, i);
    if !name_new(tables, order, place, i) {
        return false;
    }
    put_in(order, place, i);
    true
}

// Whether no name stands twice in a directory. The array may hold anything: it is no longer needed for what it was.
pub fn names_once(tables: &Tables, order: &mut [u16; PLACES]) -> bool
    requires { length order.old ≡ 4096 }
    ensures { result ≡ names_once tables.now.names.entries }
{
    let used = tables.entries_used();
    for i in 0..used {
        if !place_name(tables, order, i) {
            return false;
        }
    }
    true
}
