// A name looked for among the entries of a directory. They stand together in the table, in index order.
ghost use Rattle.std.specs.Prelude.{◌≡◌, ◌+◌, ◌≤◌, ◌<◌, min, length};
ghost use Rattle.words.specs.Rules.{same};
ghost use Rattle.words.specs.Tables.{Asc};
ghost use Rattle.volume.specs.Sound.{Named, entry_before};
ghost use Rattle.tables.specs.Tables.{entry_at};
ghost use Rattle.names.specs.Searching.{search};
ghost use Rattle.directories.specs.Searches.{entry_found, searched};

use crate::listing::{directory_there, entry_there};
use tables::Tables;
use types::{Error, Search};

// An index below that of every entry: a search from it on starts at the first entry of a directory.
const NO_INDEX: u64 = 0;

// The place of the entry that has a name; that none has it; or the place of the first entry that was not looked at. Each with how many were
// looked at, the one that has the name included.
#[derive(Clone, Copy)]
pub enum Searched {
    At(usize, usize),
    Absent(usize),
    Stopped(usize, usize),
}

// Whether the entry at a place has a name.
fn has_name(tables: &Tables, place: usize, name: &[u8]) -> bool
    requires { place < length tables.now.names.entries }
    ensures { result ≡ same (entry_at tables.now.names.entries place).name name.now }
{
    words::same(tables.entry_name(place), name)
}

// The end of the places that may be looked at: no more than so many from the first on.
fn looked_end(first: usize, used: usize, most: u64) -> usize
    requires { first ≤ used }
    ensures { result ≡ min (first + most) used }
{
    first + most.min((used - first) as u64) as usize
}

// The entries of a directory from an index on looked through for a name, no more than so many of them: the first is found by halving, and the
// others follow it.
fn search_from(tables: &Tables, directory: u64, name: &[u8], from: u64, most: u64) -> Searched
    requires { Asc entry_before tables.now.names.entries }
    ensures { result ≡ searched directory name.now from most tables.now.names.entries }
{
    let used = tables.entries_used();
    let first = tables.first_entry(directory, from);
    let end = looked_end(first, used, most);
    for place in first..end {
        if tables.entry_parent(place) != directory {
            return Searched::Absent(place - first);
        }
        if has_name(tables, place, name) {
            return Searched::At(place, place - first + 1);
        }
    }
    if entry_there(tables, directory, end) {
        return Searched::Stopped(end, end - first);
    }
    Searched::Absent(end - first)
}

// The place of the entry of a directory that has a name. The search may look at every row of the table.
pub fn find_entry(tables: &Tables, directory: u64, name: &[u8]) -> Option<usize>
    requires { Asc entry_before tables.now.names.entries }
    ensures { result ≡ entry_found directory name.now tables.now.names.entries }
{
    let rows = tables.entries_used() as u64;
    match search_from(tables, directory, name, NO_INDEX, rows) {
        Searched::At(place, _) => Some(place),
        Searched::Absent(_) | Searched::Stopped(_, _) => None,
    }
}

// Searches a directory for a name from an index on, looking at no more than so many entries.
pub fn search(
    tables: &Tables,
    directory: u64,
    name: &[u8],
    from: u64,
    most: u64,
) -> Result<Search, Error>
    requires { Named tables.now.names }
    ensures { result ≡ search directory name.now from most tables.now.names }
{
    directory_there(tables, directory)?;
    if !paths::name_allowed(name) {
        return Err(Error::BadName);
    }
    Ok(match search_from(tables, directory, name, from, most) {
        Searched::At(place, looked) => Search::Found(
            tables.entry_index(place) as u32,
            tables.entry_node(place),
            looked as u64,
        ),
        Searched::Absent(looked) => Search::Absent(looked as u64),
        Searched::Stopped(place, looked) => Search::Stopped(
            tables.entry_index(place) as u32,
            looked as u64,
        ),
    })
}
