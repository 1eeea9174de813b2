// The entries of a directory one by one, in index order.
ghost use Rattle.std.specs.Prelude.{◌≡◌};
ghost use Rattle.words.specs.Tables.{Asc};
ghost use Rattle.volume.specs.Sound.{node_before, entry_before};
ghost use Rattle.directories.specs.Searches.{directory_there, entry_there, next_place};

use tables::Tables;
use types::Error;

// Whether a node is there and is a directory: nothing to tell, or why not.
pub fn directory_there(tables: &Tables, directory: u64) -> Result<(), Error>
    requires { Asc node_before tables.now.names.nodes }
    ensures { result ≡ directory_there directory tables.now.names }
{
    let place = tables.find_node(directory).ok_or(Error::NoSuchEntry)?;
    let row = tables.node_row(place);
    if !row.kind.is_directory() {
        return Err(Error::NotDirectory);
    }
    Ok(())
}

// Whether there is an entry at a place, and it is the directory's.
pub fn entry_there(tables: &Tables, directory: u64, place: usize) -> bool
    ensures { result ≡ entry_there directory tables.now.names.entries place }
{
    place < tables.entries_used() && tables.entry_parent(place) == directory
}

// The place of a directory's first entry at or above an index.
pub fn next_place(tables: &Tables, directory: u64, from: u64) -> Result<usize, Error>
    requires { Asc node_before tables.now.names.nodes × Asc entry_before tables.now.names.entries }
    ensures { result ≡ next_place directory from tables.now.names }
{
    directory_there(tables, directory)?;
    let place = tables.first_entry(directory, from);
    if !entry_there(tables, directory, place) {
        return Err(Error::NoSuchEntry);
    }
    Ok(place)
}
