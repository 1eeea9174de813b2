// A path's parts looked up one by one, from a node on.
ghost use Rattle.std.specs.Prelude.{◌≡◌, ◌+◌, ◌≤◌, ◌<◌, length, get_or};
ghost use Rattle.words.specs.Bytes.{part};
ghost use Rattle.words.specs.Tables.{Asc};
ghost use Rattle.types.specs.Sizes.{most_parts};
ghost use Rattle.paths.specs.Shown.{BoundsFit, shown_parts};
ghost use Rattle.volume.specs.Sound.{Named, node_before, entry_before};
ghost use Rattle.names.specs.Walks.{passes_as_directory, find_node};
ghost use Rattle.directories.specs.Reaches.{reach, reach_from, reach_directory, reach_path};

use crate::searching::find_entry;
use tables::Tables;
use types::{Error, FileType};

// The node that parts lead to, and the place of the entry that names it last (0 where there was no part).
#[derive(Clone, Copy)]
pub struct Reached {
    pub node: u64,
    pub place: usize,
}

// Where one part leads from a node.
fn reach(tables: &Tables, node: u64, part: &[u8]) -> Result<Reached, Error>
    requires { Asc entry_before tables.now.names.entries }
    ensures { result ≡ reach tables.now.names.entries node part.now }
{
    if types::MOST_NAME < part.len() {
        return Err(Error::BadName);
    }
    let place = find_entry(tables, node, part).ok_or(Error::NoSuchEntry)?;
    let node = tables.entry_node(place);
    Ok(Reached { node, place })
}

// Part i of a path, by its bounds.
fn part_at<'a>(
    path: &'a [u8],
    starts: &[u16; types::MOST_PARTS],
    lengths: &[u16; types::MOST_PARTS],
    i: usize,
) -> &'a [u8]
    requires { (i < most_parts) × (get_or starts.now i 0 + get_or lengths.now i 0 ≤ length path.now) }
    ensures { result.now ≡ part path.now (get_or starts.now i 0) (get_or lengths.now i 0) }
{
    let at = usize::from(starts[i]);
    let long = usize::from(lengths[i]);
    &path[at..at + long]
}

// Where the parts of a path lead from a start, which has to have a row.
fn reach_from(
    tables: &Tables,
    start: u64,
    path: &[u8],
    starts: &[u16; types::MOST_PARTS],
    lengths: &[u16; types::MOST_PARTS],
    count: usize,
) -> Result<Reached, Error>
    requires { Asc node_before tables.now.names.nodes × Asc entry_before tables.now.names.entries × BoundsFit path.now starts.now lengths.now count }
    ensures { result ≡ reach_from start tables.now.names (shown_parts path.now starts.now lengths.now count) }
{
    if tables.find_node(start).is_none() {
        return Err(Error::NoSuchEntry);
    }
    let mut reached = Reached {
        node: start,
        place: 0,
    };
    for i in 0..count {
        reached = reach(tables, reached.node, part_at(path, starts, lengths, i))?;
    }
    Ok(reached)
}

// Whether a path that means a directory may lead to such a node. A symbolic link is not followed, so it passes.
fn passes_as_directory(kind: FileType) -> bool
    ensures { result ≡ passes_as_directory kind }
{
    kind != FileType::RegularFile
}

// What was reached, where it has to pass as a directory.
fn as_directory(tables: &Tables, reached: Reached) -> Result<Reached, Error>
    requires { Asc node_before tables.now.names.nodes }
    ensures { result ≡ reach_directory tables.now.names (Ok reached) }
{
    let place = tables.find_node(reached.node).ok_or(Error::NoSuchEntry)?;
    let row = tables.node_row(place);
    if !passes_as_directory(row.kind) {
        return Err(Error::NotDirectory);
    }
    Ok(reached)
}

// Where a path leads from a start. It has to have at least so many parts.
pub fn reach_path(tables: &Tables, start: u64, path: &[u8], least: usize) -> Result<Reached, Error>
    requires { Named tables.now.names }
    ensures { result ≡ reach_path start path.now least tables.now.names }
{
    let mut starts = [0u16; types::MOST_PARTS];
    let mut lengths = [0u16; types::MOST_PARTS];
    let parts = paths::get_path_parts(path, &mut starts, &mut lengths)?;
    if parts.count < least {
        return Err(Error::PathNotPermitted);
    }
    let reached = reach_from(tables, start, path, &starts, &lengths, parts.count)?;
    if parts.opened {
        return as_directory(tables, reached);
    }
    Ok(reached)
}

// The node that a path leads to from a start: the start itself, where there is no part.
pub fn find_node(tables: &Tables, start: u64, path: &[u8]) -> Result<u64, Error>
    requires { Named tables.now.names }
    ensures { result ≡ find_node start path.now tables.now.names }
{
    Ok(reach_path(tables, start, path, 0)?.node)
}
