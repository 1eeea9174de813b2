// A name taken out of its directory. The node and its bytes stay.
ghost use Rattle.std.specs.Prelude.{◌≡◌, ◌<◌, length};
ghost use Rattle.volume.specs.Volume.{shown, laid, on_names};
ghost use Rattle.volume.specs.Sound.{Good};
ghost use Rattle.volume.specs.Steps.{name_step};
ghost use Rattle.tables.specs.Tables.{Ready, entry_at};
ghost use Rattle.names.specs.Unlinking.{wants_file, wants_directory, unlinked, unlink};
ghost use Rattle.directories.specs.Verdicts.{open_verdict, directory_verdict, verdict, Leaves, unlink_at};

use crate::finding::reach_path;
use files::RowAt;
use tables::Tables;
use types::{Error, Expected, NodeRecord};
use volume::Layout;

// The links of a node that has one name.
const ONE_NAME: u64 = 1;

// Whether the name is expected to be a file's.
fn wants_file(expected: Expected) -> bool
    ensures { result ≡ wants_file expected }
{
    expected == Expected::File
}

// Whether the name is expected to be a directory's.
fn wants_directory(expected: Expected) -> bool
    ensures { result ≡ wants_directory expected }
{
    expected == Expected::Directory
}

// A node that is open keeps its last name.
fn judge_open(row: NodeRecord, opens: u64) -> Result<(), Error>
    ensures { result ≡ open_verdict opens row }
{
    if opens != 0 && row.links == ONE_NAME {
        return Err(Error::Busy);
    }
    Ok(())
}

// A directory that is expected to be a file, or has entries, keeps its name.
fn judge_directory(row: NodeRecord, expected: Expected, opens: u64) -> Result<(), Error>
    ensures { result ≡ directory_verdict expected opens row }
{
    if wants_file(expected) {
        return Err(Error::IsDirectory);
    }
    if 0 < row.size {
        return Err(Error::DirectoryNotEmpty);
    }
    judge_open(row, opens)
}

// Whether an entry may go, by the row of the node that it names.
fn judge(row: NodeRecord, expected: Expected, opens: u64) -> Result<(), Error>
    ensures { result ≡ verdict expected opens row }
{
    if row.kind.is_directory() {
        return judge_directory(row, expected, opens);
    }
    if wants_directory(expected) {
        return Err(Error::NotDirectory);
    }
    judge_open(row, opens)
}

// Takes the entry at a place out: its node's links and its directory's size fall by one. A directory that has an entry has a row.
fn take_entry(volume: &mut [u8], layout: Layout, place: usize, target: RowAt)
    requires { Ready volume.old layout × Good (shown volume.old) × Leaves (shown volume.old).names place target }
    ensures { volume.new ≡ laid (on_names (unlinked (entry_at (shown volume.old).names.entries place)) (shown volume.old)) }
{
    let tables = Tables {
        bytes: volume,
        layout,
    };
    let parent = tables.entry_parent(place);
    let above = tables.find_node(parent).unwrap();
    let holder = tables.node_row(above);
    let row = target.row;
    tables::remove_entry(volume, layout, place);
    tables::change_node(
        volume,
        layout,
        target.place,
        NodeRecord {
            links: row.links - 1,
            ..row
        },
    );
    tables::change_node(
        volume,
        layout,
        above,
        NodeRecord {
            size: holder.size - 1,
            ..holder
        },
    );
}

// Takes the entry at a place out, if it may go. Gives the node that it named.
fn unlink_at(
    volume: &mut [u8],
    layout: Layout,
    place: usize,
    expected: Expected,
    opens: u64,
) -> Result<u64, Error>
    requires { Ready volume.old layout × Good (shown volume.old) × (place < length (shown volume.old).names.entries) }
    ensures { (result ≡ (name_step (unlink_at place expected opens) (shown volume.old)).answer) × (volume.new ≡ laid (name_step (unlink_at place expected opens) (shown volume.old)).after) }
{
    let tables = Tables {
        bytes: volume,
        layout,
    };
    let node = tables.entry_node(place);
    let found = tables.find_node(node).ok_or(Error::NoSuchEntry)?;
    let row = tables.node_row(found);
    judge(row, expected, opens)?;
    take_entry(volume, layout, place, RowAt { place: found, row });
    Ok(node)
}

// Takes the name that a path leads to from a start out of its directory; a path with no part leads to none. Gives the node that it named.
pub fn unlink(
    volume: &mut [u8],
    layout: Layout,
    start: u64,
    path: &[u8],
    expected: Expected,
    opens: u64,
) -> Result<u64, Error>
    requires { Ready volume.old layout × Good (shown volume.old) }
    ensures { (result ≡ (name_step (unlink start path.now expected opens) (shown volume.old)).answer) × (volume.new ≡ laid (name_step (unlink start path.now expected opens) (shown volume.old)).after) }
{
    let tables = Tables {
        bytes: volume,
        layout,
    };
    let reached = reach_path(&tables, start, path, 1)?;
    unlink_at(volume, layout, reached.place, expected, opens)
}
