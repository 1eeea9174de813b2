// The public calls on names: nodes found, listed, made, named, and taken away.
ghost use Rattle.std.specs.Prelude.{◌≡◌};
ghost use Rattle.types.specs.Outcomes.{outcome};
ghost use Rattle.lentilraft.specs.Door.{find_node, next_entry, search, create, link, unlink, unlink_byte, remove};
ghost use Rattle.lentilraft.specs.EntryGiven.{GivesEntry, next_name};

use tables::Tables;
use types::{Error, Expected, Search};

// Where an entry's name stands in the volume, and what the entry says.
#[derive(Clone, Copy)]
pub struct NameAt {
    pub at: usize,
    pub long: usize,
    pub index: u32,
    pub node: u64,
}

// The node that a path leads to from a start.
pub fn find_node(volume: &[u8], start: u64, path: &[u8]) -> Result<u64, Error>
    ensures { result ≡ find_node start path.now volume.now }
{
    let tables = Tables {
        bytes: volume,
        layout: soundness::open(volume)?,
    };
    directories::find_node(&tables, start, path)
}

// The entry of a directory with the least index at or above one: its name as a part of the volume, and its index and node through lent
// places, as the number of the answer. A refusal gives an empty part and zeros: that is promised of the lent places (GivesEntry), so they stay.
pub fn next_entry<'a>(
    volume: &'a [u8],
    directory: u64,
    from: u32,
    number: &mut u32,
    index: &mut u32,
    node: &mut u64,
) -> &'a [u8]
    ensures { GivesEntry (next_entry directory from volume.now) result.now number.new index.new node.new }
{
    *index = 0;
    *node = 0;
    let layout = match soundness::open(volume) {
        Ok(layout) => layout,
        Err(error) => {
            *number = u32::from(error);
            return &volume[0..0];
        }
    };
    let tables = Tables {
        bytes: volume,
        layout,
    };
    let place = match directories::next_place(&tables, directory, from as u64) {
        Ok(place) => place,
        Err(error) => {
            *number = u32::from(error);
            return &volume[0..0];
        }
    };
    *number = 0;
    *index = tables.entry_index(place) as u32;
    *node = tables.entry_node(place);
    tables.entry_name(place)
}

// The same, by where the name stands in the volume.
pub fn next_name(volume: &[u8], directory: u64, from: u32) -> Result<NameAt, Error>
    ensures { result ≡ next_name directory from volume.now }
{
    let tables = Tables {
        bytes: volume,
        layout: soundness::open(volume)?,
    };
    let place = directories::next_place(&tables, directory, from as u64)?;
    let name = tables.entry_name(place);
    Ok(NameAt {
        at: tables.name_start(place),
        long: name.len(),
        index: tables.entry_index(place) as u32,
        node: tables.entry_node(place),
    })
}

// Searches a directory for a name from an index on, looking at no more than so many entries; answers the entry, that there is none, or the
// first index not looked at, and how many entries were looked at.
pub fn search(
    volume: &[u8],
    directory: u64,
    name: &[u8],
    from: u32,
    most: u64,
) -> Result<Search, Error>
    ensures { result ≡ search directory name.now from most volume.now }
{
    let tables = Tables {
        bytes: volume,
        layout: soundness::open(volume)?,
    };
    directories::search(&tables, directory, name, from as u64, most)
}

// Makes a node of a type and names it in a directory; answers the node. The type is a byte, since what it may not be is refused only behind
// what the parent and the name may not be.
pub fn create(volume: &mut [u8], parent: u64, name: &[u8], kind: u8) -> Result<u64, Error>
    ensures { outcome result volume.new ≡ create parent name.now kind volume.old }
{
    let layout = soundness::open(volume)?;
    directories::create(volume, layout, parent, name, kind)
}

// Names a file in a directory once more.
pub fn link(volume: &mut [u8], parent: u64, name: &[u8], target: u64) -> Result<u64, Error>
    ensures { outcome result volume.new ≡ link parent name.now target volume.old }
{
    let layout = soundness::open(volume)?;
    directories::link(volume, layout, parent, name, target)
}

// Takes the name that a path leads to out of its directory; answers the node, which stays with its bytes.
pub fn unlink(
    volume: &mut [u8],
    start: u64,
    path: &[u8],
    expected: Expected,
    opens: u64,
) -> Result<u64, Error>
    ensures { outcome result volume.new ≡ unlink start path.now expected opens volume.old }
{
    let layout = soundness::open(volume)?;
    directories::unlink(volume, layout, start, path, expected, opens)
}

// The same, with the kind that is expected as a byte: any other is refused, but behind a memory that is not sound.
pub fn unlink_byte(
    volume: &mut [u8],
    start: u64,
    path: &[u8],
    byte: u8,
    opens: u64,
) -> Result<u64, Error>
    ensures { outcome result volume.new ≡ unlink_byte start path.now byte opens volume.old }
{
    let layout = soundness::open(volume)?;
    let expected = Expected::try_from(byte)?;
    directories::unlink(volume, layout, start, path, expected, opens)
}

// Frees the chunks of a node that has no name left, and takes it away.
pub fn remove(volume: &mut [u8], node: u64) -> Result<u64, Error>
    ensures { outcome result volume.new ≡ remove node volume.old }
{
    let layout = soundness::open(volume)?;
    directories::remove(volume, layout, node)
}
