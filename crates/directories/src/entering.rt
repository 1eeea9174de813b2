// A name put into a directory: of a new node, or of a node that is there.
ghost use Rattle.std.specs.Prelude.{◌≡◌, ◌≤◌, leb, length};
ghost use Rattle.words.specs.Tables.{Asc, lead};
ghost use Rattle.volume.specs.Volume.{shown, laid, on_names};
ghost use Rattle.volume.specs.Search.{entry_under};
ghost use Rattle.volume.specs.Sound.{Good, node_before, entry_before};
ghost use Rattle.volume.specs.Steps.{name_step};
ghost use Rattle.tables.specs.Tables.{Ready};
ghost use Rattle.names.specs.Entries.{greatest};
ghost use Rattle.names.specs.Entering.{most_index, with_entry, new_node, no_row_room, create, link};
ghost use Rattle.directories.specs.Spots.{parent_found, IsParent, past_indexes, new_spot, spot_found};
ghost use Rattle.names.specs.Enterable.{Enterable};

use crate::searching::find_entry;
use files::RowAt;
use tables::Tables;
use types::{Error, FileType, NodeRecord};
use volume::Layout;

// An index above that of every entry: a search for it finds the place behind a directory's last one.
const PAST_INDEXES: u64 = 4_294_967_296;

// u32::MAX: a directory that has an entry of this index takes no further one.
const MOST_INDEX: u64 = 4_294_967_295;

// Where the next node is this one, no further one is made.
const MOST_NODE: u64 = u64::MAX;

// Where a new entry goes, and its index.
#[derive(Clone, Copy)]
struct Spot {
    place: usize,
    index: u64,
}

// The row of a directory that has a link, for a name that is allowed.
fn find_parent(tables: &Tables, parent: u64, name: &[u8]) -> Result<RowAt, Error>
    requires { Asc node_before tables.now.names.nodes }
    ensures { result ≡ parent_found parent name.now tables.now.names.nodes }
{
    let place = tables.find_node(parent).ok_or(Error::NoSuchEntry)?;
    let row = tables.node_row(place);
    if row.links == 0 {
        return Err(Error::NoSuchEntry);
    }
    if !row.kind.is_directory() {
        return Err(Error::NotDirectory);
    }
    if !paths::name_allowed(name) {
        return Err(Error::BadName);
    }
    Ok(RowAt { place, row })
}

// The greatest index of a directory, whose last entry stands just before the place; 0 if it has none.
fn greatest_index(tables: &Tables, directory: u64, behind: usize) -> u64
    requires { Asc entry_before tables.now.names.entries × (behind ≡ lead (entry_under directory past_indexes) tables.now.names.entries) }
    ensures { (result ≡ greatest directory tables.now.names.entries) × (result ≤ most_index) }
{
    // A volume that is laid out has no index above 2^32 - 1.
    let _ = &tables.layout;
    match behind.checked_sub(1) {
        None => 0,
        Some(last) if tables.entry_parent(last) == directory => tables.entry_index(last),
        Some(_) => 0,
    }
}

// The spot of a new entry, if its name is new, there is room for it, and an index is left.
fn find_spot(tables: &Tables, directory: u64, name: &[u8], full: bool) -> Result<Spot, Error>
    requires { Asc entry_before tables.now.names.entries }
    ensures { result ≡ spot_found directory name.now full tables.now.names.entries }
{
    // A volume that is laid out has no index above 2^32 - 1.
    let _ = &tables.layout;
    if find_entry(tables, directory, name).is_some() {
        return Err(Error::NameExists);
    }
    if full {
        return Err(Error::NoRowRoom);
    }
    let place = tables.first_entry(directory, PAST_INDEXES);
    let index = greatest_index(tables, directory, place);
    if index == MOST_INDEX {
        return Err(Error::NoIndexLeft);
    }
    Ok(Spot {
        place,
        index: index + 1,
    })
}

// Puts an entry in at its spot, and raises the directory's size.
fn add_entry(
    volume: &mut [u8],
    layout: Layout,
    directory: RowAt,
    spot: Spot,
    node: u64,
    name: &[u8],
)
    requires { Ready volume.old layout × Good (shown volume.old) × IsParent directory.row.node (shown volume.old).names directory × Enterable directory.row.node name.now (shown volume.old).names × (spot ≡ new_spot directory.row.node (shown volume.old).names.entries) }
    ensures { volume.new ≡ laid (on_names (with_entry directory.row.node name.now node) (shown volume.old)) }
{
    let row = directory.row;
    tables::insert_entry(volume, layout, spot.place, row.node, node, spot.index, name);
    tables::change_node(
        volume,
        layout,
        directory.place,
        NodeRecord {
            size: row.size + 1,
            ..row
        },
    );
}

// Whether the entry table is full.
fn entries_full(tables: &Tables) -> bool
    ensures { result ≡ leb tables.now.names.entry_room (length tables.now.names.entries) }
{
    tables.entry_room() <= tables.entries_used()
}

// Whether a table that a new node needs is full, or no number is left for one.
fn nodes_full(tables: &Tables) -> bool
    ensures { result ≡ no_row_room tables.now.names }
{
    tables.node_room() <= tables.nodes_used()
        || entries_full(tables)
        || tables.next_node() == MOST_NODE
}

// A node without a limit and without bytes, named once.
fn new_node(node: u64, kind: FileType) -> NodeRecord
    ensures { result ≡ new_node node kind }
{
    NodeRecord {
        node,
        kind,
        limit: None,
        links: 1,
        size: 0,
    }
}

// Makes a node of a type, and names it in a directory. The type is a byte, since an unknown one is refused behind the parent and the name.
pub fn create(
    volume: &mut [u8],
    layout: Layout,
    parent: u64,
    name: &[u8],
    kind: u8,
) -> Result<u64, Error>
    requires { Ready volume.old layout × Good (shown volume.old) }
    ensures { (result ≡ (name_step (create parent name.now kind) (shown volume.old)).answer) × (volume.new ≡ laid (name_step (create parent name.now kind) (shown volume.old)).after) }
{
    let tables = Tables {
        bytes: volume,
        layout,
    };
    let directory = find_parent(&tables, parent, name)?;
    let file_type = FileType::try_from(kind)?;
    let full = nodes_full(&tables);
    let spot = find_spot(&tables, parent, name, full)?;
    let node = tables.next_node();
    add_entry(volume, layout, directory, spot, node, name);
    tables::append_node(volume, layout, new_node(node, file_type));
    tables::set_next_node(volume, layout, node + 1);
    Ok(node)
}

// Names a file in a directory once more.
pub fn link(
    volume: &mut [u8],
    layout: Layout,
    parent: u64,
    name: &[u8],
    target: u64,
) -> Result<u64, Error>
    requires { Ready volume.old layout × Good (shown volume.old) }
    ensures { (result ≡ (name_step (link parent name.now target) (shown volume.old)).answer) × (volume.new ≡ laid (name_step (link parent name.now target) (shown volume.old)).after) }
{
    let tables = Tables {
        bytes: volume,
        layout,
    };
    let directory = find_parent(&tables, parent, name)?;
    let file = files::find_file(&tables, target)?;
    let full = entries_full(&tables);
    let spot = find_spot(&tables, parent, name, full)?;
    add_entry(volume, layout, directory, spot, target, name);
    let row = file.row;
    tables::change_node(
        volume,
        layout,
        file.place,
        NodeRecord {
            links: row.links + 1,
            ..row
        },
    );
    Ok(0)
}
