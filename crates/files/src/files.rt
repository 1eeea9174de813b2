// Which node is a file.
ghost use Rattle.std.specs.Prelude.{◌≡◌};
ghost use Rattle.volume.specs.Sound.{node_before};
ghost use Rattle.words.specs.Tables.{Asc};
ghost use Rattle.files.specs.FileRows.{file_found};

use tables::Tables;
use types::{Error, NodeRecord};

// A row of the node table, and its place in it.
#[derive(Clone, Copy)]
pub struct RowAt {
    pub place: usize,
    pub row: NodeRecord,
}

// The row of a node's file. A node without a row and a directory are refused.
pub fn find_file(tables: &Tables, node: u64) -> Result<RowAt, Error>
    requires { Asc node_before tables.now.names.nodes }
    ensures { result ≡ file_found node tables.now.names.nodes }
{
    let place = tables.find_node(node).ok_or(Error::NoSuchEntry)?;
    let row = tables.node_row(place);
    if row.kind.is_directory() {
        return Err(Error::IsDirectory);
    }
    Ok(RowAt { place, row })
}
