// A node that has no name left: its chunks are freed, and its row goes.
ghost use Rattle.std.specs.Prelude.{◌≡◌};
ghost use Rattle.volume.specs.Volume.{shown, laid};
ghost use Rattle.volume.specs.Sound.{Good};
ghost use Rattle.tables.specs.Tables.{Ready};
ghost use Rattle.names.specs.Removing.{remove};

use tables::Tables;
use types::Error;
use volume::Layout;

// An index at or below that of every chunk.
const FIRST_INDEX: u64 = 0;

// Frees the chunks of a node that no entry names, in ascending order, and takes its row out.
pub fn remove(volume: &mut [u8], layout: Layout, node: u64) -> Result<u64, Error>
    requires { Ready volume.old layout × Good (shown volume.old) }
    ensures { (result ≡ (remove node (shown volume.old)).answer) × (volume.new ≡ laid (remove node (shown volume.old)).after) }
{
    let tables = Tables {
        bytes: volume,
        layout,
    };
    let place = tables.find_node(node).ok_or(Error::NoSuchEntry)?;
    let row = tables.node_row(place);
    if 0 < row.links {
        return Err(Error::Busy);
    }
    let first = tables.first_chunk(node, FIRST_INDEX);
    files::cut_rows(volume, layout, node, first);
    tables::remove_node(volume, layout, place);
    Ok(0)
}
