// A file's size limit set, to a number or none.
ghost use Rattle.std.specs.Prelude.{◌≡◌};
ghost use Rattle.volume.specs.Volume.{shown, laid};
ghost use Rattle.volume.specs.Sound.{Good};
ghost use Rattle.tables.specs.Tables.{Ready};
ghost use Rattle.files.specs.Limits.{set_limit};

use crate::files::find_file;
use tables::Tables;
use types::{Error, NodeRecord};
use volume::Layout;

// Sets a file's limit, or takes it away. A limit above 2^40 or below the file's size is refused.
pub fn set_limit(
    volume: &mut [u8],
    layout: Layout,
    node: u64,
    limit: Option<u64>,
) -> Result<u64, Error>
    requires { Ready volume.old layout × Good (shown volume.old) }
    ensures { (result ≡ (set_limit node limit (shown volume.old)).answer) × (volume.new ≡ laid (set_limit node limit (shown volume.old)).after) }
{
    let tables = Tables {
        bytes: volume,
        layout,
    };
    let file = find_file(&tables, node)?;
    let row = file.row;
    if types::MOST_SIZE < types::limit_word(limit) {
        return Err(Error::InvalidArgument);
    }
    if types::file_limit(limit) < row.size {
        return Err(Error::FileTooLarge);
    }
    tables::change_node(volume, layout, file.place, NodeRecord { limit, ..row });
    Ok(0)
}
