// A new volume.
ghost use Rattle.std.specs.Prelude.{◌≡◌, length};
ghost use Rattle.types.specs.Outcomes.{outcome};
ghost use Rattle.volume.specs.Volume.{at_nodes};
ghost use Rattle.volume.specs.Framed.{Placed};
ghost use Rattle.volume.specs.Fresh.{root, new_volume, fresh_laid};

use crate::FORM;
use crate::geometry::place_tables;
use crate::nodes::write_node;
use types::{Error, FileType, NodeRecord};

// The number of the first node made behind node 0.
const FIRST_NODE: u64 = 1;

// Node 0, a directory that no entry names.
fn root() -> NodeRecord
    ensures { result ≡ root }
{
    NodeRecord {
        node: 0,
        kind: FileType::Directory,
        limit: None,
        links: 1,
        size: 0,
    }
}

// Lays a new volume out. The allocator's words follow the header's, so that the marker and the chunk size are written with them.
fn lay(volume: &mut [u8], nodes: u64, entries: u64, chunks: u64, span: u64, at: usize)
    requires { Placed nodes entries chunks (length volume.old) × (at ≡ at_nodes chunks) }
    ensures { volume.new ≡ fresh_laid nodes entries chunks span (length volume.old) }
{
    let whole = volume.len();
    words::clear(volume, 0, whole);
    let heads = [
        FORM,
        nodes,
        entries,
        chunks,
        1,
        0,
        0,
        FIRST_NODE,
        allocator::MARKER,
        span,
    ];
    words::put_words(volume, 0, &heads);
    write_node(volume, at, root());
}

// Makes a volume of all of a memory, whatever it held. Refused numbers change nothing.
pub fn new_volume(
    volume: &mut [u8],
    nodes: u64,
    entries: u64,
    chunks: u64,
    span: u64,
) -> Result<u64, Error>
    ensures { outcome result volume.new ≡ new_volume nodes entries chunks span volume.old }
{
    let layout = place_tables(nodes, entries, chunks, volume.len() as u64).ok_or(
        Error::InvalidArgument,
    )?;
    if !allocator::accepted(span) {
        return Err(Error::InvalidArgument);
    }
    lay(volume, nodes, entries, chunks, span, layout.nodes);
    Ok(0)
}
