// The node table, changed. Its rows ascend by node.
ghost use Rattle.std.specs.Prelude.{◌≡◌, [], ◌∷◌, ◌++◌, ◌<◌, length, set};
ghost use Rattle.words.specs.Tables.{remove_at};
ghost use Rattle.volume.specs.Volume.{shown, laid, with_nodes, on_names};
ghost use Rattle.tables.specs.Tables.{Ready};

use crate::reading::Tables;
use crate::rows::take_out;
use types::NodeRecord;
use volume::Layout;

// Writes another row over the one at a place.
pub fn change_node(volume: &mut [u8], layout: Layout, place: usize, row: NodeRecord)
    requires { Ready volume.old layout × (place < length (shown volume.old).names.nodes) }
    ensures { volume.new ≡ laid (on_names (with_nodes (set (shown volume.old).names.nodes place row)) (shown volume.old)) }
{
    let base = layout.nodes;
    volume::write_node(volume, base + volume::NODE_ROW * place, row);
}

// Puts a row behind the others: a node made last has the greatest number.
pub fn append_node(volume: &mut [u8], layout: Layout, row: NodeRecord)
    requires { Ready volume.old layout × (length (shown volume.old).names.nodes < (shown volume.old).names.node_room) }
    ensures { volume.new ≡ laid (on_names (with_nodes ((shown volume.old).names.nodes ++ (row ∷ []))) (shown volume.old)) }
{
    let used = Tables {
        bytes: volume,
        layout,
    }
    .nodes_used();
    let base = layout.nodes;
    volume::write_node(volume, base + volume::NODE_ROW * used, row);
    words::put::<8>(volume, volume::NODES_USED, used as u64 + 1);
}

// Takes the row at a place out.
pub fn remove_node(volume: &mut [u8], layout: Layout, place: usize)
    requires { Ready volume.old layout × (place < length (shown volume.old).names.nodes) }
    ensures { volume.new ≡ laid (on_names (with_nodes (remove_at place (shown volume.old).names.nodes)) (shown volume.old)) }
{
    let used = Tables {
        bytes: volume,
        layout,
    }
    .nodes_used();
    let base = layout.nodes;
    take_out(
        volume,
        base + volume::NODE_ROW * (place + 1),
        base + volume::NODE_ROW * used,
        volume::NODE_ROW,
        volume::NODES_USED,
        used as u64 - 1,
    );
}
