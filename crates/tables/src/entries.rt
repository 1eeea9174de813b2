// The entry table, changed. Its rows ascend by (parent, index).
ghost use Rattle.std.specs.Prelude.{◌≡◌, ◌≤◌, ◌<◌, length};
ghost use Rattle.words.specs.Tables.{insert_at, remove_at};
ghost use Rattle.types.specs.Sizes.{most_name};
ghost use Rattle.volume.specs.Volume.{shown, laid, with_entries, on_names};
ghost use Rattle.tables.specs.Tables.{Ready};

use crate::reading::Tables;
use crate::rows::take_out;
use volume::Layout;

// Puts an entry in before the row at a place.
pub fn insert_entry(
    volume: &mut [u8],
    layout: Layout,
    place: usize,
    parent: u64,
    node: u64,
    index: u64,
    name: &[u8],
)
    requires { Ready volume.old layout × (place ≤ length (shown volume.old).names.entries) × (length (shown volume.old).names.entries < (shown volume.old).names.entry_room) × (length name.now ≤ most_name) }
    ensures { volume.new ≡ laid (on_names (with_entries (insert_at place (record { parent = parent; node = node; index = index; name = name.now }) (shown volume.old).names.entries)) (shown volume.old)) }
{
    let used = Tables {
        bytes: volume,
        layout,
    }
    .entries_used();
    let base = layout.entries;
    let at = base + volume::ENTRY_ROW * place;
    let end = base + volume::ENTRY_ROW * used;
    words::shift_up(volume, at, end, volume::ENTRY_ROW);
    volume::write_entry(volume, at, parent, node, index, name);
    words::put::<8>(volume, volume::ENTRIES_USED, used as u64 + 1);
}

// Takes the row at a place out.
pub fn remove_entry(volume: &mut [u8], layout: Layout, place: usize)
    requires { Ready volume.old layout × (place < length (shown volume.old).names.entries) }
    ensures { volume.new ≡ laid (on_names (with_entries (remove_at place (shown volume.old).names.entries)) (shown volume.old)) }
{
    let used = Tables {
        bytes: volume,
        layout,
    }
    .entries_used();
    let base = layout.entries;
    take_out(
        volume,
        base + volume::ENTRY_ROW * (place + 1),
        base + volume::ENTRY_ROW * used,
        volume::ENTRY_ROW,
        volume::ENTRIES_USED,
        used as u64 - 1,
    );
}
