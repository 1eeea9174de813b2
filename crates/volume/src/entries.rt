// Rows of the entry table. A name stands in the volume: it is lent, and never copied out.
ghost use Rattle.std.specs.Prelude.{◌≡◌, ◌+◌, ◌*◌, ◌≤◌, ◌<◌, length};
ghost use Rattle.words.specs.Bytes.{part, over, num};
ghost use Rattle.words.specs.Tables.{table, lead};
ghost use Rattle.words.specs.Tests.{Falls};
ghost use Rattle.types.specs.Sizes.{name_room};
ghost use Rattle.volume.specs.Rows.{lay_entry, read_entry, entry_row};
ghost use Rattle.volume.specs.RowTests.{entry_formed};
ghost use Rattle.volume.specs.Search.{entry_under};

use crate::ENTRY_ROW;
use crate::pairs::pair_before;

// Where the fields of a row start, behind its parent: node, index, the name's length, the name.
const NODE: usize = 8;

const INDEX: usize = 16;

const NAME_SIZE: usize = 20;

pub const NAME: usize = 24;

// The parent in the row that starts at index at.
pub fn entry_parent(volume: &[u8], at: usize) -> u64
    requires { at + entry_row ≤ length volume.now }
    ensures { result ≡ (read_entry (part volume.now at entry_row)).parent }
{
    words::get::<8>(volume, at)
}

// The node in the row that starts at index at.
pub fn entry_node(volume: &[u8], at: usize) -> u64
    requires { at + entry_row ≤ length volume.now }
    ensures { result ≡ (read_entry (part volume.now at entry_row)).node }
{
    words::get::<8>(volume, at + NODE)
}

// The index in the row that starts at index at.
pub fn entry_index(volume: &[u8], at: usize) -> u64
    requires { at + entry_row ≤ length volume.now }
    ensures { (result ≡ (read_entry (part volume.now at entry_row)).index) × (result < 4294967296) }
{
    words::get::<4>(volume, at + INDEX)
}

// The name in the row that starts at index at, as a part of the volume.
pub fn entry_name(volume: &[u8], at: usize) -> &[u8]
    requires { (at + entry_row ≤ length volume.now) × (num 4 volume.now (at + 20) ≤ name_room) }
    ensures { result.now ≡ (read_entry (part volume.now at entry_row)).name }
{
    let start = at + NAME;
    let long = words::get::<4>(volume, at + NAME_SIZE) as usize;
    &volume[start..start + long]
}

// Writes an entry's row at index at.
pub fn write_entry(volume: &mut [u8], at: usize, parent: u64, node: u64, index: u64, name: &[u8])
    requires { (at + entry_row ≤ length volume.old) × (length name.now ≤ name_room) }
    ensures { volume.new ≡ over volume.old at (lay_entry (record { parent = parent; node = node; index = index; name = name.now })) }
{
    let long = name.len();
    words::put::<8>(volume, at, parent);
    words::put::<8>(volume, at + NODE, node);
    words::put::<4>(volume, at + INDEX, index);
    words::put::<4>(volume, at + NAME_SIZE, long as u64);
    words::copy(volume, at + NAME, name);
    words::clear(volume, at + NAME + long, types::NAME_ROOM - long);
}

// Whether the row whose bytes start at index at stands before (parent, index).
fn entry_under(volume: &[u8], at: usize, parent: u64, index: u64) -> bool
    requires { at + entry_row ≤ length volume.now }
    ensures { result ≡ entry_under parent index (read_entry (part volume.now at entry_row)) }
{
    pair_before(
        entry_parent(volume, at),
        entry_index(volume, at),
        parent,
        index,
    )
}

// How many of the rows stand before (parent, index), by halving.
pub fn seek_entry(volume: &[u8], base: usize, used: usize, parent: u64, index: u64) -> usize
    requires { (base + entry_row * used ≤ length volume.now) × Falls (entry_under parent index) (table read_entry entry_row volume.now base used) }
    ensures { (result ≡ lead (entry_under parent index) (table read_entry entry_row volume.now base used)) × (result ≤ used) }
{
    words::seek(
        used,
        |i| entry_under(volume, base + ENTRY_ROW * i, parent, index),
    )
}

// Whether the bytes at index at can be an entry's row.
pub fn entry_formed(volume: &[u8], at: usize) -> bool
    requires { at + entry_row ≤ length volume.now }
    ensures { result ≡ entry_formed volume.now at }
{
    let long = words::get::<4>(volume, at + NAME_SIZE) as usize;
    if long < 1 {
        return false;
    }
    if types::MOST_NAME < long {
        return false;
    }
    let rest = at + NAME + long;
    let unused = types::NAME_ROOM - long;
    words::is_zero(&volume[rest..rest + unused])
}
