// Read and write without the check, for bench/ alone: they tell a call's own work from the check's. They ask of their caller that the volume
// is sound, and nothing sees to it at a caller that is not proved. So they are no part of the interface (rim).
#![tactic(auto)]

ghost use Rattle.rim.specs.Given.{GivesCount};
ghost use Rattle.volume.specs.Sound.{Sound};
ghost use Rattle.lentilraft.specs.Door.{read, write};

use tables::Tables;

// Reads a file's bytes; the count goes through a lent place, 0 for a refusal.
#[unsafe(no_mangle)]
pub extern "C" fn unchecked_read(
    volume: &[u8],
    node: u64,
    offset: u64,
    buffer: &mut [u8],
    count: &mut u64,
) -> u32
    requires { Sound volume.now }
    ensures { GivesCount (read node offset volume.now buffer.old) result buffer.new count.new }
{
    let tables = Tables {
        bytes: volume,
        layout: volume::read_layout(volume),
    };
    let answer = files::read(&tables, node, offset, buffer);
    *count = types::value(answer);
    types::number(answer)
}

// Writes bytes into a file; the count goes through a lent place, 0 for a refusal.
#[unsafe(no_mangle)]
pub extern "C" fn unchecked_write(
    volume: &mut [u8],
    node: u64,
    offset: u64,
    bytes: &[u8],
    count: &mut u64,
) -> u32
    requires { Sound volume.old }
    ensures { GivesCount (write node offset bytes.now volume.old) result volume.new count.new }
{
    let layout = volume::read_layout(volume);
    let answer = files::write(volume, layout, node, offset, bytes);
    *count = types::value(answer);
    types::number(answer)
}
