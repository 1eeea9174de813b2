// The public calls on a volume. Each opens the memory first, and refuses it with 1 if it is not sound; no call asks anything of its
// caller.
#![tactic(auto)]

mod naming;
mod text;

ghost use Rattle.std.specs.Prelude.{◌≡◌};
ghost use Rattle.types.specs.Outcomes.{outcome};
ghost use Rattle.lentilraft.specs.Door.{check, set_chunk_size, set_limit, read, resize, write};
ghost use Rattle.lentilraft.specs.Report.{report};

pub use naming::{
    NameAt, create, find_node, link, next_entry, next_name, remove, search, unlink, unlink_byte,
};
use tables::Tables;
use types::Error;

// The least room for a report.
const LEAST_OUTPUT: usize = 512;

// Whether the memory is a sound volume: 1, or nothing to tell.
pub fn check(volume: &[u8]) -> Result<u64, Error>
    ensures { result ≡ check volume.now }
{
    soundness::open(volume)?;
    Ok(0)
}

// Sets the chunk size; another one only if no pointer was ever given out.
pub fn set_chunk_size(volume: &mut [u8], span: u64) -> Result<u64, Error>
    ensures { outcome result volume.new ≡ set_chunk_size span volume.old }
{
    let layout = soundness::open(volume)?;
    tables::set_chunk_size(volume, layout, span)
}

// Puts the report's text at the front of the output, and answers its length.
pub fn report(volume: &[u8], out: &mut [u8]) -> Result<u64, Error>
    ensures { outcome result out.new ≡ report volume.now out.old }
{
    let tables = Tables {
        bytes: volume,
        layout: soundness::open(volume)?,
    };
    if out.len() < LEAST_OUTPUT {
        return Err(Error::OutputTooShort);
    }
    let count = text::put_text(&tables, out);
    Ok(count as u64)
}

// Reads a file's bytes from an offset on into the front of the buffer, and answers how many.
pub fn read(volume: &[u8], node: u64, offset: u64, buffer: &mut [u8]) -> Result<u64, Error>
    ensures { outcome result buffer.new ≡ read node offset volume.now buffer.old }
{
    let tables = Tables {
        bytes: volume,
        layout: soundness::open(volume)?,
    };
    files::read(&tables, node, offset, buffer)
}

// Sets a file's limit, or takes it away.
pub fn set_limit(volume: &mut [u8], node: u64, limit: Option<u64>) -> Result<u64, Error>
    ensures { outcome result volume.new ≡ set_limit node limit volume.old }
{
    let layout = soundness::open(volume)?;
    files::set_limit(volume, layout, node, limit)
}

// Gives a file another size. What it gains reads zero.
pub fn resize_file(volume: &mut [u8], node: u64, size: u64) -> Result<u64, Error>
    ensures { outcome result volume.new ≡ resize node size volume.old }
{
    let layout = soundness::open(volume)?;
    files::resize_file(volume, layout, node, size)
}

// Writes bytes into a file from an offset on, and answers how many. A gap before them reads zero.
pub fn write(volume: &mut [u8], node: u64, offset: u64, bytes: &[u8]) -> Result<u64, Error>
    ensures { outcome result volume.new ≡ write node offset bytes.now volume.old }
{
    let layout = soundness::open(volume)?;
    files::write(volume, layout, node, offset, bytes)
}
