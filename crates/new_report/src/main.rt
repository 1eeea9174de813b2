// Makes a new volume with chunks of 16,384 bytes, and prints its report.
#![tactic(auto)]

ghost use Rattle.std.specs.Prelude.{◌≡◌, length};

use std::io;
use std::io::Write;
use types::Error;

// The bytes of the volume.
const MEMORY: usize = 1_048_576;

// Room for a report.
const OUTPUT: usize = 512;

const ROWS: u64 = 16;

const CHUNK_SIZE: u64 = 16_384;

// A write that fails is lost.
fn main(rt: HostRuntime) {
    let mut memory = blank();
    let mut out = [0; OUTPUT];
    let answer = report(&mut memory, &mut out);
    if let Some(text) = out.get(..types::value(answer) as usize) {
        let _ = io::writer(&rt).write_all(text);
    }
}

// Zeros, to make the volume in.
fn blank() -> [u8; MEMORY]
    ensures { 1048576 ≡ length result }
{
    [0; MEMORY]
}

// Puts the report of a new volume at the front of the output, and answers its length.
fn report(memory: &mut [u8], out: &mut [u8]) -> Result<u64, Error> {
    volume::new_volume(memory, ROWS, ROWS, ROWS, CHUNK_SIZE)?;
    lentilraft::report(memory, out)
}
