// The text that a program reads.
ghost use Rattle.std.specs.Prelude.{◌≡◌, ◌≤◌, ◌<◌, length, OnOk};
ghost use Rattle.std.specs.Io.KnownBytes.{Consumes, IsAtEnd};

use std::io;
use std::io::Read;

// The bytes of text that a program makes room for.
pub const ROOM: usize = 1_048_576;

// Zeros, for a program to read its text into.
pub fn blank() -> [u8; ROOM]
    ensures { 1048576 ≡ length result }
{
    [0; ROOM]
}

// What the reader gives up to its end, to the room's, or to a read that fails; and which failed.
pub fn read_text<'a, R: Read>(reader: &mut R, room: &'a mut [u8]) -> (&'a [u8], io::Result<()>)
    ensures within { length result.0.now ≤ length room.old }
    ensures bytes { Consumes (R.remaining reader.old) (R.remaining reader.new) result.0.now }
    ensures whole { OnOk result.1 (length result.0.now < length room.old → IsAtEnd (R.remaining reader.new)) }
{
    let mut done = 0;
    while done < room.len() {
        match reader.read(&mut room[done..]) {
            Ok(0) => return (&room[..done], Ok(())),
            Ok(n) => done += n,
            Err(error) => return (&room[..done], Err(error)),
        }
    }
    (room, Ok(()))
}
