// What a program prints.
ghost use Rattle.std.specs.Prelude.{IsOk};

use std::fmt::Display;
use std::io;

// Prints by another printer. A print that fails is lost, and the next one is tried as ever.
#[derive(Clone, Copy)]
pub struct Lossy<P>(pub P);

impl<P: Print> Print for Lossy<P> {
    fn print<D: Display + Drop>(&self, value: D) -> io::Result<()>
        ensures { IsOk result }
    {
        let _ = self.0.print(value);
        Ok(())
    }

    fn println<D: Display + Drop>(&self, value: D) -> io::Result<()>
        ensures { IsOk result }
    {
        let _ = self.0.println(value);
        Ok(())
    }

    fn write_all(&self, bytes: &[u8]) -> io::Result<()>
        ensures { IsOk result }
    {
        let _ = self.0.write_all(bytes);
        Ok(())
    }
}
