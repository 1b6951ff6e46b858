// Standard output, whatever it takes: a write that fails is dropped, and what is printed after it is tried all the same.

use std::fmt::Display;
use std::io;
use std::io::{Print, Stdout};

// Prints, and always answers that it could.
#[derive(Clone, Copy)]
pub struct Out(pub Stdout);

impl Print for Out {
    fn print<D: Display + Drop>(&self, value: D) -> io::Result<()> {
        let _ = self.0.print(value);
        Ok(())
    }

    fn println<D: Display + Drop>(&self, value: D) -> io::Result<()> {
        let _ = self.0.println(value);
        Ok(())
    }

    fn write_all(&self, bytes: &[u8]) -> io::Result<()> {
        let _ = self.0.write_all(bytes);
        Ok(())
    }
}
