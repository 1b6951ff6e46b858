// A run, and what is printed of it. Before a run its buffer holds sevens.

use crate::out::Out;
use std::io;
use std::io::{Print, Write};

// What each byte of a buffer holds before a run.
pub const BEFORE: u8 = 7;

// The bytes of the buffer that short inputs are run in.
pub const SHORT: usize = 4096;

// Runs the program on an input in a buffer of 4,096 bytes.
pub fn first(out: Out, name: &[u8], input: &[u8]) -> io::Result<()> {
    let mut buffer = [BEFORE; SHORT];
    title(out, name)?;
    run(out, input, &mut buffer)
}

// Puts the known machine, document 01's.
pub fn put_known(text: &mut impl Write) -> io::Result<()> {
    text.write_all(
        b"(machine 7)\n(part 0 (in 0))\n(part 1 (in 0))\n(part 2 (in 0))\n(part 3 (in 1))\n(part 4 (in 1))\n(part 5 (in 2))\n(part 6 (in 5))\n",
    )
}

// The name of a run.
pub fn title(out: Out, name: &[u8]) -> io::Result<()> {
    out.write_all(name)?;
    println!(out; ":")
}

// Runs the program in a buffer, and prints what it wrote.
pub fn run(out: Out, input: &[u8], buffer: &mut [u8]) -> io::Result<()> {
    match console::run(input, buffer) {
        Ok(n) => text(out, buffer, n),
        Err(lack) => short(out, buffer, lack.needed),
    }
}

// The text, whole.
fn text(out: Out, buffer: &[u8], n: usize) -> io::Result<()> {
    let (text, rest) = buffer.split_at(n.min(buffer.len()));
    out.write_all(text)?;
    kept(out, rest)
}

// What a buffer lacks.
pub fn short(out: Out, buffer: &[u8], n: usize) -> io::Result<()> {
    println!(out; "the buffer is short: it needs {n} bytes")?;
    kept(out, buffer)
}

// Says so if a byte that must be as it was is not.
pub fn kept(out: Out, rest: &[u8]) -> io::Result<()> {
    if rest.iter().any(|byte| *byte != BEFORE) {
        println!(out; "a byte after the text was changed")?;
    }
    Ok(())
}
