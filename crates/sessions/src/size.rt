// Buffers that hold what is printed, and that are short; and what is printed of a long text.

use crate::out::Out;
use crate::show;
use crate::show::{BEFORE, SHORT};
use std::io;
use std::io::Print;

// Runs inputs in buffers of their room, of one less, and of none.
pub fn all(out: Out) -> io::Result<()> {
    in_buffers(out, b"no input in its room", b"")?;
    in_buffers(
        out,
        b"a machine in its room",
        b"(machine 1)\n(part 0 (in 0))\n(pair 0 0)\n",
    )
}

// Runs an input in these three buffers, which have at most 4,096 bytes.
fn in_buffers(out: Out, name: &[u8], input: &[u8]) -> io::Result<()> {
    let needed = console::room(input.len());
    show::title(out, name)?;
    for size in [needed, needed.saturating_sub(1), 0] {
        let mut buffer = [BEFORE; SHORT];
        show::run(out, input, &mut buffer[..size.min(SHORT)])?;
    }
    Ok(())
}

// Runs an input in the largest buffer, and prints how long the text is, its sum and its last 60 bytes.
pub fn summary(out: Out, name: &[u8], input: &[u8]) -> io::Result<()> {
    let mut buffer = [BEFORE; console::MOST_ROOM];
    show::title(out, name)?;
    run(out, input, &mut buffer)
}

// Runs an input in a buffer, and prints a summary.
fn run(out: Out, input: &[u8], buffer: &mut [u8]) -> io::Result<()> {
    match console::run(input, buffer) {
        Ok(n) => sum_of(out, input.len(), buffer, n),
        Err(lack) => show::short(out, buffer, lack.needed),
    }
}

// Prints the summary of a text: how long the input and the text are, its sum, its end.
fn sum_of(out: Out, read: usize, buffer: &[u8], n: usize) -> io::Result<()> {
    let (text, rest) = buffer.split_at(n.min(buffer.len()));
    println!(out;
        "{read} bytes read, {n} written, sum {}, the last:",
        sum(text)
    )?;
    out.write_all(&text[text.len().saturating_sub(60)..])?;
    show::kept(out, rest)
}

// A sum that tells texts apart: 31 times what was, and the next byte, for each byte, below 1,000,003.
fn sum(text: &[u8]) -> u64 {
    text.iter().fold(
        0,
        |sum: u64, byte| (31 * (sum % 1000003) + *byte as u64) % 1000003,
    )
}
