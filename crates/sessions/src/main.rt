// Runs of the program on many inputs: each of document 01's rules of lines, at its edge and on both sides of it. Standard input has the short ones, a line
// each; those that loops make are made here. A run prints its name and what the program prints; after the text the buffer must be as it was.
// `tools/sessions.py` works out what this must print, by document 01's words.

#![tactic(auto)]

mod cases;
mod large;
mod out;
mod show;
mod size;

use arrayvec::ArrayVec;
use out::Out;
use std::io;
use std::io::Stdin;

// The most bytes of standard input that are read.
const INPUT: usize = 65536;

// Runs the cases of standard input, and then the inputs that are made here. What is read fills its buffer where more may follow.
fn run(mut stdin: Stdin, out: Out) -> io::Result<()> {
    let mut text: ArrayVec<u8, INPUT> = ArrayVec::new();
    let _ = io::copy(&mut stdin, &mut text);
    cases::all(out, text.as_slice())?;
    if text.is_full() {
        println!(out; "standard input is too long")?;
    }
    size::all(out)?;
    large::all(out)
}

// Ends with status 0, whatever standard output takes.
fn main(rt: HostRuntime) {
    let _ = run(rt.stdin(), Out(rt.stdout()));
}
