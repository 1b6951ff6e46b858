// The known sheets that are run (document 01, "Known sheets", and more of our own). Standard input has the small ones, a line each; the large
// ones are made here. Each is checked, or its tables are built or compared with it, or it is asked for carriers, subtrees or totals, and a line
// says the verdict and what became of work, which held sevens before.

#![tactic(auto)]

mod ask;
mod cases;
mod damage;
mod large;
mod lend;
mod out;
mod print;
mod shape;
mod subtree;
mod totals;
mod trail;

use arrayvec::ArrayVec;
use out::Out;
use print::{Verdict, Work};
use std::io;
use std::io::{Print, Stdin};

// What each cell that a call may write holds before it.
const BEFORE: u16 = 7;

// The most bytes of standard input that are read.
const INPUT: usize = 65536;

// Checks one sheet and prints the rest of its line.
fn check(out: Out, parents: &[u16], work: &mut [u16]) -> io::Result<()> {
    work.fill(BEFORE);
    let r = tables::check(parents, work);
    println!(out; "{}{}", Verdict(r), Work(work))
}

// Runs the lines of standard input, and then the large sheets.
fn run(mut stdin: Stdin, out: Out) -> io::Result<()> {
    let mut text: ArrayVec<u8, INPUT> = ArrayVec::new();
    let _ = io::copy(&mut stdin, &mut text);
    cases::all(out, text.as_slice())?;
    large::accepted(out)?;
    large::sizes(out)?;
    large::refused(out)?;
    large::cycles(out)?;
    large::size_of_tables(out)?;
    large::tables(out)?;
    large::counted(out)?;
    large::not_counted(out)
}

// Ends with status 0, whatever standard output takes.
fn main(rt: HostRuntime) {
    let _ = run(rt.stdin(), Out(rt.stdout()));
}
