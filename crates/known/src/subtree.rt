// Asking for subtrees. A line of kind 's' is one of ask.rt's that is lent no answer and no trail. Each number of its question is a part by itself: where
// its subtree stands in the order table is asked for first, and then that stretch of the table, with work full of sevens before each call.

use crate::BEFORE;
use crate::out::Out;
use crate::print::{Parts, Verdict, Work};
use std::io;
use std::io::Print;
use tree::Lent;

// Asks for the subtree of each part of a list.
pub fn each(out: Out, parts: &[u16], tables: Lent, work: &mut [u16]) -> io::Result<()> {
    for part in parts {
        ask(out, usize::from(*part), tables, work)?;
    }
    Ok(())
}

// Asks for the subtrees of the first, the fourth, the middle and the last of 16,384 parts, and of two numbers that are no part.
pub fn large(out: Out, tables: Lent, work: &mut [u16]) -> io::Result<()> {
    each(out, &[0, 3, 8192, 16383, 16384], tables, work)?;
    ask(out, usize::MAX, tables, work)
}

// Asks both calls for the subtree of one part.
fn ask(out: Out, part: usize, tables: Lent, work: &mut [u16]) -> io::Result<()> {
    locate(out, part, tables, work)?;
    subtree(out, part, tables, work)
}

// Asks where the subtree stands in the order table, and prints a line.
fn locate(out: Out, part: usize, tables: Lent, work: &mut [u16]) -> io::Result<()> {
    work.fill(BEFORE);
    let r = subtrees::locate(tables, work, part);
    let work = Work(work);
    let verdict = Verdict(r.map(|_| ()));
    print!(out; "  locate {part}{verdict}{work}")?;
    match r {
        Ok(found) => println!(out; ", start {}, count {}", found.start, found.count),
        Err(_) => println!(out; ""),
    }
}

// Asks for the stretch of the order table, and prints a line.
fn subtree(out: Out, part: usize, tables: Lent, work: &mut [u16]) -> io::Result<()> {
    work.fill(BEFORE);
    let stretch = subtrees::subtree(tables, work, part);
    println!(out; "  subtree {part}: {}{}", Parts(stretch), Work(work))
}
