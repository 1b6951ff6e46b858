// Asking for totals (document 02, 2026-02). A line of kind 'a' has how many cells of work, counts and totals are lent, how many high halves it gives,
// and then the counts' low halves, their high halves and the entries, as in "assembly 28 7 7 0: 1 2 4 8 16 32 64 / / 0 0 0 1 1 2 5". A count is its
// low half and 65536 times its high half, which is 0 where the line gives none. Before the call work holds sevens, and totals a number that no
// total is.

use crate::BEFORE;
use crate::large::{PARTS, WORK};
use crate::out::Out;
use crate::print::{Numbers, Verdict, Work, entries, kept};
use std::fmt::{Display, Formatter, Write};
use std::io::Print;
use std::{fmt, io};

// What each cell of totals holds before a call.
const NO_TOTAL: u64 = 7777777777777777777;

// A number below which totals are mixed.
const MIXED: u64 = 4294967291;

// Parts the numbers of a line.
pub fn run(out: Out, numbers: &[u16]) -> io::Result<()> {
    let [work, counts, totals, halves, rest @ ..] = numbers else {
        return println!(out; "too few numbers");
    };
    let Some((low, rest)) = rest.split_at_checked(usize::from(*counts)) else {
        return println!(out; "too few numbers");
    };
    let Some((high, parents)) = rest.split_at_checked(usize::from(*halves)) else {
        return println!(out; "too few numbers");
    };
    lend(
        out,
        usize::from(*work),
        usize::from(*totals),
        low,
        high,
        parents,
    )
}

// Lends as many cells of each buffer as the line says, puts the counts, asks for the totals, and prints a line.
fn lend(
    out: Out,
    w: usize,
    t: usize,
    low: &[u16],
    high: &[u16],
    parents: &[u16],
) -> io::Result<()> {
    let mut work = [BEFORE; 128];
    let mut counts = [0; 32];
    let mut totals = [NO_TOTAL; 32];
    let c = low.len();
    if work.len() < w || counts.len() < c || totals.len() < t {
        return println!(out; "too many cells");
    }
    let counts = &mut counts[..c];
    put(low, high, counts);
    print!(out;
        "{} with {w} {c} {t}, counts {}",
        entries(parents),
        Numbers(counts, "nothing")
    )?;
    answer(out, parents, &mut work[..w], counts, &mut totals[..t])
}

// Puts each count.
fn put(low: &[u16], high: &[u16], counts: &mut [u32]) {
    for (i, count) in counts.iter_mut().enumerate() {
        *count = u32::from(half(high, i)) << 16 | u32::from(half(low, i));
    }
}

// Half of a count, 0 where none is given.
fn half(halves: &[u16], i: usize) -> u16 {
    halves.get(i).copied().unwrap_or(0)
}

// Asks for the totals of as many parts as a sheet may have, with the largest counts.
pub fn ask_large(out: Out, parents: &[u16]) -> io::Result<()> {
    let mut work = [BEFORE; WORK];
    let counts = [u32::MAX; PARTS];
    let mut totals = [NO_TOTAL; PARTS];
    print!(out; ", every count {}", u32::MAX)?;
    answer(out, parents, &mut work, &counts, &mut totals)
}

// Asks for the totals, and prints the rest of a line.
fn answer(
    out: Out,
    parents: &[u16],
    work: &mut [u16],
    counts: &[u32],
    totals: &mut [u64],
) -> io::Result<()> {
    work.fill(BEFORE);
    let r = wear::totals(parents, work, counts, totals);
    print!(out; "{}{}, totals ", Verdict(r), Work(work))?;
    match r {
        Ok(()) => println!(out; "{}", Totals(totals)),
        Err(_) => println!(out; "{}", kept(totals, NO_TOTAL)),
    }
}

// The totals: all of up to 32, or the first, the last and a number that is mixed from all.
#[derive(Drop)]
struct Totals<'a>(&'a [u64]);

impl Display for Totals<'_> {
    fn fmt<W: Write>(&self, f: &mut Formatter<W>) -> fmt::Result {
        match self.0 {
            [first, .., last] if 32 < self.0.len() => {
                write!(f, "from {first} to {last}, mixed {}", mixed(self.0))
            }
            _ => write!(f, "{}", Numbers(self.0, "")),
        }
    }
}

// A number that each total and its place has a part in.
fn mixed(totals: &[u64]) -> u64 {
    totals.iter().fold(
        0,
        |mix: u64, total| (31 * (mix % MIXED) + total % MIXED) % MIXED,
    )
}
