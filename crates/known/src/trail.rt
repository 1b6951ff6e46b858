// Asking for the trail of a pair.

use crate::BEFORE;
use crate::ask::Question;
use crate::out::Out;
use crate::print::{Answered, Rows, kept};
use std::io;
use std::io::Print;
use tree::{Lent, Refusal};

// Asks for a trail, with an answer and a trail of the lengths that the question says, and prints a line.
pub fn ask(out: Out, asked: Question, tables: Lent, work: &mut [u16]) -> io::Result<()> {
    let mut answer = [BEFORE; 3];
    let mut trail = [BEFORE; 65];
    if answer.len() < asked.cells || trail.len() < asked.rows {
        return println!(out; "too many cells");
    }
    answer_in(
        out,
        asked.parts,
        tables,
        work,
        &mut answer[..asked.cells],
        &mut trail[..asked.rows],
    )
}

// Asks for a trail and prints a line.
fn answer_in(
    out: Out,
    pair: &[u16],
    tables: Lent,
    work: &mut [u16],
    answer: &mut [u16],
    trail: &mut [u16],
) -> io::Result<()> {
    work.fill(BEFORE);
    let r = routes::trail(tables, work, pair, answer, trail);
    traced(out, r, work, answer, trail)
}

// What came of a trail.
fn traced(
    out: Out,
    r: Result<usize, Refusal>,
    work: &[u16],
    answer: &[u16],
    trail: &[u16],
) -> io::Result<()> {
    let outcome = r.map(|_| ());
    let answered = Answered {
        outcome,
        work,
        answer,
    };
    match r {
        Ok(lifts) => {
            let cells = trail;
            println!(out; "  trail{answered}{}", Rows { lifts, cells })
        }
        Err(_) => println!(out; "  trail{answered}, trail {}", kept(trail, BEFORE)),
    }
}
