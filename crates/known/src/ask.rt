// Asking for carriers and subtrees. Behind the cells of label, tour, lift, order and work (lend.rt) a line has how many cells of answer and of trail
// are lent, how many numbers the question has, at how many places a cell is changed, and then the question, the places and the entries, as in
// "pairs 42 72 21 7 28 3 0 2 0: 3 4 / 0 0 0 1 1 2 5". The sheet's tables are built, the cells at the places are changed, and the question is asked:
// 'p' asks for pairs by each route, 'r' for the rows of a pair's trail, 'm' for the carrier of many parts, 's' for the subtree of each part. Before a
// call all it may write holds sevens.

use crate::lend::Buffers;
use crate::out::Out;
use crate::print::{Answered, places, some};
use crate::{BEFORE, damage, lend, subtree, trail};
use std::io;
use std::io::Print;
use tree::{Lent, Refusal};

// What a line asks for.
#[derive(Clone, Copy)]
pub enum Kind {
    Pairs,
    Trail,
    Many,
    Subtrees,
}

// A question, with the cells of answer and of trail that are lent for it.
#[derive(Clone, Copy)]
pub struct Question<'a> {
    pub cells: usize,
    pub rows: usize,
    pub parts: &'a [u16],
}

// A call that answers.
#[derive(Clone, Copy)]
pub enum Call {
    Labels,
    Tour,
    Lifts,
    List,
}

impl Call {
    fn name(self) -> &'static str {
        match self {
            Call::Labels => "labels",
            Call::Tour => "tour",
            Call::Lifts => "lifts",
            Call::List => "list",
        }
    }
}

// Parts the numbers of a line, builds the sheet's tables, changes the cells at some places, and asks.
pub fn run(
    out: Out,
    kind: Kind,
    numbers: &[u16],
    buffers: &mut Buffers,
    work: &mut [u16],
) -> io::Result<()> {
    let [cells, rows, asked, damaged, rest @ ..] = numbers else {
        return println!(out; "too few numbers");
    };
    let Some((parts, rest)) = rest.split_at_checked(usize::from(*asked)) else {
        return println!(out; "too few numbers");
    };
    let Some((changed, parents)) = rest.split_at_checked(usize::from(*damaged)) else {
        return println!(out; "too few numbers");
    };
    let cells = usize::from(*cells);
    let rows = usize::from(*rows);
    let _ = tables::build(
        parents,
        buffers.label,
        buffers.tour,
        buffers.lift,
        buffers.order,
        work,
    );
    damage::all(changed, buffers);
    let tables = buffers.tables(parents);
    lend::lent(out, tables, work)?;
    let asked = Question { cells, rows, parts };
    put_question(out, asked, changed)?;
    ask_kind(out, kind, asked, tables, work)
}

// Prints how many cells of answer and trail are lent, where the tables are damaged, and what is asked.
fn put_question(out: Out, asked: Question, changed: &[u16]) -> io::Result<()> {
    print!(out; " {} {}", asked.cells, asked.rows)?;
    if !changed.is_empty() {
        print!(out; ", damaged at {}", places(changed))?;
    }
    println!(out; ", asked {}", some(asked.parts))
}

// Asks what the kind of a line says.
fn ask_kind(
    out: Out,
    kind: Kind,
    asked: Question,
    tables: Lent,
    work: &mut [u16],
) -> io::Result<()> {
    match kind {
        Kind::Pairs => pairs(out, asked, tables, work),
        Kind::Trail => trail::ask(out, asked, tables, work),
        Kind::Many => ask(out, Call::List, asked, tables, work),
        Kind::Subtrees => subtree::each(out, asked.parts, tables, work),
    }
}

// Asks for pairs by each of the three routes.
pub fn pairs(out: Out, asked: Question, tables: Lent, work: &mut [u16]) -> io::Result<()> {
    for route in [Call::Labels, Call::Tour, Call::Lifts] {
        ask(out, route, asked, tables, work)?;
    }
    Ok(())
}

// Asks one call, with an answer of up to 768 cells, those of 256 pairs, and prints a line.
pub fn ask(
    out: Out,
    call: Call,
    asked: Question,
    tables: Lent,
    work: &mut [u16],
) -> io::Result<()> {
    let mut answer = [BEFORE; 768];
    if answer.len() < asked.cells {
        return println!(out; "too many cells");
    }
    let answer = &mut answer[..asked.cells];
    work.fill(BEFORE);
    let outcome = answer_in(call, asked.parts, tables, work, answer);
    println!(out;
        "  {}{}",
        call.name(),
        Answered {
            outcome,
            work,
            answer
        }
    )
}

// Makes the call.
fn answer_in(
    call: Call,
    parts: &[u16],
    tables: Lent,
    work: &mut [u16],
    answer: &mut [u16],
) -> Result<(), Refusal> {
    match call {
        Call::Labels => routes::pairs_by_labels(tables, work, parts, answer),
        Call::Tour => routes::pairs_by_tour(tables, work, parts, answer),
        Call::Lifts => routes::pairs_by_lifts(tables, work, parts, answer),
        Call::List => routes::list(tables, work, parts, answer),
    }
}
