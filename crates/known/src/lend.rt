// Building tables and comparing them. A line has how many cells of label, tour, lift, order and work are lent, which all hold sevens, and then
// the entries, as in "tables 6 3 1 1 4: 0". Its first letter says what is done: 't' builds the tables and prints them; 'd' builds them, changes
// the cells at some places and compares; 'g' builds them, puts given numbers into the order table and compares; 'o' builds the tables of one
// sheet and compares them with another; 'c' compares the sevens. Lines of ask.rt begin with the same five numbers.

use crate::out::Out;
use crate::print::{Numbers, Verdict, Work, entries, holds, places, some};
use crate::{BEFORE, ask, damage};
use std::io;
use std::io::Print;
use tree::{Lent, Refusal};

// What is done with the buffers that a line lends.
#[derive(Clone, Copy)]
pub enum Kind {
    Build,
    Damaged,
    Given,
    Other,
    Sevens,
    Ask(ask::Kind),
}

impl Kind {
    // The kind of a line that begins with a letter.
    pub fn of(letter: u8) -> Option<Kind> {
        match letter {
            b't' => Some(Kind::Build),
            b'd' => Some(Kind::Damaged),
            b'g' => Some(Kind::Given),
            b'o' => Some(Kind::Other),
            b'c' => Some(Kind::Sevens),
            b'p' => Some(Kind::Ask(ask::Kind::Pairs)),
            b'r' => Some(Kind::Ask(ask::Kind::Trail)),
            b'm' => Some(Kind::Ask(ask::Kind::Many)),
            b's' => Some(Kind::Ask(ask::Kind::Subtrees)),
            _ => None,
        }
    }
}

// The buffers that are lent to be filled with the four tables.
#[derive(Drop)]
pub struct Buffers<'a> {
    pub label: &'a mut [u16],
    pub tour: &'a mut [u16],
    pub lift: &'a mut [u16],
    pub order: &'a mut [u16],
}

impl Buffers<'_> {
    // A sheet with what the buffers hold.
    pub fn tables<'b>(&'b self, parents: &'b [u16]) -> Lent<'b, 'b> {
        Lent {
            parents,
            label: self.label,
            tour: self.tour,
            lift: self.lift,
            order: self.order,
        }
    }

    // Whether the tables are as they were, all sevens.
    fn are_kept(&self) -> bool {
        holds(self.label, BEFORE)
            && holds(self.tour, BEFORE)
            && holds(self.lift, BEFORE)
            && holds(self.order, BEFORE)
    }
}

// Lends as many cells of each buffer as a line says, and runs it.
pub fn run(out: Out, kind: Kind, numbers: &[u16]) -> io::Result<()> {
    let mut label = [BEFORE; 192];
    let mut tour = [BEFORE; 480];
    let mut lift = [BEFORE; 192];
    let mut order = [BEFORE; 32];
    let mut work = [BEFORE; 128];
    let [l, t, f, o, w, rest @ ..] = numbers else {
        return println!(out; "too few numbers");
    };
    let l = usize::from(*l);
    let t = usize::from(*t);
    let f = usize::from(*f);
    let o = usize::from(*o);
    let w = usize::from(*w);
    if label.len() < l || tour.len() < t || lift.len() < f || order.len() < o || work.len() < w {
        return println!(out; "too many cells");
    }
    let mut buffers = Buffers {
        label: &mut label[..l],
        tour: &mut tour[..t],
        lift: &mut lift[..f],
        order: &mut order[..o],
    };
    run_kind(out, kind, rest, &mut buffers, &mut work[..w])
}

// Runs a line on the cells that are lent.
fn run_kind(
    out: Out,
    kind: Kind,
    numbers: &[u16],
    buffers: &mut Buffers,
    work: &mut [u16],
) -> io::Result<()> {
    match kind {
        Kind::Build => build(out, numbers, buffers, work),
        Kind::Damaged => damaged(out, numbers, buffers, work),
        Kind::Given => given(out, numbers, buffers, work),
        Kind::Other => other(out, numbers, buffers, work),
        Kind::Sevens => sevens(out, buffers.tables(numbers), work),
        Kind::Ask(kind) => ask::run(out, kind, numbers, buffers, work),
    }
}

// Prints a sheet, and how many cells of the tables and of work are lent with it.
pub fn lent(out: Out, tables: Lent, work: &[u16]) -> io::Result<()> {
    let Lent {
        parents,
        label,
        tour,
        lift,
        order,
    } = tables;
    print!(out;
        "{} with {} {} {} ",
        entries(parents),
        label.len(),
        tour.len(),
        lift.len()
    )?;
    print!(out; "{} {}", order.len(), work.len())
}

// Builds the tables of a sheet, and prints those of an accepted one.
fn build(out: Out, parents: &[u16], buffers: &mut Buffers, work: &mut [u16]) -> io::Result<()> {
    lent(out, buffers.tables(parents), work)?;
    if built(out, parents, buffers, work)?.is_err() {
        return Ok(());
    }
    println!(out; "  label: {}", Numbers(buffers.label, ""))?;
    println!(out; "  tour: {}", Numbers(buffers.tour, ""))?;
    println!(out; "  lift: {}", Numbers(buffers.lift, ""))?;
    println!(out; "  order: {}", Numbers(buffers.order, ""))
}

// Builds the tables of a sheet, and prints the rest of the line.
pub fn built(
    out: Out,
    parents: &[u16],
    buffers: &mut Buffers,
    work: &mut [u16],
) -> io::Result<Result<(), Refusal>> {
    work.fill(BEFORE);
    let r = tables::build(
        parents,
        buffers.label,
        buffers.tour,
        buffers.lift,
        buffers.order,
        work,
    );
    let tables = if buffers.are_kept() { "kept" } else { "filled" };
    println!(out; "{}{}, tables {tables}", Verdict(r), Work(work))?;
    Ok(r)
}

// Compares the tables of a sheet with it, the cells at some places changed; the places stand behind their count, before the entries.
fn damaged(out: Out, numbers: &[u16], buffers: &mut Buffers, work: &mut [u16]) -> io::Result<()> {
    let [count, rest @ ..] = numbers else {
        return println!(out; "too few numbers");
    };
    let Some((changed, parents)) = rest.split_at_checked(usize::from(*count)) else {
        return println!(out; "too few numbers");
    };
    lent(out, buffers.tables(parents), work)?;
    print!(out; ", damaged at {}", places(changed))?;
    build_and_compare(out, parents, changed, parents, buffers, work)
}

// Compares the tables of a sheet with it, the order table replaced by the numbers before the entries, one for each of its cells.
fn given(out: Out, numbers: &[u16], buffers: &mut Buffers, work: &mut [u16]) -> io::Result<()> {
    let Some((cells, parents)) = numbers.split_at_checked(buffers.order.len()) else {
        return println!(out; "too few numbers");
    };
    lent(out, buffers.tables(parents), work)?;
    print!(out; ", order {}", some(cells))?;
    let _ = tables::build(
        parents,
        buffers.label,
        buffers.tour,
        buffers.lift,
        buffers.order,
        work,
    );
    for (cell, number) in buffers.order.iter_mut().zip(cells) {
        *cell = *number;
    }
    compare(out, buffers.tables(parents), work)
}

// Compares the tables of the sheet in the first half of a line with the sheet in the second.
fn other(out: Out, numbers: &[u16], buffers: &mut Buffers, work: &mut [u16]) -> io::Result<()> {
    let (first, second) = numbers.split_at(numbers.len() / 2);
    print!(out; "{} / ", entries(first))?;
    lent(out, buffers.tables(second), work)?;
    build_and_compare(out, first, &[], second, buffers, work)
}

// Builds the tables of one sheet, changes the cells at some places, and compares them with another sheet.
fn build_and_compare(
    out: Out,
    first: &[u16],
    changed: &[u16],
    second: &[u16],
    buffers: &mut Buffers,
    work: &mut [u16],
) -> io::Result<()> {
    let _ = tables::build(
        first,
        buffers.label,
        buffers.tour,
        buffers.lift,
        buffers.order,
        work,
    );
    damage::all(changed, buffers);
    compare(out, buffers.tables(second), work)
}

// Compares tables that hold sevens only.
fn sevens(out: Out, tables: Lent, work: &mut [u16]) -> io::Result<()> {
    lent(out, tables, work)?;
    print!(out; ", sevens")?;
    compare(out, tables, work)
}

// Compares tables with a sheet, and prints the rest of the line.
pub fn compare(out: Out, tables: Lent, work: &mut [u16]) -> io::Result<()> {
    work.fill(BEFORE);
    let r = tables::compare(tables, work);
    println!(out; "{}{}", Verdict(r), Work(work))
}
