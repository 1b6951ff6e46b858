// Sheets of 16,384 parts and one more, made by loops, the tables of three of them and questions to these, and the totals of some.

ghost use Rattle.std.specs.Prelude.{◌≡◌, length};

use crate::ask::{Call, Question};
use crate::lend::Buffers;
use crate::out::Out;
use crate::{BEFORE, ask, check, damage, lend, shape, subtree, totals, trail};
use std::io;
use std::io::Print;
use tree::Lent;

// The most parts of a sheet, and the cells of the buffers of so many.
pub const PARTS: usize = 16384;

pub const WORK: usize = 4 * PARTS;

const LABEL: usize = 6 * PARTS;

const TOUR: usize = 540656;

const LIFT: usize = 15 * PARTS;

// Stars and chains, with the root at either end.
pub fn accepted(out: Out) -> io::Result<()> {
    let mut s = [0; PARTS];
    let mut w = [BEFORE; WORK];
    print!(out; "star of 16384, root 0")?;
    check(out, &s, &mut w)?;
    s.fill(16383);
    print!(out; "star of 16384, root 16383")?;
    check(out, &s, &mut w)?;
    shape::chain_down(&mut s);
    print!(out; "chain of 16384, root 0")?;
    check(out, &s, &mut w)?;
    shape::chain_up(&mut s);
    s[16383] = 16383;
    print!(out; "chain of 16384, root 16383")?;
    check(out, &s, &mut w)
}

// Tests 2 and 3.
pub fn sizes(out: Out) -> io::Result<()> {
    let mut w = [BEFORE; WORK];
    print!(out; "16385 entries")?;
    check(out, &[0; PARTS + 1], &mut w)?;
    print!(out; "16384 entries, a cell of work short")?;
    check(out, &[0; PARTS], &mut w[1..])
}

// Test 2, before 3, of the calls that are lent tables, and of those that answer.
pub fn size_of_tables(out: Out) -> io::Result<()> {
    let s = [0; PARTS + 1];
    let mut w = [BEFORE; 4];
    let mut buffers = Buffers {
        label: &mut [BEFORE; 6],
        tour: &mut [BEFORE; 3],
        lift: &mut [BEFORE; 1],
        order: &mut [BEFORE; 1],
    };
    print!(out; "16385 entries, tables")?;
    let _ = lend::built(out, &s, &mut buffers, &mut w)?;
    print!(out; "16385 entries, compared")?;
    lend::compare(out, buffers.tables(&s), &mut w)?;
    answers(out, buffers.tables(&s), &mut w)
}

// Tests 4 to 6, at the last part.
pub fn refused(out: Out) -> io::Result<()> {
    let mut s = [0; PARTS];
    let mut w = [BEFORE; WORK];
    s[16383] = 16384;
    print!(out; "star of 16384, the last entry 16384")?;
    check(out, &s, &mut w)?;
    s[16383] = 16383;
    print!(out; "star of 16384, the last part a root too")?;
    check(out, &s, &mut w)?;
    shape::chain_up(&mut s);
    s[16383] = 0;
    print!(out; "loop of 16384")?;
    check(out, &s, &mut w)
}

// Test 7: a loop of all parts but the root, one at the end of the longest climb, and one of the last two parts.
pub fn cycles(out: Out) -> io::Result<()> {
    let mut s = [0; PARTS];
    let mut w = [BEFORE; WORK];
    shape::chain_up(&mut s);
    s[0] = 0;
    s[16383] = 1;
    print!(out; "root 0 and a loop of 16383")?;
    check(out, &s, &mut w)?;
    shape::chain_up(&mut s);
    s[16382] = 16381;
    s[16383] = 16383;
    print!(out; "climb of 16381 steps to a loop of 2")?;
    check(out, &s, &mut w)?;
    s.fill(0);
    s[16382] = 16383;
    s[16383] = 16382;
    print!(out; "star of 16382 and a loop of the last two")?;
    check(out, &s, &mut w)
}

// The tables of a star, a chain and a tree of no order, and questions to them.
pub fn tables(out: Out) -> io::Result<()> {
    let mut s = [0; PARTS];
    print!(out; "star of 16384, root 0")?;
    lend_tables(out, &s)?;
    shape::chain_down(&mut s);
    print!(out; "chain of 16384, root 0")?;
    lend_tables(out, &s)?;
    shape::scatter(&mut s, 0);
    print!(out; "tree of 16384 of no order")?;
    lend_tables(out, &s)
}

// A buffer of sevens. The largest is made by a function, since a proof that is about its cells one by one runs out of stack.
fn sevens<const N: usize>() -> [u16; N]
    ensures { N ≡ length result }
{
    [BEFORE; N]
}

// Lends the buffers of the tables of 16,384 parts.
fn lend_tables(out: Out, parents: &[u16]) -> io::Result<()> {
    let mut tour = sevens::<TOUR>();
    let mut buffers = Buffers {
        label: &mut [BEFORE; LABEL],
        tour: &mut tour,
        lift: &mut [BEFORE; LIFT],
        order: &mut [BEFORE; PARTS],
    };
    run_tables(out, parents, &mut buffers, &mut [BEFORE; WORK])
}

// Builds the tables of a sheet, compares them with it, asks, and compares them damaged: the last cell changed, then the last of the lift table too,
// and then the first cell too.
fn run_tables(
    out: Out,
    parents: &[u16],
    buffers: &mut Buffers,
    work: &mut [u16],
) -> io::Result<()> {
    print!(out; ", tables")?;
    let _ = lend::built(out, parents, buffers, work)?;
    compare(out, "compared", buffers.tables(parents), work)?;
    answers(out, buffers.tables(parents), work)?;
    damage::last(buffers.order);
    compare(out, "last cell changed", buffers.tables(parents), work)?;
    damage::last(buffers.lift);
    compare(
        out,
        "last cell of lift changed too",
        buffers.tables(parents),
        work,
    )?;
    let _ = damage::cell(buffers.label, 0);
    compare(out, "first cell changed too", buffers.tables(parents), work)
}

// Asks for nine pairs by each route, with three cells of answer for each, for two trails, for a list, and for subtrees.
fn answers(out: Out, tables: Lent, work: &mut [u16]) -> io::Result<()> {
    let pairs = [
        0, 16383, 16383, 16383, 16382, 16383, 12345, 6789, 4095, 4096, 8191, 8192, 7586, 11500,
        15297, 9876, 12290, 11371,
    ];
    ask::pairs(out, question(27, 0, &pairs), tables, work)?;
    trail::ask(out, question(1, 64, &[12290, 11371]), tables, work)?;
    trail::ask(out, question(1, 64, &[16383, 0]), tables, work)?;
    let many = question(1, 0, &[13885, 11371, 10066, 12290]);
    ask::ask(out, Call::List, many, tables, work)?;
    subtree::large(out, tables, work)
}

// A question, with so many cells of answer and of trail.
fn question(cells: usize, rows: usize, parts: &[u16]) -> Question<'_> {
    Question { cells, rows, parts }
}

// Compares tables with a sheet, and prints a line.
fn compare(out: Out, name: &str, tables: Lent, work: &mut [u16]) -> io::Result<()> {
    print!(out; "  {name}")?;
    lend::compare(out, tables, work)
}

// The totals of a star, of a chain whose parts name later ones, and of a tree of no order whose parts name earlier and later ones.
pub fn counted(out: Out) -> io::Result<()> {
    let mut s = [0; PARTS];
    print!(out; "star of 16384, root 0")?;
    totals::ask_large(out, &s)?;
    shape::chain_up(&mut s);
    s[16383] = 16383;
    print!(out; "chain of 16384, root 16383")?;
    totals::ask_large(out, &s)?;
    shape::scatter(&mut s, 5000);
    print!(out; "tree of 16384 of no order, root 5000")?;
    totals::ask_large(out, &s)
}

// No totals: test 7, and test 2, before 3.
pub fn not_counted(out: Out) -> io::Result<()> {
    let mut s = [0; PARTS];
    shape::chain_up(&mut s);
    s[0] = 0;
    s[16383] = 1;
    print!(out; "root 0 and a loop of 16383")?;
    totals::ask_large(out, &s)?;
    print!(out; "16385 entries")?;
    totals::ask_large(out, &[0; PARTS + 1])
}
