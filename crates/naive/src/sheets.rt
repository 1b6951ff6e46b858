// The sheets that are held, and what is held of each.

use crate::call::{Buffer, Call};
use crate::climb::Sheet;
use crate::fit::Lent;
use crate::hold::{Held, WORK, hold};
use crate::log::{Log, Point};
use crate::refuse::Tree;
use crate::shape::{Kind, Shape};
use crate::tests::Verdict;
use crate::{ask, lists, own, refuse, tests};

// The sizes of sheets of every shape: 1, 2, and for each power of two from 4 to 512 one less, itself and one more.
const SIZES: [usize; 26] = [
    1, 2, 3, 4, 5, 7, 8, 9, 15, 16, 17, 31, 32, 33, 63, 64, 65, 127, 128, 129, 255, 256, 257, 511,
    512, 513,
];

// The parts of a sheet of the largest size.
const LARGEST: usize = 16384;

// Holds sheets of every shape and size, and two of the largest: a chain, and a random one whose numbers are permuted.
pub fn all(sheet: &mut [u16], own: &mut [u16], log: &mut Log) {
    for n in SIZES {
        for permuted in [false, true] {
            for kind in Shape::KINDS {
                one(Shape { kind, permuted }, n, sheet, own, log);
            }
        }
    }
    let permuted = true;
    let kind = Kind::Random;
    one(Shape::FIRST, LARGEST, sheet, own, log);
    one(Shape { kind, permuted }, LARGEST, sheet, own, log);
}

// Makes a sheet and its own tables, and holds the calls on it, unless there was a disagreement before.
fn one(shape: Shape, n: usize, sheet: &mut [u16], own: &mut [u16], log: &mut Log) {
    if log.is_stopped() {
        return;
    }
    log.begin(shape, n);
    let tree = made(shape, n, sheet, own, log);
    let held = Held {
        sheet: Sheet { cells: sheet, n },
        tree,
        own,
        stale: None,
    };
    accepted(held, log);
    refuse::all(&mut Tree { n, sheet, own }, log);
}

// Makes a sheet and its own tables, and gives what the plain tests 4 to 7 say of it: that it is a tree.
fn made(shape: Shape, n: usize, cells: &mut [u16], own: &mut [u16], log: &mut Log) -> Verdict {
    let mut work = [0; WORK];
    let entries = n.min(cells.len());
    shape.make(&mut cells[..entries], &mut work, &mut log.random);
    let sheet = Sheet { cells, n };
    let _ = own::tables(sheet, &mut work, own);
    let tree = tests::tree(sheet);
    if let Err(why) = tree {
        log.agree(None, Point::Cell(Buffer::Sheet, why.place), 0, why.number);
    }
    tree
}

// Holds the calls that are accepted.
fn accepted(held: Held, log: &mut Log) {
    for call in [Call::Check, Call::Build, Call::Compare] {
        hold(call, held, &[], Lent::all(call, held.sheet.n, 0), log);
    }
    ask::pairs(held, log);
    ask::trails(held, log);
    lists::all(held, log);
}
