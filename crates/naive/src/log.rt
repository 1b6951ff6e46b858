// What is held at present and how much has been held so far; the first disagreement, if there is one, and the generator of random numbers.

ghost use Rattle.std.specs.Prelude.{◌<◌};

use crate::call::{Buffer, Call};
use crate::junk::junk;
use crate::shape::Shape;
use std::fmt;
use std::fmt::{Display, Formatter, Write};

// The generator of random numbers, with its state.
#[derive(Clone, Copy)]
pub struct Random(usize);

impl Random {
    // A random number below m, by the high bits of two states; 0 if m is 0.
    pub fn below(&mut self, m: usize) -> usize {
        let a = next(self.0);
        let b = next(a);
        self.0 = b;
        let x = a / 65536 * 32768 + b / 65536;
        x.checked_rem(m).unwrap_or(0)
    }
}

// The generator's next state: x * 1103515245 + 12345, the rest by 2^31.
fn next(x: usize) -> usize
    ensures { result < 2147483648 }
{
    (x % 2147483648 * 1103515245 + 12345) % 2147483648
}

// A sheet that can be made again: its shape, how many parts it has, and the seed of its random numbers.
#[derive(Clone, Copy)]
struct Made {
    shape: Shape,
    n: usize,
    seed: usize,
}

// What is held of a call.
#[derive(Clone, Copy)]
pub enum Point {
    Cell(Buffer, usize),
    Number,
    Place,
    Lifts,
    Formula,
    WholeList,
}

impl Display for Point {
    fn fmt<W: Write>(&self, f: &mut Formatter<W>) -> fmt::Result {
        match self {
            Point::Cell(buffer, place) => write!(f, "{buffer} at {place}"),
            Point::Number => f.write_str("number"),
            Point::Place => f.write_str("place"),
            Point::Lifts => f.write_str("lifts"),
            Point::Formula => f.write_str("lifts by the formula"),
            Point::WholeList => f.write_str("carrier of the whole list"),
        }
    }
}

// What came of a call, or of the model where there is none, at a point, against what was expected.
#[derive(Clone, Copy)]
struct Disagreement {
    call: Option<Call>,
    point: Point,
    expected: usize,
    came: usize,
}

// The log: the sheet that is held, how much has been held of all, and the first disagreement.
#[derive(Clone, Copy)]
pub struct Log {
    pub random: Random,
    made: Made,
    pub sheets: usize,
    pub cells: usize,
    pub pairs: usize,
    pub trails: usize,
    pub lists: usize,
    pub refusals: usize,
    first: Option<Disagreement>,
}

impl Log {
    // Nothing has been held.
    pub fn new() -> Log {
        Log {
            random: Random(0),
            made: Made {
                shape: Shape::FIRST,
                n: 0,
                seed: 0,
            },
            sheets: 0,
            cells: 0,
            pairs: 0,
            trails: 0,
            lists: 0,
            refusals: 0,
            first: None,
        }
    }

    // Begins a sheet, and its random numbers, by a seed of its own.
    pub fn begin(&mut self, shape: Shape, n: usize) {
        let seed = self.sheets.wrapping_add(1);
        self.sheets = seed;
        self.random = Random(seed);
        self.made = Made { shape, n, seed };
    }

    // Whether there was a disagreement.
    pub fn is_stopped(&self) -> bool {
        self.first.is_some()
    }

    // Holds what came of a call, at a point, against what was expected. The first disagreement is kept, and no other.
    pub fn agree(&mut self, call: Option<Call>, point: Point, expected: usize, came: usize) {
        if expected != came && !self.is_stopped() {
            self.first = Some(Disagreement {
                call,
                point,
                expected,
                came,
            });
        }
    }

    // Holds a cell of a buffer.
    pub fn agree_at(&mut self, call: Call, buffer: Buffer, at: usize, expected: u16, came: u16) {
        let point = Point::Cell(buffer, at);
        self.agree(Some(call), point, usize::from(expected), usize::from(came));
    }

    // Holds each cell of a buffer, against what `expected` says of its place.
    fn cells_as<F: Fn(usize) -> u16 + Drop>(
        &mut self,
        call: Call,
        buffer: Buffer,
        came: &[u16],
        expected: F,
    )
        requires { F.IsAlwaysCallable expected }
    {
        for (i, x) in came.iter().enumerate() {
            self.agree_at(call, buffer, i, expected(i), *x);
        }
    }

    // Holds that a buffer has the same cells as another, which reads as 0 past its end.
    pub fn same(&mut self, call: Call, buffer: Buffer, expected: &[u16], came: &[u16]) {
        self.cells_as(
            call,
            buffer,
            came,
            |i| expected.get(i).copied().unwrap_or(0),
        );
    }

    // Holds that each cell of a buffer is 0.
    pub fn zero(&mut self, call: Call, buffer: Buffer, came: &[u16]) {
        self.cells_as(call, buffer, came, |_| 0);
    }

    // Holds that each cell of a buffer is as it was.
    pub fn kept(&mut self, call: Call, buffer: Buffer, came: &[u16]) {
        self.cells_as(call, buffer, came, junk);
    }
}

// What has been held, or the first disagreement: which call, on which sheet, at which point, what was expected and what came.
impl Display for Log {
    fn fmt<W: Write>(&self, f: &mut Formatter<W>) -> fmt::Result {
        let Some(first) = self.first else {
            return summary(self, f);
        };
        match first.call {
            Some(call) => write!(f, "{call}")?,
            None => f.write_str("the model")?,
        }
        let Made { shape, n, seed } = self.made;
        let Disagreement {
            point,
            expected,
            came,
            ..
        } = first;
        write!(f, " on a sheet of shape {shape}, size {n}, seed {seed}: ")?;
        writeln!(f, "{point}: expected {expected}, came {came}")
    }
}

// What has been held, where nothing disagreed.
fn summary<W: Write>(log: &Log, f: &mut Formatter<W>) -> fmt::Result {
    writeln!(f, "sheets {}", log.sheets)?;
    writeln!(f, "cells {}", log.cells)?;
    writeln!(f, "pairs {}", log.pairs)?;
    writeln!(f, "trails {}", log.trails)?;
    writeln!(f, "lists {}", log.lists)?;
    writeln!(f, "refusals {}", log.refusals)?;
    writeln!(f, "disagreements 0")
}
