// What this program prints of lists, verdicts and buffers.

use crate::BEFORE;
use std::fmt;
use std::fmt::{Display, Formatter, Write};
use tree::{Numbered, Refusal};

// The numbers of a list, parted by spaces, or what is said where there are none.
#[derive(Drop)]
pub struct Numbers<'a, T>(pub &'a [T], pub &'a str);

impl<T: Display> Display for Numbers<'_, T> {
    fn fmt<W: Write>(&self, f: &mut Formatter<W>) -> fmt::Result {
        let Some((first, rest)) = self.0.split_first() else {
            return f.write_str(self.1);
        };
        write!(f, "{first}")?;
        for number in rest {
            write!(f, " {number}")?;
        }
        Ok(())
    }
}

// A sheet's entries.
pub fn entries(parents: &[u16]) -> Numbers<'_, u16> {
    Numbers(parents, "no entries")
}

// What is asked, or what has been found.
pub fn some(cells: &[u16]) -> Numbers<'_, u16> {
    Numbers(cells, "nothing")
}

// The places of damaged cells.
pub fn places(places: &[u16]) -> Numbers<'_, u16> {
    Numbers(places, "no place")
}

// ": accepted", or ": refused N at P".
#[derive(Drop)]
pub struct Verdict(pub Result<(), Refusal>);

impl Display for Verdict {
    fn fmt<W: Write>(&self, f: &mut Formatter<W>) -> fmt::Result {
        match self.0 {
            Ok(()) => f.write_str(": accepted"),
            Err(why) => {
                let shown = Numbered::from(why);
                write!(f, ": refused {} at {}", shown.number, shown.place)
            }
        }
    }
}

// Whether work is as it was, all sevens, or all zero.
#[derive(Drop)]
pub struct Work<'a>(pub &'a [u16]);

impl Display for Work<'_> {
    fn fmt<W: Write>(&self, f: &mut Formatter<W>) -> fmt::Result {
        f.write_str(if holds(self.0, BEFORE) {
            ", work kept"
        } else if holds(self.0, 0) {
            ", work zero"
        } else {
            ", work neither zero nor kept"
        })
    }
}

// A verdict, what became of work, and the answer.
#[derive(Drop)]
pub struct Answered<'a> {
    pub outcome: Result<(), Refusal>,
    pub work: &'a [u16],
    pub answer: &'a [u16],
}

impl Display for Answered<'_> {
    fn fmt<W: Write>(&self, f: &mut Formatter<W>) -> fmt::Result {
        write!(f, "{}{}, answer ", Verdict(self.outcome), Work(self.work))?;
        match self.outcome {
            Ok(()) => write!(f, "{}", Numbers(self.answer, "")),
            Err(_) => f.write_str(kept(self.answer, BEFORE)),
        }
    }
}

// Whether a buffer holds what it held before the call.
pub fn kept<T: PartialEq + Copy>(cells: &[T], before: T) -> &'static str {
    if holds(cells, before) {
        "kept"
    } else {
        "changed"
    }
}

// The parts of a stretch: all of up to 32, or how many there are, the first and the last.
#[derive(Drop)]
pub struct Parts<'a>(pub &'a [u16]);

impl Display for Parts<'_> {
    fn fmt<W: Write>(&self, f: &mut Formatter<W>) -> fmt::Result {
        match self.0 {
            [first, .., last] if 32 < self.0.len() => {
                write!(f, "{} parts from {first} to {last}", self.0.len())
            }
            _ => write!(f, "{}", some(self.0)),
        }
    }
}

// The count of a trail's lifts, its rows, and the cells after them.
#[derive(Drop)]
pub struct Rows<'a> {
    pub lifts: usize,
    pub cells: &'a [u16],
}

impl Display for Rows<'_> {
    fn fmt<W: Write>(&self, f: &mut Formatter<W>) -> fmt::Result {
        write!(f, ", lifts {}", self.lifts)?;
        let Some((rows, rest)) = self.cells.split_at_checked(self.lifts.saturating_mul(2)) else {
            return f.write_str(" and no room for them");
        };
        write!(f, ", rows {}, then {}", some(rows), rest.len())?;
        f.write_str(if holds(rest, u16::MAX) {
            " times 65535"
        } else {
            " cells that are not all 65535"
        })
    }
}

// Whether each cell holds x.
pub fn holds<T: PartialEq + Copy>(cells: &[T], x: T) -> bool {
    cells.iter().all(|cell| *cell == x)
}
