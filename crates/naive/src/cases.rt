// What is wrong where calls are refused: lengths that do not fit, a damaged sheet, stale tables, a question of none or of what is no part; and two or three of
// these at once, of which the first test decides.

use crate::call::{BUFFERS, Buffer, Call};
use crate::damage::{Stale, Wrong, off};
use crate::fit::Lent;
use crate::junk::cell;
use crate::log::Random;

// Lengths that do not fit: a sheet of no part or of too many, a buffer a cell short or long, or two of them.
#[derive(Clone, Copy)]
pub enum Misfit {
    Bare,
    Oversize,
    Short(Buffer),
    Long(Buffer),
    Two,
}

// A question that is not answered: it lists none, or one number that is no part, or two.
#[derive(Clone, Copy)]
pub enum Unlisted {
    None,
    One,
    Two,
}

// What is wrong, in the order of the tests but for the question.
#[derive(Clone, Copy)]
pub struct Case {
    pub lengths: Option<Misfit>,
    pub sheet: Option<Wrong>,
    pub tables: Option<Stale>,
    pub question: Option<Unlisted>,
}

const NOTHING: Case = Case {
    lengths: None,
    sheet: None,
    tables: None,
    question: None,
};

impl From<Misfit> for Case {
    fn from(misfit: Misfit) -> Case {
        Case {
            lengths: Some(misfit),
            ..NOTHING
        }
    }
}

impl From<Wrong> for Case {
    fn from(wrong: Wrong) -> Case {
        Case {
            sheet: Some(wrong),
            ..NOTHING
        }
    }
}

impl From<Stale> for Case {
    fn from(stale: Stale) -> Case {
        Case {
            tables: Some(stale),
            ..NOTHING
        }
    }
}

impl From<Unlisted> for Case {
    fn from(unlisted: Unlisted) -> Case {
        Case {
            question: Some(unlisted),
            ..NOTHING
        }
    }
}

// Two and three at once.
pub const COMBINED: [Case; 4] = [
    Case {
        lengths: Some(Misfit::Two),
        sheet: Some(Wrong::Off),
        tables: None,
        question: None,
    },
    Case {
        lengths: None,
        sheet: Some(Wrong::LoopOfMany),
        tables: Some(Stale::Two),
        question: Some(Unlisted::One),
    },
    Case {
        lengths: None,
        sheet: None,
        tables: Some(Stale::Two),
        question: Some(Unlisted::None),
    },
    Case {
        lengths: None,
        sheet: None,
        tables: Some(Stale::Two),
        question: Some(Unlisted::One),
    },
];

impl Case {
    // Whether a call has the input of a case, on a sheet of n parts. A question that is not lent is no matter where the sheet is refused before.
    pub fn applies(self, call: Call, n: usize) -> bool {
        self.lengths.map_or(true, |misfit| misfit.applies(call))
            && self.sheet.map_or(true, |wrong| wrong.applies(n))
            && (self.tables.is_none() || call.reads_tables())
            && (self.question.is_none() || self.sheet.is_some() || call.asks())
    }
}

impl Misfit {
    // Whether a call has buffers that can have these lengths: of two, it is lent tables.
    fn applies(self, call: Call) -> bool {
        match self {
            Misfit::Bare | Misfit::Oversize => true,
            Misfit::Short(buffer) | Misfit::Long(buffer) => call.has_exact(buffer),
            Misfit::Two => call != Call::Check,
        }
    }

    // Lends these lengths.
    pub fn lend(self, call: Call, lent: &mut Lent, random: &mut Random) {
        match self {
            Misfit::Bare => lent.sheet = 0,
            Misfit::Oversize => lent.sheet = 16385,
            Misfit::Short(buffer) => lent.shorten(buffer),
            Misfit::Long(buffer) => lent.lengthen(buffer),
            Misfit::Two => two_unfit(call, lent, random),
        }
    }
}

// Lends a cell more of a buffer, and a cell less of one after it that the call has. A list's question is free, and beside it only the other is unfit.
fn two_unfit(call: Call, lent: &mut Lent, random: &mut Random) {
    let many = BUFFERS
        .into_iter()
        .filter(|buffer| call.is_lent(*buffer))
        .count();
    let last = many.saturating_sub(1);
    let first = random.below(last);
    let behind = random.below(last.saturating_sub(first));
    lent.lengthen(nth(first, call));
    lent.shorten(nth(first.saturating_add(1).saturating_add(behind), call));
}

// Buffer i of a call, by their numbers.
fn nth(i: usize, call: Call) -> Buffer {
    let mut buffers = BUFFERS.into_iter().filter(|buffer| call.is_lent(*buffer));
    buffers.nth(i).unwrap_or(Buffer::Order)
}

impl Unlisted {
    pub const ALL: [Unlisted; 3] = [Unlisted::None, Unlisted::One, Unlisted::Two];

    // Lists nothing, or numbers that are no part.
    pub fn list(
        self,
        call: Call,
        n: usize,
        question: &mut [u16],
        lent: &mut Lent,
        random: &mut Random,
    ) {
        match self {
            Unlisted::None => {
                lent.question = 0;
                if call.asks_pairs() {
                    lent.answer = 0;
                }
            }
            Unlisted::One => no_part(n, lent.question, question, random),
            Unlisted::Two => {
                no_part(n, lent.question, question, random);
                no_part(n, lent.question, question, random);
            }
        }
    }
}

// Lists a number that is no part at one of so many positions, at random.
fn no_part(n: usize, many: usize, question: &mut [u16], random: &mut Random) {
    let i = random.below(many);
    let x = off(n, random);
    if let Some(part) = question.get_mut(i) {
        *part = cell(x);
    }
}
