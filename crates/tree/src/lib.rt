// What the calls of the crates above are lent and answer. The definitions that their contracts cite are in specs/, the laws about them in proofs/.

#![tactic(auto)]

mod fit;
mod own;

ghost use Rattle.std.specs.Prelude.{◌≡◌};
ghost use Rattle.tree.specs.Verdict.{number_of, place_of};

pub use fit::{Fit, first_unfit, lower_unfit};
pub use own::OwnTables;

// Why a call is refused: a case for each row of document 01's table of numbers, in its order. A case that can arise at
// more than one place holds the place, which is as wide as a length. It is the `Err` of each call; one that is accepted gives
// `Ok` of the number that it counts or the place that it finds, or of nothing.
#[derive(Clone, Copy)]
pub enum Refusal {
    // 1 "bare"
    Empty,
    // 2 "oversize"
    TooLarge,
    // 3 "misfit", at a buffer's number
    WrongLength(usize),
    // 4 "off sheet", at a part
    ParentOutOfRange(usize),
    // 5 "rootless"
    NoRoot,
    // 6 "second root", at a part
    SecondRoot(usize),
    // 7 "loop", at a part
    Cycle(usize),
    // 8 "stale", at a cell
    StaleTable(usize),
    // 9 "nothing listed"
    NothingListed,
    // 10 "no such part", at a position of the numbers that are listed
    NodeOutOfRange(usize),
    // 11 "adrift"
    NoCommonAncestor,
    // 12 "illegible", at a line
    MalformedLine(usize),
}

// A sheet and the four tables that are lent with it, to be read. The order table has a lifetime of its own, since a stretch of it may be handed back.
#[derive(Clone, Copy)]
pub struct Lent<'t, 'o> {
    pub parents: &'t [u16],
    pub label: &'t [u16],
    pub tour: &'t [u16],
    pub lift: &'t [u16],
    pub order: &'o [u16],
}

// Where the subtree of a part stands: the cell of the order table at which it begins, and the count of its cells.
#[derive(Clone, Copy)]
pub struct Located {
    pub start: usize,
    pub count: usize,
}

// A refusal as the operator sees it: its number and its place, which is 0 where there is only one.
#[derive(Clone, Copy)]
pub struct Numbered {
    pub number: u16,
    pub place: usize,
}

impl From<Refusal> for Numbered {
    ghost from_gives = { λ why r. (r.number ≡ number_of why) × (r.place ≡ place_of why) };

    fn from(why: Refusal) -> Numbered {
        let (number, place) = match why {
            Refusal::Empty => (1, 0),
            Refusal::TooLarge => (2, 0),
            Refusal::WrongLength(buffer) => (3, buffer),
            Refusal::ParentOutOfRange(part) => (4, part),
            Refusal::NoRoot => (5, 0),
            Refusal::SecondRoot(part) => (6, part),
            Refusal::Cycle(part) => (7, part),
            Refusal::StaleTable(cell) => (8, cell),
            Refusal::NothingListed => (9, 0),
            Refusal::NodeOutOfRange(position) => (10, position),
            Refusal::NoCommonAncestor => (11, 0),
            Refusal::MalformedLine(line) => (12, line),
        };
        Numbered { number, place }
    }
}
