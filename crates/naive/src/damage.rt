// Damage to a sheet and to tables.

use crate::climb::Sheet;
use crate::fit;
use crate::junk::cell;
use crate::log::Random;

// Two cells, each with its place and what it holds. One cell is changed twice.
pub type Cells = [(usize, u16); 2];

// One cell, twice.
fn once(at: usize, x: usize) -> Cells {
    [(at, cell(x)), (at, cell(x))]
}

// Stores two cells, and gives what they held.
pub fn change(to: Cells, cells: &mut [u16]) -> Cells {
    let held = to.map(|(at, _)| (at, cells.get(at).copied().unwrap_or(0)));
    for (at, x) in to {
        if let Some(cell) = cells.get_mut(at) {
            *cell = x;
        }
    }
    held
}

// What is wrong with a sheet.
#[derive(Clone, Copy)]
pub enum Wrong {
    // An entry off the sheet, or two.
    Off,
    TwoOff,
    // No part names itself, or two do.
    Rootless,
    SecondRoot,
    // Two parts in each other, or a part next to the root in one that it carries, or in itself.
    LoopOfTwo,
    LoopOfMany,
}

impl Wrong {
    pub const ALL: [Wrong; 6] = [
        Wrong::Off,
        Wrong::TwoOff,
        Wrong::Rootless,
        Wrong::SecondRoot,
        Wrong::LoopOfTwo,
        Wrong::LoopOfMany,
    ];

    // Whether a sheet of n parts can be wrong in this way.
    pub fn applies(self, n: usize) -> bool {
        match self {
            Wrong::Off | Wrong::TwoOff => true,
            Wrong::Rootless | Wrong::SecondRoot | Wrong::LoopOfMany => 1 < n,
            Wrong::LoopOfTwo => 2 < n,
        }
    }

    // The entries that make a sheet wrong.
    pub fn entries(self, sheet: Sheet, random: &mut Random) -> Cells {
        let n = sheet.n;
        let root = sheet.root(0).unwrap_or(n);
        match self {
            Wrong::Off => once(random.below(n), off(n, random)),
            Wrong::TwoOff => two(n, random, |_, random| off(n, random)),
            Wrong::Rootless => once(root, other(n, root, random)),
            Wrong::SecondRoot => {
                let v = other(n, root, random);
                once(v, v)
            }
            Wrong::LoopOfTwo => loop_of_two(n, root, random),
            Wrong::LoopOfMany => {
                let v = other(n, root, random);
                once(sheet.up(v, sheet.level(v).saturating_sub(1)), v)
            }
        }
    }
}

// A number that is no part of n: half the time n itself.
pub fn off(n: usize, random: &mut Random) -> usize {
    if random.below(2) == 0 {
        return n;
    }
    n.saturating_add(random.below(65536usize.saturating_sub(n)))
}

// The number that comes so many after i, with 0 behind n - 1.
fn turned(i: usize, by: usize, n: usize) -> usize {
    i.saturating_add(by).checked_rem(n).unwrap_or(0)
}

// Another of the numbers below n than i.
fn other(n: usize, i: usize, random: &mut Random) -> usize {
    let by = random.below(n.saturating_sub(1)).saturating_add(1);
    turned(i, by, n)
}

// Two of so many cells, at random, each with what `value` gives it.
fn two<F: Fn(usize, &mut Random) -> usize + Drop>(
    many: usize,
    random: &mut Random,
    value: F,
) -> Cells
    requires { F.IsAlwaysCallable value }
{
    let a = random.below(many);
    let x = value(a, random);
    let b = random.below(many);
    let y = value(b, random);
    [(a, cell(x)), (b, cell(y))]
}

// Two parts other than the root, bolted into each other.
fn loop_of_two(n: usize, root: usize, random: &mut Random) -> Cells {
    let m = n.saturating_sub(1);
    let i = random.below(m);
    let j = other(m, i, random);
    let a = turned(root, i.saturating_add(1), n);
    let b = turned(root, j.saturating_add(1), n);
    [(a, cell(b)), (b, cell(a))]
}

// Which cells of the tables are stale: one of a table, or two of any, or one twice.
#[derive(Clone, Copy)]
pub enum Stale {
    Label,
    Tour,
    Lift,
    Order,
    Two,
}

impl Stale {
    pub const ALL: [Stale; 5] = [
        Stale::Label,
        Stale::Tour,
        Stale::Lift,
        Stale::Order,
        Stale::Two,
    ];

    // The cells that make a sheet's own tables stale, end to end.
    pub fn cells(self, n: usize, own: &[u16], random: &mut Random) -> Cells {
        let tour = fit::label(n);
        let lift = tour.saturating_add(fit::tour(n));
        let order = lift.saturating_add(fit::lift(n));
        match self {
            Stale::Label => spoiled(0, tour, own, random),
            Stale::Tour => spoiled(tour, fit::tour(n), own, random),
            Stale::Lift => spoiled(lift, fit::lift(n), own, random),
            Stale::Order => spoiled(order, n, own, random),
            Stale::Two => two(
                fit::tables(n),
                random,
                |at, random| another(at, own, random),
            ),
        }
    }
}

// Another number in one of so many cells from a place on.
fn spoiled(from: usize, many: usize, own: &[u16], random: &mut Random) -> Cells {
    let at = from.saturating_add(random.below(many));
    once(at, another(at, own, random))
}

// Another number than a cell holds.
fn another(at: usize, own: &[u16], random: &mut Random) -> usize {
    let x = own.get(at).map_or(0, |x| usize::from(*x));
    other(65536, x, random)
}
