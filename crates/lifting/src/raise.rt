// Raising a pair by falling powers of two, each tried once from 2^l down, l = log n: to equal levels, and then while both stay different.

ghost use Rattle.std.specs.Prelude.{ℕ, Bool, ◌≡◌, suc, ◌+◌, ◌*◌, ◌^◌, ◌≤◌, ◌<◌, leb, length};
ghost use Rattle.bits.specs.Bits.{log2};
ghost use Rattle.tree.specs.Buffers.{trail_cells};
ghost use Rattle.tree.specs.Tables.{Lent, own};
ghost use Rattle.tree.specs.Trail.{Row, falling, gap, raise_deeper, raise_both, stays_apart, levelled, raised};
ghost use Rattle.tree.specs.Nodes.{Pair};
ghost use Rattle.lifting.specs.Gaps.{DeeperFirst};
ghost use Rattle.lifting.specs.Stored.{row, row_of, stored_row, Raises};
ghost use Rattle.lifting.specs.Tries.{Tried};

use crate::read::{level, lifted};
use crate::{Gap, Raised, Sides};
use tree::OwnTables;

// A way to raise a pair by a power of two, where the power passes a test.
pub(crate) trait Raise {
    ghost test: { Lent → ℕ → Row → Bool };

    ghost raise: { Lent → ℕ → Row → Row };

    // The pair raised by 2^k, where that power passes.
    fn tried(sheet: &OwnTables<'_>, k: usize, pair: Sides) -> Option<Sides>
        requires { Pair sheet.now pair.x pair.y × (k ≤ log2 (length sheet.now)) }
        ensures { Tried sheet.now (test (own sheet.now) k (row_of pair)) (raise (own sheet.now) k (row_of pair)) result };
}

// The deeper part alone, by no more than the difference of the levels.
pub(crate) struct Deeper;

impl Raise for Deeper {
    ghost test = { λ t k p. leb (2 ^ k) (gap t p) };

    ghost raise = { raise_deeper };

    fn tried(sheet: &OwnTables<'_>, k: usize, pair: Sides) -> Option<Sides> {
        if 1 << k <= deeper_first(sheet, pair).steps {
            Some(raise_deeper(sheet, k, pair))
        } else {
            None
        }
    }
}

// Both parts, where they stay different.
pub(crate) struct Apart;

impl Raise for Apart {
    ghost test = { stays_apart };

    ghost raise = { raise_both };

    fn tried(sheet: &OwnTables<'_>, k: usize, pair: Sides) -> Option<Sides> {
        let up = raise_both(sheet, k, pair);
        if up.x != up.y { Some(up) } else { None }
    }
}

// "raises the deeper part by falling powers of two to equal levels"
pub(crate) fn levelled(sheet: &OwnTables<'_>, pair: Sides, rows: &mut [u16]) -> Raised
    requires { Pair sheet.now pair.x pair.y × (length rows.old ≡ trail_cells) }
    ensures { Raises sheet.now (levelled (own sheet.now) (row_of pair)) (row_of pair) 0 rows.old result rows.new }
{
    let Sides { x, y } = pair;
    falling::<Deeper>(sheet, Raised { x, y, lifts: 0 }, rows)
}

// "raises both by falling powers of two while they stay different, and then both by one"
pub(crate) fn raised(sheet: &OwnTables<'_>, level: Raised, rows: &mut [u16]) -> Raised
    requires { Pair sheet.now level.x level.y × (length rows.old ≡ trail_cells) × (level.lifts + suc (log2 (length sheet.now)) < 32) }
    ensures { Raises sheet.now (raised (own sheet.now) (row level.x level.y)) (row level.x level.y) level.lifts rows.old result rows.new }
{
    let low = falling::<Apart>(sheet, level, rows);
    let up = raise_both(sheet, 0, low.pair());
    store(rows, low.lifts, up)
}

// A pair raised one way by all powers of two that pass, from 2^l down, with each lift stored as a row after those before.
fn falling<R: Raise>(sheet: &OwnTables<'_>, start: Raised, rows: &mut [u16]) -> Raised
    requires { Pair sheet.now start.x start.y × (length rows.old ≡ trail_cells) × (start.lifts + suc (log2 (length sheet.now)) ≤ 32) }
    ensures { Raises sheet.now (falling (R.test (own sheet.now)) (R.raise (own sheet.now)) (suc (log2 (length sheet.now))) (row start.x start.y))
        (row start.x start.y) start.lifts rows.old result rows.new }
{
    let top = bits::log2(sheet.len() as u16) as usize + 1;
    let mut at = start;
    for k in (0..top).rev() {
        if let Some(up) = R::tried(sheet, k, at.pair()) {
            at = store(rows, at.lifts, up);
        }
    }
    at
}

// The same pair, the deeper part first, and the difference of the levels.
pub(crate) fn deeper_first(sheet: &OwnTables<'_>, pair: Sides) -> Gap
    requires { Pair sheet.now pair.x pair.y }
    ensures { DeeperFirst sheet.now pair.x pair.y result }
{
    let Sides { x, y } = pair;
    let i = level(sheet, x) as usize;
    let j = level(sheet, y) as usize;
    let (deep, other) = if i < j { (y, x) } else { (x, y) };
    Gap {
        deep,
        other,
        steps: i.abs_diff(j),
    }
}

// The deeper part raised by 2^k.
fn raise_deeper(sheet: &OwnTables<'_>, k: usize, pair: Sides) -> Sides
    requires { Pair sheet.now pair.x pair.y × (k ≤ log2 (length sheet.now)) }
    ensures { (row_of result ≡ raise_deeper (own sheet.now) k (row_of pair)) × Pair sheet.now result.x result.y }
{
    let Sides { x, y } = pair;
    if level(sheet, y) < level(sheet, x) {
        Sides {
            x: lifted(sheet, k, x),
            y,
        }
    } else {
        Sides {
            x,
            y: lifted(sheet, k, y),
        }
    }
}

// Both parts raised by 2^k.
pub(crate) fn raise_both(sheet: &OwnTables<'_>, k: usize, pair: Sides) -> Sides
    requires { Pair sheet.now pair.x pair.y × (k ≤ log2 (length sheet.now)) }
    ensures { (row_of result ≡ raise_both (own sheet.now) k (row_of pair)) × Pair sheet.now result.x result.y }
{
    Sides {
        x: lifted(sheet, k, pair.x),
        y: lifted(sheet, k, pair.y),
    }
}

// Stores a row after `lifts` before: the pair was raised once more.
fn store(rows: &mut [u16], lifts: usize, pair: Sides) -> Raised
    requires { (2 * lifts + 1 < length rows.old) × (pair.x < 65536) × (pair.y < 65536) }
    ensures cells { rows.new ≡ stored_row rows.old lifts (row_of pair) }
    ensures raised { result ≡ record { x = pair.x; y = pair.y; lifts = lifts + 1 } }
{
    let Sides { x, y } = pair;
    rows[2 * lifts] = x as u16;
    rows[2 * lifts + 1] = y as u16;
    Raised {
        x,
        y,
        lifts: lifts + 1,
    }
}
