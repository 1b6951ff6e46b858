// Raising a pair to its carrier with no row kept: only the powers of two that can raise it are tried.

ghost use Rattle.std.specs.Prelude.{◌≡◌, ◌≢◌, [], ◌∷◌, ◌<◌, length};
ghost use Rattle.bits.specs.Bits.{IsBelow};
ghost use Rattle.tree.specs.Tree.{climb, level};
ghost use Rattle.tree.specs.Lca.{lca};
ghost use Rattle.tree.specs.Nodes.{Small, Pair};

use crate::raise::{self, Apart, Raise};
use crate::{Sides, read};
use tree::OwnTables;

// The deeper part raised to the other's level: a pair of the same carrier.
pub(crate) fn levelled(sheet: &OwnTables<'_>, pair: Sides) -> Sides
    requires { Pair sheet.now pair.x pair.y }
    ensures { Pair sheet.now result.x result.y × (level sheet.now result.x ≡ level sheet.now result.y)
        × (lca sheet.now (result.x ∷ result.y ∷ []) ≡ lca sheet.now (pair.x ∷ pair.y ∷ [])) }
{
    let gap = raise::deeper_first(sheet, pair);
    Sides {
        x: steps_up(sheet, gap.deep, gap.steps),
        y: gap.other,
    }
}

// The part so many steps above v0, by the powers of two whose sum they are.
fn steps_up(sheet: &OwnTables<'_>, v0: usize, steps: usize) -> usize
    requires { Small sheet.now × (v0 < length sheet.now) × (steps < length sheet.now) }
    ensures { IsBelow (climb sheet.now steps v0) (length sheet.now) result }
{
    let mut v = v0;
    let mut left = steps;
    // No index is counted here: what is left falls by the power that is taken.
    while 0 < left {
        let k = bits::log2(left as u16) as usize;
        v = read::lifted(sheet, k, v);
        left -= 1 << k;
    }
    v
}

// The carrier of two different parts of one level: both are raised while they stay different, and then by one. A power above the level takes both to
// the root.
pub(crate) fn meeting(sheet: &OwnTables<'_>, start: Sides) -> usize
    requires { Pair sheet.now start.x start.y × (level sheet.now start.x ≡ level sheet.now start.y) × (start.x ≢ start.y) }
    ensures { IsBelow (lca sheet.now (start.x ∷ start.y ∷ [])) (length sheet.now) result }
{
    let top = bits::log2(read::level(sheet, start.y)) as usize + 1;
    let mut pair = start;
    for k in (0..top).rev() {
        if let Some(up) = Apart::tried(sheet, k, pair) {
            pair = up;
        }
    }
    raise::raise_both(sheet, 0, pair).x
}
