// The carrier of one pair of an accepted sheet's parts by the lift rule, and the trail of its lifts. A sheet comes with its own tables: a call of `routes`
// has compared them.

#![tactic(auto)]

mod meet;
mod raise;
mod read;

ghost use Rattle.std.specs.Prelude.{◌≡◌, length};
ghost use Rattle.bits.specs.Bits.{IsBelow};
ghost use Rattle.tree.specs.Buffers.{trail_cells};
ghost use Rattle.tree.specs.Tables.{own};
ghost use Rattle.tree.specs.Trail.{trail, by_lifts};
ghost use Rattle.tree.specs.Nodes.{Pair};
ghost use Rattle.lifting.specs.Stored.{row, Raises};

use tree::OwnTables;

// Two parts, as a row of a trail has them.
#[derive(Clone, Copy)]
pub struct Sides {
    pub x: usize,
    pub y: usize,
}

// A pair, the deeper part first, and by how many levels it is deeper.
#[derive(Clone, Copy)]
pub struct Gap {
    pub deep: usize,
    pub other: usize,
    pub steps: usize,
}

// Where a pair was raised to, and the count of the lifts until there.
#[derive(Clone, Copy)]
pub struct Raised {
    pub x: usize,
    pub y: usize,
    pub lifts: usize,
}

impl Raised {
    // The pair alone.
    fn pair(self) -> Sides
        ensures { result ≡ record { x = self.x; y = self.y } }
    {
        Sides {
            x: self.x,
            y: self.y,
        }
    }
}

// Raises x and y to their carrier by falling powers of two, and stores each lift as a row in the 64 cells of `rows`.
pub fn trail(sheet: &OwnTables<'_>, x: usize, y: usize, rows: &mut [u16]) -> Raised
    requires { Pair sheet.now x y × (length rows.old ≡ trail_cells) }
    ensures { Raises sheet.now (trail (own sheet.now) x y) (row x y) 0 rows.old result rows.new }
{
    let level = raise::levelled(sheet, Sides { x, y }, rows);
    if level.x == level.y {
        return level;
    }
    raise::raised(sheet, level, rows)
}

// The carrier of x and y by lifts: where the trail ends, with no row of it kept.
pub fn by_lifts(sheet: &OwnTables<'_>, x: usize, y: usize) -> usize
    requires { Pair sheet.now x y }
    ensures { IsBelow (by_lifts (own sheet.now) x y) (length sheet.now) result }
{
    let level = meet::levelled(sheet, Sides { x, y });
    if level.x == level.y {
        return level.x;
    }
    meet::meeting(sheet, level)
}
