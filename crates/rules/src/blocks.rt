// Stretches of the tour, each covered by two blocks of the tour table: the shallowest visit of one, and where the tour comes back to a carrier.

ghost use Rattle.std.specs.Prelude.{◌≤◌, ◌<◌, length};
ghost use Rattle.bits.specs.Bits.{IsBelow};
ghost use Rattle.tree.specs.Buffers.{visits};
ghost use Rattle.tree.specs.Tables.{own};
ghost use Rattle.tree.specs.Routes.{by_blocks};
ghost use Rattle.tree.specs.Nodes.{Small};
ghost use Rattle.rules.specs.Tour.{Covers, Below, Back};

use tree::OwnTables;

// The positions that the cells of two blocks give.
#[derive(Clone, Copy)]
pub(crate) struct Covered {
    pub left: usize,
    pub right: usize,
}

// Of the positions i to j, the first of least LEVEL in each of two blocks of length 2^k, one from i on and one up to j.
fn cover(sheet: &OwnTables<'_>, i: usize, j: usize) -> Covered
    requires { Small sheet.now × (i ≤ j) × (j < visits (length sheet.now)) }
    ensures { Covers sheet.now i j result }
{
    let tour = sheet.tour();
    let n = sheet.len();
    let m = 2 * n - 1;
    let k = bits::log2((j - i + 1) as u16) as usize;
    let row = m + n + k * m;
    let left = tour[row + i] as usize;
    let right = tour[row + (j + 1 - (1 << k))] as usize;
    Covered { left, right }
}

// Of the positions i to j, the part visited at one of least LEVEL.
pub(crate) fn shallowest(sheet: &OwnTables<'_>, i: usize, j: usize) -> usize
    requires { Small sheet.now × (i ≤ j) × (j < visits (length sheet.now)) }
    ensures { IsBelow (by_blocks (own sheet.now) i j) (length sheet.now) result }
{
    let tour = sheet.tour();
    let Covered { left, right } = cover(sheet, i, j);
    crate::steps::nearer(sheet, tour[left] as usize, tour[right] as usize)
}

// Where the tour comes back to c after the first visit of x, which c carries: the first visit of c from there to c's last. Nothing shallower is visited
// between these, so a block that c stands in shows it.
pub(crate) fn back(sheet: &OwnTables<'_>, c: usize, x: usize) -> usize
    requires { Below sheet.now c x }
    ensures { Back sheet.now c x result }
{
    let tour = sheet.tour();
    let label = sheet.label();
    let n = sheet.len();
    let m = 2 * n - 1;
    let first = tour[m + x] as usize;
    let last = tour[m + c] as usize + 2 * (label[n + c] as usize) - 2;
    let Covered { left, right } = cover(sheet, first, last);
    if tour[left] as usize == c {
        left
    } else {
        right
    }
}
