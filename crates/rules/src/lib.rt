// The carrier of one pair of an accepted sheet's parts by the label rule and by the tour rule, the branch of a carrier towards a part, and the first and last
// of a list in preorder. A sheet comes with its own tables: a call of `routes` has compared them, once for all its pairs. After that each rule takes constant
// time a pair, and so does a branch.

#![tactic(auto)]

mod blocks;
mod steps;

ghost use Rattle.std.specs.Prelude.{◌≡◌, ◌<◌, length};
ghost use Rattle.bits.specs.Bits.{IsBelow};
ghost use Rattle.tree.specs.Tree.{Ancestor};
ghost use Rattle.tree.specs.Tables.{own};
ghost use Rattle.tree.specs.Routes.{by_labels, by_tour};
ghost use Rattle.tree.specs.Branch.{branch_at};
ghost use Rattle.tree.specs.Sharing.{first_in_preorder, last_in_preorder};
ghost use Rattle.tree.specs.Nodes.{Small, Pair, Listed};

use tree::OwnTables;

// The carrier of x and y by labels: the part of lesser LEVEL at equal INLABELs, else by steps 1 to 4 of 000.
#[tactic(auto, using(crate::proofs::Cells::label_length))]
pub fn by_labels(sheet: &OwnTables<'_>, x: usize, y: usize) -> usize
    requires { Pair sheet.now x y }
    ensures { IsBelow (by_labels (own sheet.now) x y) (length sheet.now) result }
{
    let label = sheet.label();
    let n = sheet.len();
    let ix = label[3 * n + x];
    let iy = label[3 * n + y];
    if ix == iy {
        return steps::nearer(sheet, x, y);
    }
    let i = steps::step1(ix, iy);
    let j = steps::step2(i, label[4 * n + x], label[4 * n + y]);
    let iz = steps::label_above(j, ix);
    let a = steps::step3(sheet, j, iz, x);
    let b = steps::step3(sheet, j, iz, y);
    steps::nearer(sheet, a, b)
}

// The carrier of x and y by the tour: the shallowest visit from the one's first position to the other's.
pub fn by_tour(sheet: &OwnTables<'_>, x: usize, y: usize) -> usize
    requires { Pair sheet.now x y }
    ensures { IsBelow (by_tour (own sheet.now) x y) (length sheet.now) result }
{
    let tour = sheet.tour();
    let m = 2 * sheet.len() - 1;
    let i = tour[m + x] as usize;
    let j = tour[m + y] as usize;
    blocks::shallowest(sheet, i.min(j), i.max(j))
}

// The branch of c towards x, which c carries: the part directly below c on the way to x, or c where x is c. Before the tour comes back to c, it visits that
// part.
pub fn branch(sheet: &OwnTables<'_>, c: usize, x: usize) -> usize
    requires { Small sheet.now × (x < length sheet.now) × Ancestor sheet.now c x }
    ensures { IsBelow (branch_at (own sheet.now) c x) (length sheet.now) result }
{
    if x == c {
        return c;
    }
    let tour = sheet.tour();
    let at = blocks::back(sheet, c, x);
    tour[at - 1] as usize
}

// Two of a list's parts.
#[derive(Clone, Copy)]
pub struct FirstLast {
    pub first: usize,
    pub last: usize,
}

// The first and the last part of a list in preorder.
#[tactic(auto, using(crate::proofs::Cells::label_length))]
pub fn ends(sheet: &OwnTables<'_>, question: &[u16]) -> FirstLast
    requires { Listed sheet.now question.now }
    ensures { (result.first ≡ first_in_preorder sheet.now question.now)
        × (result.last ≡ last_in_preorder sheet.now question.now) }
{
    let label = sheet.label();
    let mut first = question[0] as usize;
    let mut last = first;
    for part in &question[1..] {
        let v = *part as usize;
        if label[v] < label[first] {
            first = v;
        }
        if label[last] < label[v] {
            last = v;
        }
    }
    FirstLast { first, last }
}
