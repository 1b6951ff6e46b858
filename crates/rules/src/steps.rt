// The steps of the label rule, as 000 numbers them, by xor, shifts and masks.

ghost use Rattle.std.specs.Prelude.{◌≡◌, cond, ◌<◌, eqb, length};
ghost use Rattle.bits.specs.Bits.{IsBelow};
ghost use Rattle.tree.specs.Tables.{own};
ghost use Rattle.tree.specs.Routes.{nearer, step1, step2, step3, label_above};
ghost use Rattle.tree.specs.Nodes.{Pair};
ghost use Rattle.rules.specs.Steps.{Toward};

use tree::OwnTables;

// Of two parts the one of lesser LEVEL, x at equal LEVELs.
#[tactic(auto, using(crate::proofs::Cells::label_length))]
pub(crate) fn nearer(sheet: &OwnTables<'_>, x: usize, y: usize) -> usize
    requires { Pair sheet.now x y }
    ensures { IsBelow (nearer (own sheet.now) x y) (length sheet.now) result }
{
    let label = sheet.label();
    let n = sheet.len();
    if label[2 * n + x] <= label[2 * n + y] {
        x
    } else {
        y
    }
}

// Step 1: the greatest of the places of the lowest ones of both INLABELs and of the highest bit in which they differ:
// the place of the highest one of all of these bits together.
pub(crate) fn step1(ix: u16, iy: u16) -> u16
    ensures { IsBelow (step1 ix iy) 16 result }
{
    bits::log2(bits::lowest_one(ix) | bits::lowest_one(iy) | bits::xor(ix, iy))
}

// Step 2: the place of the lowest one that both ASCENDANTs have at or above place i.
#[tactic(auto, unfolding(tree::specs::Routes::step2))]
pub(crate) fn step2(i: u16, ax: u16, ay: u16) -> u16
    ensures { IsBelow (step2 i ax ay) 16 result }
{
    bits::log2(bits::lowest_one(bits::clear_below(ax & ay, i)))
}

// The INLABEL with the bits of ix above place j, a one there and zeros below it.
pub(crate) fn label_above(j: u16, ix: u16) -> u16
    requires { j < 16 }
    ensures { result ≡ label_above j ix }
{
    ((ix >> j) | 1) << j
}

// Step 3: the lowest part at or above v on the path of INLABEL iz, whose lowest one is at place j. A HEAD is read in either case, so that there is no
// branch to mispredict.
#[tactic(auto, using(crate::proofs::Cells::label_length))]
pub(crate) fn step3(sheet: &OwnTables<'_>, j: u16, iz: u16, v: usize) -> usize
    requires { Toward sheet.now v j iz }
    ensures { IsBelow (step3 (own sheet.now) j iz v) (length sheet.now) result }
{
    let label = sheet.label();
    let n = sheet.len();
    let iv = label[3 * n + v];
    let k = bits::log2(bits::bits_below(label[4 * n + v], j));
    let path = path_read(k, iv, iz) as usize;
    let head = label[5 * n + path - 1] as usize;
    let up = sheet.parents()[head] as usize;
    if iv == iz { v } else { up }
}

// The INLABEL of which step 3 reads HEAD: that which k gives, or iv where iv is iz.
fn path_read(k: u16, iv: u16, iz: u16) -> u16
    requires { k < 16 }
    ensures { result ≡ cond (eqb iv iz) iv (label_above k iv) }
{
    let above = label_above(k, iv);
    if iv == iz { iv } else { above }
}
