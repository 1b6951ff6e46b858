// A bottom-up order of a sheet: each part but the root, after all that are bolted into it, with its entry beside it. Found by taking leaves off until none is
// left; on a sheet that goes round they end too soon, so that this is a loop test as well. The sheet has passed tests 4 to 6.

#![tactic(auto)]

mod take;

ghost use Rattle.std.specs.Prelude.{◌≡◌, true, false, ℕ, ◌-◌, ◌*◌, ◌≤◌, ◌<◌, length, get_or};
ghost use Rattle.tree.specs.Tree.{Tree};
ghost use Rattle.tree.specs.Tests.{limit};
ghost use Rattle.tree.specs.BottomUp.{Edges};
ghost use Rattle.leaves.specs.Leaves.{Wooded, Falling};

// Whether the sheet is one rooted tree; and then such an order, in the first n − 1 cells of work, and the entries in its third n. Where no part names a later
// one, falling numbers are an order.
pub fn bottom_up(parents: &[u16], work: &mut [u16]) -> bool
    requires { Wooded parents.now work.old }
    ensures { (result ≡ true → Edges parents.now work.new) × (result ≡ false → Tree parents.now → ⊥) }
{
    if earlier(parents) {
        fall(parents, work);
        return true;
    }
    let found = take::leaves(parents, work);
    found + 1 == parents.len()
}

// Whether no part names a later one. Then part 0 names itself, so that of most other sheets the first entry tells.
fn earlier(parents: &[u16]) -> bool
    requires { (0 < length parents.now) × (length parents.now ≤ limit) }
    ensures { result ≡ true → (v : ℕ) → v < length parents.now → get_or parents.now v 0 ≤ v }
{
    parents[0] == 0 && none_later(parents)
}

// The same of any sheet: no entry is above its part's number by any bit. It stops at no part, so that several are compared at once.
fn none_later(parents: &[u16]) -> bool
    requires { length parents.now ≤ limit }
    ensures { result ≡ true → (v : ℕ) → v < length parents.now → get_or parents.now v 0 ≤ v }
{
    let mut bits = 0;
    for v in 0..parents.len() {
        bits |= parents[v].saturating_sub(v as u16);
    }
    bits == 0
}

// The numbers from n − 1 down to 0, in the first n cells, and beside each its entry.
fn fall(parents: &[u16], work: &mut [u16])
    requires { (length parents.now ≤ limit) × (3 * length parents.now ≤ length work.old) }
    ensures { Falling parents.now work.new (length parents.now) }
{
    let n = parents.len();
    for i in 0..n {
        work[i] = (n - 1 - i) as u16;
        work[2 * n + i] = parents[n - 1 - i];
    }
}
