// Whether a sheet is one rooted tree: tests 4 to 7 of document 01's table, and its root. The loop test takes a few passes, usually, and at most log n + 2;
// where a bottom-up order is asked for as well, taking leaves off is the loop test.

#![tactic(auto)]

mod jumps;
mod scan;

ghost use Rattle.std.specs.Prelude.{◌≡◌, ℕ, ◌≤◌, length, MatchResult};
ghost use Rattle.tree.specs.Tree.{root_of};
ghost use Rattle.tree.specs.Verdict.{refused, number_of, place_of, verdict_of};
ghost use Rattle.tree.specs.Tests.{limit, verdict, tree_tests};
ghost use Rattle.tree.specs.BottomUp.{OneRoot};
ghost use Rattle.rooted.specs.Jumps.{Roomy, Rooted};
ghost use Rattle.rooted.specs.Tested.{TreeTested};

use tree::Refusal;

// The part that names itself, of a sheet that has one; else the lowest such part, or the number of parts where there is none.
pub fn root(parents: &[u16]) -> usize
    ensures { result ≡ root_of parents.now }
{
    scan::next_root(parents, 0)
}

// Tests 4 to 7, the parts counted from `shift` on. The loop test keeps its links in `work`.
pub fn test_tree(parents: &[u16], shift: usize, work: &mut [u16]) -> Result<(), Refusal>
    requires { Roomy parents.now work.old × (shift ≤ limit) }
    ensures { verdict_of result ≡ verdict (tree_tests shift parents.now) }
{
    let root = one_root(parents, shift)?;
    no_cycle(parents, root, shift, work)
}

// The same by taking leaves off: where the sheet is accepted, the first n − 1 cells of `work` are a bottom-up order afterwards, and the third n the entries
// beside it. Where some leaves cannot be taken, a part's climb never meets the root, and it is looked for.
pub fn test_tree_bottom_up(parents: &[u16], shift: usize, work: &mut [u16]) -> Result<(), Refusal>
    requires { Roomy parents.now work.old × (shift ≤ limit) }
    ensures { TreeTested parents.now shift result work.new }
{
    let root = one_root(parents, shift)?;
    if leaves::bottom_up(parents, work) {
        return Ok(());
    }
    no_cycle(parents, root, shift, work)
}

// The root of a sheet that passes tests 4 to 6. Whether they pass is told by one pass; only where they do not, the first that fails is looked for.
fn one_root(parents: &[u16], shift: usize) -> Result<usize, Refusal>
    requires { (length parents.now ≤ limit) × (shift ≤ limit) }
    ensures { MatchResult result (OneRoot parents.now)
        (λ why. verdict (tree_tests shift parents.now) ≡ refused (number_of why) (place_of why)) }
{
    match scan::lone_root(parents) {
        Some(root) => Ok(root),
        None => Err(refuse_root(parents, shift)),
    }
}

// Why a sheet is refused that does not pass tests 4 to 6.
fn refuse_root(parents: &[u16], shift: usize) -> Refusal
    requires { (length parents.now ≤ limit) × (shift ≤ limit) × ((r : ℕ) → OneRoot parents.now r → ⊥) }
    ensures { verdict (tree_tests shift parents.now) ≡ refused (number_of result) (place_of result) }
{
    let n = parents.len();
    let off = cells::first_from(parents, n);
    if off < n {
        return Refusal::ParentOutOfRange(shift + off);
    }
    let root = root(parents);
    if n <= root {
        return Refusal::NoRoot;
    }
    let second = scan::second_root(parents, root);
    Refusal::SecondRoot(shift + second)
}

// Test 7, of a sheet that passes tests 4 to 6.
fn no_cycle(parents: &[u16], root: usize, shift: usize, work: &mut [u16]) -> Result<(), Refusal>
    requires { Rooted parents.now work.old root × (shift ≤ limit) }
    ensures { verdict_of result ≡ verdict (tree_tests shift parents.now) }
{
    let v = jumps::first_cycle(parents, root, work);
    if v < parents.len() {
        return Err(Refusal::Cycle(shift + v));
    }
    Ok(())
}
