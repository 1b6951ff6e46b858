// PREORDER and SIZE by one walk over the tree, along links to each node's lowest child and next sibling.

ghost use Rattle.std.specs.Prelude.{◌≡◌, length, ◌*◌, ◌≤◌};
ghost use Rattle.tree.specs.Buffers.{work_cells};
ghost use Rattle.tree.specs.Tests.{limit};
ghost use Rattle.tree.specs.Ready.{Ready, NumbersIn};
ghost use Rattle.preorder.specs.Walk.{Links, Walks, Numbered, first_of, end_of};

// The links: each node's lowest child in the first n cells of work and its next sibling in the next n, or n where there is none, as `Links` and `first_of` of
// specs/Walk have it.
pub(crate) fn link(parents: &[u16], work: &mut [u16])
    requires { Ready parents.now work.old }
    ensures { Links parents.now work.new }
{
    let n = parents.len();
    cells::fill(work, 0, 2 * n, n as u16);
    for i in (0..n).rev() {
        let p = parents[i] as usize;
        if p != i {
            work[n + i] = work[p];
            work[p] = i as u16;
        }
    }
}

// PREORDER, in the third n cells of work, and SIZE, in the last n.
pub(crate) fn walk(parents: &[u16], root: usize, work: &mut [u16])
    requires { Walks parents.now root work.old }
    ensures { NumbersIn parents.now work.new }
{
    number(parents, root, work);
    measure(parents, work);
}

// The walk: each node's number in preorder, from 1, into the third n cells of work, and into the last n the node after all that it carries,
// or n where there is none: its next sibling, or else what comes after its parent. The node after it is its lowest child, or else that one.
// Each choice is a value, not a branch: what comes after the parent is read before the stores, so that it is there when the choice is made.
fn number(parents: &[u16], root: usize, work: &mut [u16])
    requires { Walks parents.now root work.old }
    ensures { Numbered parents.now work.new }
{
    let n = parents.len();
    work[3 * n + root] = n as u16;
    let mut v = root;
    for k in 0..n {
        let above = work[3 * n + parents[v] as usize];
        work[2 * n + v] = k as u16 + 1;
        let after = first_of(work[n + v], above, n as u16);
        work[3 * n + v] = after;
        v = first_of(work[v], after, n as u16) as usize;
    }
}

// a, or b where a is none.
fn first_of(a: u16, b: u16, none: u16) -> u16
    ensures { result ≡ first_of none a b }
{
    if a < none { a } else { b }
}

// SIZE in place of the node after: the distance to its number.
fn measure(parents: &[u16], work: &mut [u16])
    requires { Ready parents.now work.old × Numbered parents.now work.old }
    ensures { NumbersIn parents.now work.new }
{
    let n = parents.len();
    for v in 0..n {
        work[3 * n + v] = end(n, work[3 * n + v] as usize, work) - work[2 * n + v];
    }
}

// The number of a node, in the third n cells of work; of none, the number after the last.
fn end(n: usize, node: usize, work: &[u16]) -> u16
    requires { (length work.now ≡ work_cells n) × (n ≤ limit) }
    ensures { result ≡ end_of work.now n node }
{
    if node < n {
        work[2 * n + node]
    } else {
        n as u16 + 1
    }
}
