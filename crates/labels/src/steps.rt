// Whether a column of a lent label table is the sheet's own, by what it says of each node and its parent. Only the sheet's own says so. The columns before it
// are the sheet's own.

ghost use Rattle.std.specs.Prelude.{◌≡◌, true};
ghost use Rattle.tree.specs.Tree.{root_of};
ghost use Rattle.tree.specs.Ready.{Columns, ColumnOwn};
ghost use Rattle.labels.specs.Steps.{Steps, Follows};

use crate::step::Step;

// Whether it is: right at the root, and elsewhere the parent's with what the node adds.
pub(crate) fn hold<S: Step>(parents: &[u16], root: usize, label: &[u16], work: &[u16]) -> bool
    requires { Columns parents.now label.now work.now S.COLUMN × (root ≡ root_of parents.now) }
    ensures { result ≡ true → ColumnOwn parents.now label.now S.COLUMN }
{
    let n = parents.len();
    label[S::COLUMN * n + root] == S::top(n as u16)
        && follow::<S>(parents, label, 0, root)
        && follow::<S>(parents, label, root + 1, n)
}

// Whether the cell of each node from `first` on, up to `end`, is the parent's with what the node adds: no bit differs in any. The root is none of the nodes.
fn follow<S: Step>(parents: &[u16], label: &[u16], first: usize, end: usize) -> bool
    requires { Steps parents.now label.now first end }
    ensures { result ≡ true → Follows parents.now label.now S.COLUMN (S.more parents.now label.now) first end }
{
    let column = S::COLUMN * parents.len();
    let mut bits: usize = 0;
    for v in first..end {
        let more = S::more(parents, label, v) as usize;
        bits |= label[column + v] as usize ^ (label[column + parents[v] as usize] as usize + more);
    }
    bits == 0
}
