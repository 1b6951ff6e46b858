// What is made along the preorder, in which each parent stands before its children: LEVEL and ASCENDANT.

ghost use Rattle.std.specs.Prelude.{◌≡◌};
ghost use Rattle.tree.specs.Ready.{Columns, ColumnIn, OrderIn};

use crate::step::Step;

// The nodes in preorder, into the first n cells of work.
pub(crate) fn order(parents: &[u16], label: &[u16], work: &mut [u16])
    requires { Columns parents.now label.now work.old 1 }
    ensures { OrderIn parents.now work.new }
{
    for v in 0..parents.len() {
        work[label[v] as usize - 1] = v as u16;
    }
}

// A column, from the order in the first n cells of work into the next n: the root's cell, and then each node's from its parent's.
pub(crate) fn column<S: Step>(parents: &[u16], label: &[u16], work: &mut [u16])
    requires { Columns parents.now label.now work.old S.COLUMN × OrderIn parents.now work.old }
    ensures { ColumnIn parents.now work.new S.COLUMN }
{
    let n = parents.len();
    work[n + work[0] as usize] = S::top(n as u16);
    for i in 1..n {
        let v = work[i] as usize;
        let more = S::more(parents, label, v);
        work[n + v] = work[n + parents[v] as usize] + more;
    }
}
