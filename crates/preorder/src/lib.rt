// PREORDER and SIZE, the first two columns of the label table: made in work by one walk over the tree, and of a lent table told by sums, sooner than they are
// made. The sheet is one rooted tree, and work has its exact length.

#![tactic(auto)]

mod links;
mod sums;

ghost use Rattle.std.specs.Prelude.{◌≡◌, true, length};
ghost use Rattle.tree.specs.Tree.{root_of};
ghost use Rattle.tree.specs.Buffers.{label_cells};
ghost use Rattle.tree.specs.Ready.{Ready, ColumnsOwn, NumbersIn};

// PREORDER and SIZE, into the last 2n cells of work.
pub fn numbers(parents: &[u16], root: usize, work: &mut [u16])
    requires { Ready parents.now work.old × (root ≡ root_of parents.now) }
    ensures { NumbersIn parents.now work.new }
{
    links::link(parents, work);
    links::walk(parents, root, work);
}

// Whether the PREORDER and SIZE of a lent label table are the sheet's own: sooner told than they are made. The first n cells of work are made use of.
pub fn numbers_hold(parents: &[u16], root: usize, label: &[u16], work: &mut [u16]) -> bool
    requires { Ready parents.now work.old × (root ≡ root_of parents.now) × (length label.now ≡ label_cells (length parents.now)) }
    ensures { result ≡ true → ColumnsOwn parents.now label.now 2 }
{
    sums::hold(parents, root, label, work)
}
