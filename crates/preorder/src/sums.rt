// Whether the PREORDER and SIZE of a lent label table are the sheet's own, by what they say of each node and its parent: SIZE is one more than the sum over
// the children, and PREORDER the parent's and one more than the sum over the lower siblings. Only the sheet's own say so.

ghost use Rattle.std.specs.Prelude.{◌≡◌, true, length};
ghost use Rattle.tree.specs.Tree.{root_of};
ghost use Rattle.tree.specs.Buffers.{label_cells};
ghost use Rattle.tree.specs.Ready.{Ready, ColumnsOwn};
ghost use Rattle.preorder.specs.Sums.{Sums, Numbered, Adds};

// Whether they are. The first n cells of work are made use of.
pub(crate) fn hold(parents: &[u16], root: usize, label: &[u16], work: &mut [u16]) -> bool
    requires { Ready parents.now work.old × (root ≡ root_of parents.now) × (length label.now ≡ label_cells (length parents.now)) }
    ensures { result ≡ true → ColumnsOwn parents.now label.now 2 }
{
    let n = parents.len();
    cells::fill(work, 0, n, 1);
    label[root] == 1
        && add(parents, label, 0, root, work)
        && add(parents, label, root + 1, n, work)
        && cells::agree(label, n, work, 0, n) == n
}

// Adds the SIZE of each node from `first` on, up to `end`, to its parent's sum, in the first n cells of work. Whether each PREORDER of theirs is their parent's
// and the sum until then. SIZEs of a sheet's own table never add up to more than n: where lent ones do, the sum is not kept. The root is none of the nodes.
fn add(parents: &[u16], label: &[u16], first: usize, end: usize, work: &mut [u16]) -> bool
    requires { Adds parents.now label.now first end work.old }
    ensures { result ≡ true → Sums parents.now label.now work.new end
        × Numbered parents.now label.now first end }
{
    let n = parents.len();
    let mut bits: usize = 0;
    for v in first..end {
        let p = parents[v] as usize;
        let sum = work[p] as usize;
        let grown = sum + label[n + v] as usize;
        if n < grown {
            return false;
        }
        bits |= label[v] as usize ^ (label[p] as usize + sum);
        work[p] = grown as u16;
    }
    bits == 0
}
