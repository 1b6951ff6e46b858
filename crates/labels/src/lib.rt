// The columns of the label table after PREORDER and SIZE, and the order of the nodes, which some are made along. Each is made in work from the sheet and the
// columns before it, for building and comparing alike: a call of `tables` copies it out, or looks for the first cell that differs from it. The sheet is one
// rooted tree, and work has its exact length. That is a clause, `Columns`, and no invariant of a type, since the label table is written while its columns are
// made, and work by each of them.

#![tactic(auto)]

mod along;
mod step;
mod steps;

ghost use Rattle.std.specs.Prelude.{◌≡◌, true, ◌+◌, ◌-◌, ◌*◌, ◌^◌, ◌≤◌, ◌<◌, length};
ghost use Rattle.bits.specs.Bits.{log2};
ghost use Rattle.tree.specs.Tree.{root_of};
ghost use Rattle.tree.specs.Labels.{label_table, topmost};
ghost use Rattle.tree.specs.Ready.{Columns, ColumnIn, ColumnOwn, OrderIn};
ghost use Rattle.cells.specs.Cells.{AgreeAt};
ghost use Rattle.labels.specs.Columns.{place_of};
ghost use Rattle.labels.specs.Heads.{head_place};

use step::Step;

// The columns after PREORDER and SIZE, each with its place in the label table.
#[derive(Clone, Copy)]
pub enum Column {
    Level = 2,
    Inlabel = 3,
    Ascendant = 4,
    Head = 5,
}

impl Column {
    // In the table's order, in which each can be made.
    pub const ALL: [Column; 4] = [
        Column::Level,
        Column::Inlabel,
        Column::Ascendant,
        Column::Head,
    ];

    // Its place in the table: it is the n cells from that many times n on.
    pub fn place(self) -> usize
        ensures { result ≡ place_of self }
    {
        self as usize
    }

    // The column, into the n cells of work from n on.
    pub fn make(self, parents: &[u16], root: usize, label: &[u16], work: &mut [u16])
        requires { Columns parents.now label.now work.old (place_of self) × (root ≡ root_of parents.now) }
        ensures { ColumnIn parents.now work.new (place_of self) }
    {
        match self {
            Column::Level => stepwise::<step::Level>(parents, label, work),
            Column::Inlabel => inlabels(parents, label, work),
            Column::Ascendant => stepwise::<step::Ascendant>(parents, label, work),
            Column::Head => heads(parents, root, label, work),
        }
    }

    // How many of its cells in a lent label table are the sheet's own before the first that is not. LEVEL and ASCENDANT are made only where they are not found
    // to be the sheet's own.
    pub fn agree(self, parents: &[u16], root: usize, label: &[u16], work: &mut [u16]) -> usize
        requires { Columns parents.now label.now work.old (place_of self) × (root ≡ root_of parents.now) }
        ensures { AgreeAt label.now (label_table parents.now) (place_of self * length parents.now) (length parents.now) result }
    {
        let n = parents.len();
        if self.holds(parents, root, label, work) {
            return n;
        }
        self.make(parents, root, label, work);
        cells::agree(label, self.place() * n, work, n, n)
    }

    // Whether it is the sheet's own there, where that is told without making it: of LEVEL and ASCENDANT.
    fn holds(self, parents: &[u16], root: usize, label: &[u16], work: &[u16]) -> bool
        requires { Columns parents.now label.now work.now (place_of self) × (root ≡ root_of parents.now) }
        ensures { result ≡ true → ColumnOwn parents.now label.now (place_of self) }
    {
        match self {
            Column::Level => steps::hold::<step::Level>(parents, root, label, work),
            Column::Ascendant => steps::hold::<step::Ascendant>(parents, root, label, work),
            Column::Inlabel | Column::Head => false,
        }
    }
}

// The nodes in preorder, which are the order table, into the first n cells of work.
pub fn order(parents: &[u16], label: &[u16], work: &mut [u16])
    requires { Columns parents.now label.now work.old 1 }
    ensures { OrderIn parents.now work.new }
{
    along::order(parents, label, work);
}

// LEVEL or ASCENDANT, into the n cells of work from n on.
fn stepwise<S: Step>(parents: &[u16], label: &[u16], work: &mut [u16])
    requires { Columns parents.now label.now work.old S.COLUMN }
    ensures { ColumnIn parents.now work.new S.COLUMN }
{
    along::order(parents, label, work);
    along::column::<S>(parents, label, work);
}

// INLABEL, into the n cells of work from n on.
fn inlabels(parents: &[u16], label: &[u16], work: &mut [u16])
    requires { Columns parents.now label.now work.old 2 }
    ensures { ColumnIn parents.now work.new 3 }
{
    let n = parents.len();
    for v in 0..n {
        work[n + v] = inlabel(label[v], label[n + v]);
    }
}

// The number with most rightmost zero bits of the `size` numbers from `preorder` on.
fn inlabel(preorder: u16, size: u16) -> u16
    requires { (0 < preorder) × (preorder + size ≤ 65535) }
    ensures { result ≡ topmost preorder size }
{
    let last = preorder + size - 1;
    last - (last & below_highest(bits::xor(preorder - 1, last)))
}

// All bits below the highest one bit of x; 0 for 0. Without a branch or a shift by a variable, several nodes are done at once.
fn below_highest(x: u16) -> u16
    ensures { result ≡ 2 ^ log2 x - 1 }
{
    let two = x | (x >> 1);
    let four = two | (two >> 2);
    let eight = four | (four >> 4);
    (eight | (eight >> 8)) >> 1
}

// HEAD, into the n cells of work from n on. A node is the head of its INLABEL where its parent's is another; the root is the head of its own.
fn heads(parents: &[u16], root: usize, label: &[u16], work: &mut [u16])
    requires { Columns parents.now label.now work.old 4 × (root ≡ root_of parents.now) }
    ensures { ColumnIn parents.now work.new 5 }
{
    let n = parents.len();
    cells::fill(work, n, n, cells::NONE);
    work[n - 1 + label[3 * n + root] as usize] = root as u16;
    for v in 0..n {
        let k = label[3 * n + v] as usize;
        let upper = label[3 * n + parents[v] as usize] as usize;
        work[place(n, k, upper)] = v as u16;
    }
}

// The cell of work for a node of INLABEL k whose parent's is upper: that of HEAD k, or cell 0, which is not of the column, where the node is
// no head.
fn place(n: usize, k: usize, upper: usize) -> usize
    requires { (0 < n) × (n + k ≤ 65535) }
    ensures { result ≡ head_place n k upper }
{
    if k == upper { 0 } else { n - 1 + k }
}
