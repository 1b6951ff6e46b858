// The sections of the tour table and the rows of the lift table, from the sheet and the sections before them. A section that is made in work serves building
// and comparing alike: a call of `tables` copies it out, or looks for the first cell that differs from it. The rows after the first are filled
// straight into their table, and compared without being made. The sheet is one rooted tree, and work has its exact length.

#![tactic(auto)]

pub mod lifts;
pub mod sparse;

ghost use Rattle.std.specs.Prelude.{◌≡◌, ◌-◌, ◌*◌, ◌≤◌, ◌<◌, length};
ghost use Rattle.tree.specs.Buffers.{visits};
ghost use Rattle.tree.specs.Ready.{Columns, TourIn};

// The tour, into the first 2n − 1 cells of work: a node stands at its first position, and its parent stands after the last of its visits.
// For the root that is the cell behind the tour.
pub fn visits(parents: &[u16], label: &[u16], work: &mut [u16])
    requires { Columns parents.now label.now work.old 6 }
    ensures { TourIn parents.now work.new 0 (visits (length parents.now)) }
{
    let n = parents.len();
    for v in 0..n {
        let first = first_visit(label[v], label[2 * n + v]);
        work[first] = v as u16;
        work[first + 2 * label[n + v] as usize - 1] = parents[v];
    }
}

// A node's first position in the tour.
fn first_visit(preorder: u16, level: u16) -> usize
    requires { (0 < preorder) × (level ≤ 2 * (preorder - 1)) }
    ensures { result ≡ 2 * (preorder - 1) - level }
{
    2 * (preorder as usize - 1) - level as usize
}

// The first positions, into the first n cells of work.
pub fn first_visits(parents: &[u16], label: &[u16], work: &mut [u16])
    requires { Columns parents.now label.now work.old 6 }
    ensures { TourIn parents.now work.new (visits (length parents.now)) (length parents.now) }
{
    let n = parents.len();
    for v in 0..n {
        work[v] = first_visit(label[v], label[2 * n + v]) as u16;
    }
}
