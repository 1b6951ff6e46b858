// The rows of the lift table: two lifts of 2^k steps are one of 2^(k+1).

ghost use Rattle.std.specs.Prelude.{◌≡◌, true, ◌+◌, length};
ghost use Rattle.tree.specs.Lifts.{lift_table};
ghost use Rattle.tree.specs.Ready.{LiftIn, LiftOwn};
ghost use Rattle.cells.specs.Cells.{AgreeAt};
ghost use Rattle.rows.specs.Rows.{LiftRow};

// The row after the one at `at` of the lift table, into the first n cells of work. Where all cells of a row are one node, the root, so are those of
// the next.
pub fn next_lift(parents: &[u16], lift: &[u16], at: usize, work: &mut [u16])
    requires { LiftRow parents.now lift.now at work.old }
    ensures { LiftIn parents.now work.new at }
{
    let n = parents.len();
    let first = lift[at];
    if cells::all_hold(lift, at, n, first) {
        cells::fill(work, 0, n, first);
    } else {
        twice(parents, lift, at, work);
    }
}

// How many cells of that row, in the table, are the sheet's own before the first that is not. The row is made only where some are not.
pub fn agree_lift(parents: &[u16], lift: &[u16], at: usize, work: &mut [u16]) -> usize
    requires { LiftRow parents.now lift.now at work.old }
    ensures { AgreeAt lift.now (lift_table parents.now) (at + length parents.now) (length parents.now) result }
{
    let n = parents.len();
    if next_holds(parents, lift, at, work) {
        return n;
    }
    next_lift(parents, lift, at, work);
    cells::agree(lift, at + n, work, 0, n)
}

// Whether all its cells are the sheet's own.
fn next_holds(parents: &[u16], lift: &[u16], at: usize, work: &[u16]) -> bool
    requires { LiftRow parents.now lift.now at work.now }
    ensures { result ≡ true → LiftOwn parents.now lift.now at }
{
    let n = parents.len();
    let first = lift[at];
    if cells::all_hold(lift, at, n, first) {
        cells::all_hold(lift, at + n, n, first)
    } else {
        twice_holds(parents, lift, at, work)
    }
}

// The row after the one at `at`, cell by cell.
fn twice(parents: &[u16], lift: &[u16], at: usize, work: &mut [u16])
    requires { LiftRow parents.now lift.now at work.old }
    ensures { LiftIn parents.now work.new at }
{
    for v in 0..parents.len() {
        work[v] = lift[at + lift[at + v] as usize];
    }
}

// Whether they are, cell by cell: no bit differs in any.
fn twice_holds(parents: &[u16], lift: &[u16], at: usize, work: &[u16]) -> bool
    requires { LiftRow parents.now lift.now at work.now }
    ensures { result ≡ true → LiftOwn parents.now lift.now at }
{
    let n = parents.len();
    let mut bits = 0;
    for v in 0..n {
        bits |= lift[at + n + v] ^ lift[at + lift[at + v] as usize];
    }
    bits == 0
}
