// Checking a sheet, building its four tables, and comparing lent tables with it: tests 1 to 8 of document 01's table. Each call takes a time
// at most proportional to n log n for n parts, which is the size of the tables; a check usually takes a few passes over the sheet.

#![tactic(auto)]

mod fill;
mod fits;
mod stale;

ghost use Rattle.std.specs.Prelude.{◌≡◌, ◌≤◌, ◌<◌, length, IfOk};
ghost use Rattle.tree.specs.Tree.{root_of};
ghost use Rattle.tree.specs.Verdict.{verdict_of};
ghost use Rattle.tree.specs.Tests.{limit, verdict, size_tests};
ghost use Rattle.tree.specs.Buffers.{work_cells};
ghost use Rattle.tree.specs.Tables.{lent_by, lent_in};
ghost use Rattle.tree.specs.Ready.{Ready, NumbersIn};
ghost use Rattle.tables.specs.Check.{Tested, SheetGives, CheckGives, OrderGives};
ghost use Rattle.tables.specs.Lend.{BuildGives, LentGives};

use tree::{Lent, OwnTables, Refusal, lower_unfit};

// Checks the sheet `parents`: accepted if it is one rooted tree of at most 16,384 parts, else refused with document 01's number
// and place. `work` has four cells for each part. It is all zero afterwards, or as it was after refusals 1 to 3.
pub fn check(parents: &[u16], work: &mut [u16]) -> Result<(), Refusal>
    ensures { CheckGives parents.now work.old result work.new }
{
    admit_sheet(parents, 0, work)
}

// The same for every call that is lent no tables: tests 1 to 7, of a call whose lowest further buffer that does not fit is `further`, or 0, a number as
// `first_unfit` of tree/specs/Buffers states it. It is for the calls of other crates to begin with, and no call of a user's: the further buffers are not
// lent to it, so that number is taken as it is given.
pub fn admit_sheet(parents: &[u16], further: usize, work: &mut [u16]) -> Result<(), Refusal>
    ensures { SheetGives parents.now further work.old result work.new }
{
    let unfit = lower_unfit(fits::work_unfit(4 * parents.len(), work.len()), further);
    admit(parents, unfit, work)
}

// The same for a call that sums over what parts carry: where it is accepted, the first n − 1 cells of `work` are a bottom-up order of the sheet afterwards and
// its third n the entries beside it, and the call that goes by them clears them. Taking leaves off for that order is the loop test.
pub fn admit_bottom_up(parents: &[u16], further: usize, work: &mut [u16]) -> Result<(), Refusal>
    ensures { OrderGives parents.now further work.old result work.new }
{
    let unfit = lower_unfit(fits::work_unfit(4 * parents.len(), work.len()), further);
    test_sizes(parents.len(), unfit)?;
    let r = rooted::test_tree_bottom_up(parents, 0, work);
    if r.is_err() {
        cells::clear(work);
    }
    r
}

// Builds the four tables of the sheet `parents`: tests 1 to 7, and an accepted call fills every cell of `label`, `tour`, `lift` and `order`. A refused
// call changes none of them. `work` is as after `check`.
// The tables are lent one by one: a struct of four `&mut` was tried, and the toolchain's borrow checker does not cover a call that is handed one of its fields
// while another is read.
pub fn build(
    parents: &[u16],
    label: &mut [u16],
    tour: &mut [u16],
    lift: &mut [u16],
    order: &mut [u16],
    work: &mut [u16],
) -> Result<(), Refusal>
    ensures { BuildGives (lent_by parents.now label.old tour.old lift.old order.old)
        work.old result label.new tour.new lift.new order.new work.new }
{
    let n = parents.len();
    let unfit = fits::tables_unfit(
        n,
        label.len(),
        tour.len(),
        lift.len(),
        order.len(),
        4 * n,
        work.len(),
    );
    admit(parents, unfit, work)?;
    fill::tables(parents, label, tour, lift, order, work);
    Ok(())
}

// Compares the four tables with the sheet `parents`: tests 1 to 8. The tables are stale at the first cell that is not the sheet's own, counted
// from 0, the tables end to end. `work` is as after `check`.
pub fn compare(lent: Lent<'_, '_>, work: &mut [u16]) -> Result<(), Refusal>
    ensures { LentGives (lent_in lent.entry) 0 work.old result work.new }
{
    admit_lent(lent, 0, work)?;
    Ok(())
}

// The same for every call that is lent tables to read: tests 1 to 8, of a call whose lowest further buffer that does not fit is `further`, or 0. It is for the
// calls of other crates to begin with, and no call of a user's: the further buffers are not lent to it, so that number is taken as it is given. What it
// accepts is the sheet with its own tables, as a type that says so.
pub fn admit_lent<'a>(
    lent: Lent<'a, 'a>,
    further: usize,
    work: &mut [u16],
) -> Result<OwnTables<'a>, Refusal>
    ensures gives { LentGives (lent_in lent.entry) further work.old result work.new }
    ensures same { IfOk result (λ sheet. sheet ≡ lent.entry.parents.now) }
{
    let n = lent.parents.len();
    let own = fits::tables_unfit(
        n,
        lent.label.len(),
        lent.tour.len(),
        lent.lift.len(),
        lent.order.len(),
        4 * n,
        work.len(),
    );
    let unfit = lower_unfit(own, further);
    admit(lent.parents, unfit, work)?;
    let found = stale::tables(lent, work);
    cells::clear(work);
    found?;
    Ok(OwnTables::new(lent))
}

// The root of an accepted sheet; of any other, the lowest part that names itself, or the number of parts where there is none.
pub fn root(parents: &[u16]) -> usize
    ensures { result ≡ root_of parents.now }
{
    rooted::root(parents)
}

// PREORDER and SIZE of an accepted sheet, in the second half of `work`, which has four cells for each part: for the calls of other crates that go by them. The
// first half is used on the way.
pub fn numbers(parents: &[u16], work: &mut [u16])
    requires { Ready parents.now work.old }
    ensures { NumbersIn parents.now work.new }
{
    preorder::numbers(parents, root(parents), work);
}

// Tests 1 to 7, of a call whose lowest buffer that does not fit is `unfit`, or 0.
fn admit(parents: &[u16], unfit: usize, work: &mut [u16]) -> Result<(), Refusal>
    requires { 0 < length parents.now → length parents.now ≤ limit → unfit ≡ 0 → length work.old ≡ work_cells (length parents.now) }
    ensures { Tested parents.now unfit work.old result work.new }
{
    test_sizes(parents.len(), unfit)?;
    cells::clear(work);
    let r = rooted::test_tree(parents, 0, work);
    cells::clear(work);
    r
}

// Tests 1 to 3, of a sheet of n parts and a call whose lowest buffer that does not fit is `unfit`, or 0.
fn test_sizes(n: usize, unfit: usize) -> Result<(), Refusal>
    ensures { verdict_of result ≡ verdict (size_tests n unfit) }
{
    if n == 0 {
        return Err(Refusal::Empty);
    }
    if fits::LIMIT < n {
        return Err(Refusal::TooLarge);
    }
    if unfit != 0 {
        return Err(Refusal::WrongLength(unfit));
    }
    Ok(())
}
