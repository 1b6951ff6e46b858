// Comparing lent tables with an accepted sheet, section by section, up to the first cell that differs. Where a section's cells can be told to be the sheet's
// own from those before them, it is not made; the others are made in work and compared.

ghost use Rattle.std.specs.Prelude.{◌≡◌, ◌+◌, ◌*◌, length, [], ◌∷◌};
ghost use Rattle.tree.specs.Buffers.{visits, label_cells, tour_cells, lift_cells, order_cells};
ghost use Rattle.tree.specs.Labels.{label_table};
ghost use Rattle.tree.specs.Tour.{tour_table};
ghost use Rattle.tree.specs.Lifts.{lift_table};
ghost use Rattle.tree.specs.Preorder.{preorder};
ghost use Rattle.tree.specs.Sections.{first_difference};
ghost use Rattle.tree.specs.Tree.{root_of};
ghost use Rattle.tree.specs.Ready.{Ready, Columns, TourOwn};
ghost use Rattle.cells.specs.Cells.{AgreeAt};
ghost use Rattle.tree.specs.Verdict.{verdict_of};
ghost use Rattle.tree.specs.Tests.{verdict, stale_table};
ghost use Rattle.tree.specs.Tables.{lent_in};
ghost use Rattle.tables.specs.Sections.{Fits};

use labels::Column;
use rows::sparse::Row;
use tree::{Lent, Refusal};

// Test 8: the four tables end to end.
pub(crate) fn tables(lent: Lent<'_, '_>, work: &mut [u16]) -> Result<(), Refusal>
    requires { Fits (lent_in lent) work.old }
    ensures { verdict_of result ≡ verdict (stale_table (lent_in lent.entry) ∷ []) }
{
    let Lent {
        parents,
        label,
        tour,
        lift,
        order,
    } = lent;
    let at = self::label(parents, label, work);
    if at < label.len() {
        return Err(Refusal::StaleTable(at));
    }
    let at = self::tour(parents, label, tour, work);
    if at < tour.len() {
        return Err(Refusal::StaleTable(label.len() + at));
    }
    let at = self::lift(parents, lift, work);
    if at < lift.len() {
        return Err(Refusal::StaleTable(label.len() + tour.len() + at));
    }
    let at = self::order(parents, label, order, work);
    if at < order.len() {
        return Err(Refusal::StaleTable(label.len() + tour.len() + lift.len() + at));
    }
    Ok(())
}

// The first cell of a label table that is not the sheet's own; the table's length where there is none, as `first_difference` of tree/specs/Sections has it.
pub(crate) fn label(parents: &[u16], table: &[u16], work: &mut [u16]) -> usize
    requires { Ready parents.now work.old × (length table.now ≡ label_cells (length parents.now)) }
    ensures { result ≡ first_difference table.now (label_table parents.now) }
{
    let n = parents.len();
    let root = rooted::root(parents);
    let same = numbers(parents, root, table, work);
    if same < 2 * n {
        return same;
    }
    for column in Column::ALL {
        let same = column.agree(parents, root, table, work);
        if same < n {
            return column.place() * n + same;
        }
    }
    6 * n
}

// How many cells of PREORDER and SIZE are the sheet's own before the first that is not. They are made only where they are not found to be the sheet's own.
fn numbers(parents: &[u16], root: usize, table: &[u16], work: &mut [u16]) -> usize
    requires { Ready parents.now work.old × (root ≡ root_of parents.now) × (length table.now ≡ label_cells (length parents.now)) }
    ensures { AgreeAt table.now (label_table parents.now) 0 (2 * length parents.now) result }
{
    let n = parents.len();
    if preorder::numbers_hold(parents, root, table, work) {
        return 2 * n;
    }
    preorder::numbers(parents, root, work);
    cells::agree(table, 0, work, 2 * n, 2 * n)
}

// The first cell of a tour table that is not the sheet's own; the table's length where there is none.
pub(crate) fn tour(parents: &[u16], label: &[u16], table: &[u16], work: &mut [u16]) -> usize
    requires { Columns parents.now label.now work.old 6 × (length table.now ≡ tour_cells (length parents.now)) }
    ensures { result ≡ first_difference table.now (tour_table parents.now) }
{
    let n = parents.len();
    let m = 2 * n - 1;
    rows::visits(parents, label, work);
    let same = cells::agree(table, 0, work, 0, m);
    if same < m {
        return same;
    }
    rows::first_visits(parents, label, work);
    let same = cells::agree(table, m, work, 0, n);
    if same < n {
        return m + same;
    }
    sparse(parents, label, table, work)
}

// The same, where the tour and the first positions are the sheet's own.
fn sparse(parents: &[u16], label: &[u16], table: &[u16], work: &mut [u16]) -> usize
    requires { Columns parents.now label.now work.old 6 × (length table.now ≡ tour_cells (length parents.now))
        × TourOwn parents.now table.now (visits (length parents.now) + length parents.now) }
    ensures { result ≡ first_difference table.now (tour_table parents.now) }
{
    let n = parents.len();
    let m = 2 * n - 1;
    let mut row = Row::first(n);
    rows::sparse::first_row(parents, label, table, work);
    let same = cells::agree(table, row.at, work, 0, m);
    if same < m {
        return row.at + same;
    }
    // No index is counted: blocks grow twofold from row to row.
    while 2 * row.half <= m {
        let same = row.agree_next(parents, table, work);
        if same < m {
            return row.at + m + same;
        }
        row.next_levels(parents, work);
        row = row.next(n);
    }
    row.at + m
}

// The first cell of a lift table that is not the sheet's own; the table's length where there is none.
pub(crate) fn lift(parents: &[u16], table: &[u16], work: &mut [u16]) -> usize
    requires { Ready parents.now work.old × (length table.now ≡ lift_cells (length parents.now)) }
    ensures { result ≡ first_difference table.now (lift_table parents.now) }
{
    let n = parents.len();
    let same = cells::agree(table, 0, parents, 0, n);
    if same < n {
        return same;
    }
    let mut at = 0;
    let mut power = 1;
    // No index is counted: lifts grow twofold from row to row.
    while 2 * power <= n {
        let same = rows::lifts::agree_lift(parents, table, at, work);
        if same < n {
            return at + n + same;
        }
        at += n;
        power = 2 * power;
    }
    at + n
}

// The first cell of an order table that is not the sheet's own; the table's length where there is none.
pub(crate) fn order(parents: &[u16], label: &[u16], table: &[u16], work: &mut [u16]) -> usize
    requires { Columns parents.now label.now work.old 6 × (length table.now ≡ order_cells (length parents.now)) }
    ensures { result ≡ first_difference table.now (preorder parents.now) }
{
    labels::order(parents, label, work);
    cells::agree(table, 0, work, 0, parents.len())
}
