// Filling the four tables of an accepted sheet, section by section: each is made in work and copied out, but for the rows of the tour table after the first,
// which are filled straight into the table.

ghost use Rattle.std.specs.Prelude.{◌≡◌, ◌+◌, length};
ghost use Rattle.tree.specs.Buffers.{visits, label_cells, tour_cells, lift_cells, order_cells};
ghost use Rattle.tree.specs.Labels.{label_table};
ghost use Rattle.tree.specs.Tour.{tour_table};
ghost use Rattle.tree.specs.Lifts.{lift_table};
ghost use Rattle.tree.specs.Preorder.{preorder};
ghost use Rattle.tree.specs.Ready.{Ready, Columns, TourOwn};
ghost use Rattle.tree.specs.Tables.{lent_by};
ghost use Rattle.tables.specs.Sections.{Fits, Built};

use labels::Column;
use rows::sparse::Row;

// All four, and work is cleared.
pub(crate) fn tables(
    parents: &[u16],
    label: &mut [u16],
    tour: &mut [u16],
    lift: &mut [u16],
    order: &mut [u16],
    work: &mut [u16],
)
    requires { Fits (lent_by parents.now label.old tour.old lift.old order.old) work.old }
    ensures { Built parents.now label.new tour.new lift.new order.new work.new }
{
    self::label(parents, label, work);
    self::tour(parents, label, tour, work);
    self::lift(parents, lift, work);
    self::order(parents, label, order, work);
    cells::clear(work);
}

// The label table: PREORDER and SIZE together, then column by column.
pub(crate) fn label(parents: &[u16], table: &mut [u16], work: &mut [u16])
    requires { Ready parents.now work.old × (length table.old ≡ label_cells (length parents.now)) }
    ensures { table.new ≡ label_table parents.now }
{
    let n = parents.len();
    let root = rooted::root(parents);
    preorder::numbers(parents, root, work);
    cells::copy(table, 0, work, 2 * n, 2 * n);
    for column in Column::ALL {
        column.make(parents, root, table, work);
        cells::copy(table, column.place() * n, work, n, n);
    }
}

// The tour table: the tour, the first positions, and the rows.
pub(crate) fn tour(parents: &[u16], label: &[u16], table: &mut [u16], work: &mut [u16])
    requires { Columns parents.now label.now work.old 6 × (length table.old ≡ tour_cells (length parents.now)) }
    ensures { table.new ≡ tour_table parents.now }
{
    let n = parents.len();
    let m = 2 * n - 1;
    rows::visits(parents, label, work);
    cells::copy(table, 0, work, 0, m);
    rows::first_visits(parents, label, work);
    cells::copy(table, m, work, 0, n);
    sparse(parents, label, table, work);
}

// The rows of the tour table, behind the tour and the first positions.
fn sparse(parents: &[u16], label: &[u16], table: &mut [u16], work: &mut [u16])
    requires { Columns parents.now label.now work.old 6 × (length table.old ≡ tour_cells (length parents.now))
        × TourOwn parents.now table.old (visits (length parents.now) + length parents.now) }
    ensures { table.new ≡ tour_table parents.now }
{
    let n = parents.len();
    let m = 2 * n - 1;
    let mut row = Row::first(n);
    rows::sparse::first_row(parents, label, table, work);
    cells::copy(table, row.at, work, 0, m);
    // No index is counted: blocks grow twofold from row to row.
    while 2 * row.half <= m {
        row.fill_next(parents, table, work);
        row.next_levels(parents, work);
        row = row.next(n);
    }
}

// The lift table: the sheet is row 0, and each row is made from the one before it.
pub(crate) fn lift(parents: &[u16], table: &mut [u16], work: &mut [u16])
    requires { Ready parents.now work.old × (length table.old ≡ lift_cells (length parents.now)) }
    ensures { table.new ≡ lift_table parents.now }
{
    let n = parents.len();
    cells::copy(table, 0, parents, 0, n);
    let mut at = 0;
    let mut power = 1;
    // No index is counted: lifts grow twofold from row to row.
    while 2 * power <= n {
        rows::lifts::next_lift(parents, table, at, work);
        at += n;
        power = 2 * power;
        cells::copy(table, at, work, 0, n);
    }
}

// The order table: the parts in preorder.
pub(crate) fn order(parents: &[u16], label: &[u16], table: &mut [u16], work: &mut [u16])
    requires { Columns parents.now label.now work.old 6 × (length table.old ≡ order_cells (length parents.now)) }
    ensures { table.new ≡ preorder parents.now }
{
    labels::order(parents, label, work);
    cells::copy(table, 0, work, 0, parents.len());
}
