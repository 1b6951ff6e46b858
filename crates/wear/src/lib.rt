// Wear by assembly (document 02, 2026-02): each part has a count, and its total is the sum of the counts of all parts that it carries. The call tests its own
// input, tests 1 to 7, and is lent no tables. `work` has four cells for each part; it is all zero afterwards, or as it was after refusals 1 to 3. An accepted
// call takes a time in proportion to the number of parts.

#![tactic(auto)]

mod sums;

ghost use Rattle.std.specs.Prelude.{◌≡◌};
ghost use Rattle.tree.specs.Buffers.{wear_fits, first_unfit};
ghost use Rattle.wear.specs.Totals.{TotalsGive};

use tree::{Fit, Refusal, first_unfit};

// The numbers of the buffers, as tree/specs/Buffers has them.
const COUNTS: usize = 9;

const TOTALS: usize = 10;

// Fills `totals` with the total of each part, from `counts`; both have a cell for each part. A refused call leaves `totals` as it was. No total passes 64 bits.
pub fn totals(
    parents: &[u16],
    work: &mut [u16],
    counts: &[u32],
    totals: &mut [u64],
) -> Result<(), Refusal>
    ensures { TotalsGive parents.now work.old counts.now totals.old
        result totals.new work.new }
{
    let n = parents.len();
    let unfit = first_unfit(&[
        Fit::exact(COUNTS, n, counts.len()),
        Fit::exact(TOTALS, n, totals.len()),
    ]);
    tables::admit_bottom_up(parents, unfit, work)?;
    sums::widen(counts, totals);
    sums::add_up(parents, work, totals);
    cells::clear(work);
    Ok(())
}
