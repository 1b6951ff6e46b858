// The exact lengths of the lent buffers.

ghost use Rattle.std.specs.Prelude.{◌≤◌, ◌<◌, ◌≡◌};
ghost use Rattle.tree.specs.Tests.{limit};
ghost use Rattle.tree.specs.Buffers.{sheet_fits, tables_fits, first_unfit};

use tree::{Fit, first_unfit};

// The most parts that a sheet may have.
pub(crate) const LIMIT: usize = 16384;

// The numbers of the buffers, as tree/specs/Buffers has them.
const LABEL: usize = 1;

const TOUR: usize = 2;

const LIFT: usize = 3;

const WORK: usize = 4;

const ORDER: usize = 8;

// The lowest of the tables and work that does not fit, by their lengths, for a sheet of n parts and a call that wants so much work; 0 where all fit. Sheets of
// no part and of too many have no tables, and are refused before their buffers are looked at.
pub(crate) fn tables_unfit(
    n: usize,
    label: usize,
    tour: usize,
    lift: usize,
    order: usize,
    want: usize,
    work: usize,
) -> usize
    ensures { 0 < n → n ≤ limit → result ≡ first_unfit (tables_fits n label tour lift order want work) }
{
    if n == 0 {
        return 0;
    }
    if LIMIT < n {
        return 0;
    }
    let m = 2 * n - 1;
    first_unfit(&[
        Fit::exact(LABEL, 6 * n, label),
        Fit::exact(TOUR, m * (bits::log2(m as u16) as usize + 2) + n, tour),
        Fit::exact(LIFT, n * (bits::log2(n as u16) as usize + 1), lift),
        Fit::exact(WORK, want, work),
        Fit::exact(ORDER, n, order),
    ])
}

// The number of work where it does not have so many cells, or 0.
pub(crate) fn work_unfit(want: usize, work: usize) -> usize
    ensures { result ≡ first_unfit (sheet_fits want work) }
{
    first_unfit(&[Fit::exact(WORK, want, work)])
}
