// The sparse rows of the tour table. A row after the first is made from the row before it and the levels at that row's positions, which stand in the halves
// of work by turns. No branch in the loops that go over a row.

ghost use Rattle.std.specs.Prelude.{◌≡◌, true, cond, ◌+◌, ◌-◌, ◌*◌, ◌≤◌, ◌<◌, ltb, length};
ghost use Rattle.tree.specs.Buffers.{visits, tour_cells};
ghost use Rattle.tree.specs.Tour.{tour_table};
ghost use Rattle.tree.specs.Ready.{Columns, TourIn, TourOwn};
ghost use Rattle.cells.specs.Cells.{AgreeAt};
ghost use Rattle.tree.specs.Tests.{limit};
ghost use Rattle.rows.specs.Rows.{RowLevels, LevelRow, SparseRow, BlocksOwn, chosen};

// Row 0, into the first 2n − 1 cells of work, and the levels at the tour's positions into those from 2n on.
pub fn first_row(parents: &[u16], label: &[u16], tour: &[u16], work: &mut [u16])
    requires { Columns parents.now label.now work.old 6 × (length tour.now ≡ tour_cells (length parents.now))
        × TourOwn parents.now tour.now (visits (length parents.now)) }
    ensures { RowLevels parents.now work.new (2 * length parents.now) 1
        × TourIn parents.now work.new (visits (length parents.now) + length parents.now)
        (visits (length parents.now)) }
{
    let n = parents.len();
    let m = 2 * n - 1;
    for i in 0..m {
        work[i] = i as u16;
        work[2 * n + i] = label[2 * n + tour[i] as usize];
    }
}

// A row of the tour table: where it begins, how many cells its blocks have, and from where on the levels at its positions stand in work.
#[derive(Clone, Copy)]
pub struct Row {
    pub at: usize,
    pub half: usize,
    pub from: usize,
}

impl Row {
    // Row 0 of a sheet of n parts, whose levels stand in the second half of work.
    pub fn first(n: usize) -> Row
        requires { (0 < n) × (n ≤ limit) }
        ensures { (result.at ≡ visits n + n) × (result.half ≡ 1) × (result.from ≡ 2 * n) }
    {
        Row {
            at: 2 * n - 1 + n,
            half: 1,
            from: 2 * n,
        }
    }

    // The row after it: its blocks are twice as long, and its levels stand in the other half of work.
    pub fn next(self, n: usize) -> Row
        requires { (0 < n) × (n ≤ limit) × (self.at ≤ 32 * n) × (self.half ≤ visits n) × (self.from ≤ 2 * n) }
        ensures { (result.at ≡ self.at + visits n) × (result.half ≡ 2 * self.half) × (result.from ≡ 2 * n - self.from) }
    {
        Row {
            at: self.at + (2 * n - 1),
            half: 2 * self.half,
            from: 2 * n - self.from,
        }
    }

    // Makes the row after it in the table. Its own levels stand in work.
    pub fn fill_next(self, parents: &[u16], table: &mut [u16], work: &[u16])
        requires { SparseRow parents.now table.old self.at self.half self.from work.now }
        ensures { TourOwn parents.now table.new (self.at + visits (length parents.now) + visits (length parents.now)) }
    {
        let n = parents.len();
        let next = self.at + (2 * n - 1);
        let end = 2 * n - 2 * self.half;
        for i in 0..end {
            table[next + i] = self.chosen(table, work, i);
        }
        cells::fill(table, next + end, 2 * self.half - 1, cells::NONE);
    }

    // How many cells of the row after it, in the table, are the sheet's own before the first that is not. The other half of work is made use of.
    pub fn agree_next(self, parents: &[u16], table: &[u16], work: &mut [u16]) -> usize
        requires { SparseRow parents.now table.now self.at self.half self.from work.old }
        ensures { RowLevels parents.now work.new self.from self.half
            × AgreeAt table.now (tour_table parents.now) (self.at + visits (length parents.now)) (visits (length parents.now)) result }
    {
        let n = parents.len();
        let end = 2 * n - 2 * self.half;
        let same = self.agree_blocks(parents, table, work);
        if same < end {
            return same;
        }
        let to = 2 * n - self.from;
        let rest = 2 * self.half - 1;
        cells::fill(work, to, rest, cells::NONE);
        end + cells::agree(table, self.at + (2 * n - 1) + end, work, to, rest)
    }

    // The levels at the positions of the row after it, into the other half of work: the least of each two.
    pub fn next_levels(self, parents: &[u16], work: &mut [u16])
        requires { LevelRow parents.now self.half self.from work.old }
        ensures { RowLevels parents.now work.new (2 * length parents.now - self.from) (2 * self.half) }
    {
        let n = parents.len();
        let to = 2 * n - self.from;
        for i in 0..2 * n - 2 * self.half {
            work[to + i] = work[self.from + i].min(work[self.from + i + self.half]);
        }
    }

    // Whether the cells of the row after it are the sheet's own, as far as its blocks do not pass the end: no bit differs in any. No cell is left out, so
    // that the loop needs no branch.
    fn blocks_hold(self, parents: &[u16], table: &[u16], work: &[u16]) -> bool
        requires { SparseRow parents.now table.now self.at self.half self.from work.now }
        ensures { result ≡ true → BlocksOwn parents.now table.now self.at self.half }
    {
        let n = parents.len();
        let next = self.at + (2 * n - 1);
        let mut bits = 0;
        for i in 0..2 * n - 2 * self.half {
            let own = self.chosen(table, work, i);
            bits |= table[next + i] ^ own;
        }
        bits == 0
    }

    // How many of these cells are, before the first that is not.
    fn agree_blocks(self, parents: &[u16], table: &[u16], work: &[u16]) -> usize
        requires { SparseRow parents.now table.now self.at self.half self.from work.now }
        ensures { AgreeAt table.now (tour_table parents.now) (self.at + visits (length parents.now))
            (2 * length parents.now - 2 * self.half) result }
    {
        let n = parents.len();
        let next = self.at + (2 * n - 1);
        let end = 2 * n - 2 * self.half;
        if self.blocks_hold(parents, table, work) {
            return end;
        }
        for i in 0..end {
            let own = self.chosen(table, work, i);
            if table[next + i] != own {
                return i;
            }
        }
        end
    }

    // Cell i of the row after it: of the positions of two blocks side by side, the one of lesser level.
    fn chosen(self, table: &[u16], work: &[u16], i: usize) -> u16
        requires row { self.at + i + self.half < length table.now }
        requires levels { self.from + i + self.half < length work.now }
        ensures { result ≡ chosen table.now work.now self.at self.half self.from i }
    {
        let Row { at, half, from } = self;
        leftmost(
            table[at + i],
            work[from + i],
            table[at + i + half],
            work[from + i + half],
        )
    }
}

// Of two positions, at levels i and j, the one of lesser level, the left one at equal levels. It is given all four, so that the choice is a value and not
// a branch.
fn leftmost(left: u16, i: u16, right: u16, j: u16) -> u16
    ensures { result ≡ cond (ltb j i) right left }
{
    if j < i { right } else { left }
}
