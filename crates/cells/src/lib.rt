// Stretches of cells: filling one, or all, clearing all, copying one from another buffer, finding the first cell in which two differ, the first that is too
// large, and whether all hold one value. A stretch is told by where it begins and how many cells it has, and is not lent as a slice, since contracts speak of
// the places of a whole table.

#![tactic(auto)]

ghost use Rattle.std.specs.Prelude.{◌≡◌, true, ℕ, ◌+◌, ◌≤◌, ◌<◌, leb, length, get_or, replicate, position};
ghost use Rattle.tree.specs.Scan.{least};
ghost use Rattle.tree.specs.Sections.{Same};
ghost use Rattle.cells.specs.Cells.{Filled, Copied, Agree};

// No cell: what a cell of a table holds where there is none.
pub const NONE: u16 = 65535;

// Stores `value` in the `count` cells from `first` on.
pub fn fill(cells: &mut [u16], first: usize, count: usize, value: u16)
    requires { first + count ≤ length cells.old }
    ensures { Filled cells.old first count value cells.new }
{
    cells[first..first + count].fill(value);
}

// Stores `value` in every cell. The slices' own `fill` says it cell by cell, of clones; here it is one equation.
pub fn fill_all(cells: &mut [u16], value: u16)
    ensures { cells.new ≡ replicate (length cells.old) value }
{
    cells.fill(value);
}

// Fills a buffer with zeros.
pub fn clear(buffer: &mut [u16])
    ensures { buffer.new ≡ replicate (length buffer.old) 0 }
{
    fill_all(buffer, 0);
}

// Copies the `count` cells of `from` from `start` on to `to`, from `at` on.
pub fn copy(to: &mut [u16], at: usize, from: &[u16], start: usize, count: usize)
    requires { (at + count ≤ length to.old) × (start + count ≤ length from.now) }
    ensures { Copied to.old at from.now start count to.new }
{
    // The slices' own `copy_from_slice` becomes a call of `memmove`, which the archive for C would then need from outside.
    for i in 0..count {
        to[at + i] = from[start + i];
    }
}

// How many of the `count` cells of `a` from `at` on are equal to those of `b` from `start` on, before the first that is not.
pub fn agree(a: &[u16], at: usize, b: &[u16], start: usize, count: usize) -> usize
    requires { (at + count ≤ length a.now) × (start + count ≤ length b.now) }
    ensures { Agree a.now at b.now start count result }
{
    if same(a, at, b, start, count) {
        return count;
    }
    for i in 0..count {
        if a[at + i] != b[start + i] {
            return i;
        }
    }
    count
}

// Whether the stretches are equal: no bit differs in any cell. It stops at no cell, so that several are compared at once; `==` of the slices would stop.
fn same(a: &[u16], at: usize, b: &[u16], start: usize, count: usize) -> bool
    requires { (at + count ≤ length a.now) × (start + count ≤ length b.now) }
    ensures { result ≡ true → Same a.now at b.now start count }
{
    let mut bits = 0;
    for i in 0..count {
        bits |= a[at + i] ^ b[start + i];
    }
    bits == 0
}

// Whether the `count` cells from `first` on all hold `value`: no bit differs in any. It stops at no cell, so that several are compared at once.
pub fn all_hold(cells: &[u16], first: usize, count: usize, value: u16) -> bool
    requires { first + count ≤ length cells.now }
    ensures { result ≡ true → (i : ℕ) → i < count → get_or cells.now (first + i) 0 ≡ value }
{
    let mut bits = 0;
    for i in 0..count {
        bits |= cells[first + i] ^ value;
    }
    bits == 0
}

// The first cell that is `bound` or more; the number of cells where there is none, as `least` of tree/specs/Scan has it.
pub fn first_from(cells: &[u16], bound: usize) -> usize
    ensures { result ≡ least (λ i. leb bound (get_or cells.now i 0)) (length cells.now) }
{
    let n = cells.len();
    if (largest(cells) as usize) < bound {
        return n;
    }
    position_from(cells, bound).unwrap_or(n)
}

// The first cell that is `bound` or more, if there is one.
fn position_from(cells: &[u16], bound: usize) -> Option<usize>
    ensures { result ≡ position (λ x. leb bound x) cells.now }
{
    cells.iter().position(|x| bound <= *x as usize)
}

// The largest cell; 0 where there is none. It stops at no cell, so that several are compared at once.
fn largest(cells: &[u16]) -> u16
    ensures { (j : ℕ) → j < length cells.now → get_or cells.now j 0 ≤ result }
{
    let mut most = 0;
    for x in cells {
        most = most.max(*x);
    }
    most
}
