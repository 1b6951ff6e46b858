// The sizes of the program: its limits, and those of the buffers that it keeps, for the most parts that it takes.

ghost use Rattle.std.specs.Prelude.{◌≤◌, ◌<◌, ◌≡◌};
ghost use Rattle.tree.specs.Buffers.{tour_cells, lift_cells};
ghost use Rattle.lines.specs.Machine.{most};
ghost use Rattle.console.specs.Whole.{room as Whole·room};

// The most bytes of an input.
pub const MOST_BYTES: usize = 65536;

// How many bytes are printed at most for each byte of an input.
const PER_BYTE: usize = 5;

// How many bytes are printed at most besides.
const BESIDES: usize = 64;

// How many bytes hold whatever is printed for any input.
pub const MOST_ROOM: usize = PER_BYTE * MOST_BYTES + BESIDES;

// The entries of the most parts, and so their order table.
pub(crate) const PARTS: usize = 512;

// Their label table.
pub(crate) const LABEL: usize = 6 * PARTS;

// Their tour table.
pub(crate) const TOUR: usize = 11765;

// Their lift table.
pub(crate) const LIFT: usize = 10 * PARTS;

// Their work.
pub(crate) const WORK: usize = 4 * PARTS;

// How many bytes hold whatever is printed for an input of so many bytes.
pub fn room(bytes: usize) -> usize
    ensures { result ≡ Whole·room bytes }
{
    PER_BYTE * bytes.min(MOST_BYTES) + BESIDES
}

// The cells of the tour table of n parts.
pub(crate) fn tour_cells(n: usize) -> usize
    requires { (0 < n) × (n ≤ most) }
    ensures { (result ≡ tour_cells n) × (result ≤ 11765) }
{
    let m = 2 * n - 1;
    m * (bits::log2(m as u16) as usize + 2) + n
}

// The cells of the lift table of n parts.
pub(crate) fn lift_cells(n: usize) -> usize
    requires { n ≤ most }
    ensures { (result ≡ lift_cells n) × (result ≤ 5120) }
{
    n * (bits::log2(n as u16) as usize + 1)
}
