// The program (document 01, "The program") as a function on slices: what it reads is the input, what it prints is put at the start of a buffer. It reads
// lines and prints lines; what carries what is answered by the calls of `routes`, of tables that a call of `tables` built.

#![tactic(auto)]

mod ask;
mod print;
mod sheet;
mod size;

ghost use Rattle.std.specs.Prelude.{◌≤◌, ◌<◌, ◌++◌, length};
ghost use Rattle.text.specs.Writes.{HasRoom, Writes};
ghost use Rattle.lines.specs.Gives.{rest_of};
ghost use Rattle.lines.specs.Machine.{most};
ghost use Rattle.console.specs.Print.{machine_line};
ghost use Rattle.console.specs.Run.{sheet as Run·sheet, parts, sheet_run, output};
ghost use Rattle.console.specs.Gives.{Sized};
ghost use Rattle.console.specs.Whole.{room as Whole·room, RunGives};
ghost use Rattle.tree.specs.Tables.{lent_by};

use lines::Reader;
pub use size::{MOST_BYTES, MOST_ROOM, room};
use text::Writer;
use tree::{Lent, Refusal};

// A buffer that is too short: how many bytes it must have.
#[derive(Clone, Copy, Debug, PartialEq, Eq)]
pub struct Short {
    pub needed: usize,
}

// Runs the program on the input, and puts what it prints at the start of `out`, which must have `room(input.len())` bytes: how many bytes are the text. A
// shorter buffer is left as it was.
pub fn run(input: &[u8], out: &mut [u8]) -> Result<usize, Short>
    ensures { RunGives input.now out.old result out.new }
{
    let needed = size::room(input.len());
    if out.len() < needed {
        return Err(Short { needed });
    }
    let mut to = Writer::new(out);
    text(input, &mut to);
    Ok(to.count())
}

// The same, where there is room.
fn text(input: &[u8], to: &mut Writer)
    requires { HasRoom to.old (output input.now) }
    ensures { Writes to.old (output input.now) to.new }
{
    if size::MOST_BYTES < input.len() {
        return print::refusal(to, Refusal::MalformedLine(1));
    }
    match lines::machine_line(input) {
        Ok((n, reader)) => machine(reader, n, to),
        Err(why) => print::refusal(to, why),
    }
}

// A machine of n parts, whose count has passed, from the line after its line on.
fn machine(reader: Reader, n: usize, to: &mut Writer)
    requires n_nonzero { (0 < n) × (n ≤ most) }
    requires room { HasRoom to.old (machine_line n ++ sheet_run (parts n 0 (rest_of reader))) }
    ensures { Writes to.old (machine_line n ++ sheet_run (parts n 0 (rest_of reader.entry))) to.new }
{
    print::machine(to, n);
    let mut parents = [0; size::PARTS];
    let mut label = [0; size::LABEL];
    let mut tour = [0; size::TOUR];
    let mut lift = [0; size::LIFT];
    let mut order = [0; size::PARTS];
    let mut work = [0; size::WORK];
    let label_cells = 6 * n;
    let tour_cells = size::tour_cells(n);
    let lift_cells = size::lift_cells(n);
    let work_cells = 4 * n;
    read_sheet(
        reader,
        &mut parents[..n],
        &mut label[..label_cells],
        &mut tour[..tour_cells],
        &mut lift[..lift_cells],
        &mut order[..n],
        &mut work[..work_cells],
        to,
    )
}

// Reads the part lines, and goes on with the sheet. The tables are lent one by one, as `tables::build` takes them.
fn read_sheet(
    mut reader: Reader,
    parents: &mut [u16],
    label: &mut [u16],
    tour: &mut [u16],
    lift: &mut [u16],
    order: &mut [u16],
    work: &mut [u16],
    to: &mut Writer,
)
    requires sized { Sized (lent_by parents.old label.old tour.old lift.old order.old) work.old }
    requires room { HasRoom to.old (sheet_run (parts (length parents.old) 0 (rest_of reader))) }
    ensures { Writes to.old (sheet_run (parts (length parents.old) 0 (rest_of reader.entry))) to.new }
{
    match sheet::part_lines(&mut reader, parents) {
        Ok(()) => test_sheet(reader, parents, label, tour, lift, order, work, to),
        Err(number) => print::refusal(to, Refusal::MalformedLine(number)),
    }
}

// Tests a sheet and builds its tables, and answers the questions behind it.
fn test_sheet(
    reader: Reader,
    parents: &[u16],
    label: &mut [u16],
    tour: &mut [u16],
    lift: &mut [u16],
    order: &mut [u16],
    work: &mut [u16],
    to: &mut Writer,
)
    requires sized { Sized (lent_by parents.now label.old tour.old lift.old order.old) work.old }
    requires room { HasRoom to.old (sheet_run (Run·sheet parents.now (rest_of reader))) }
    ensures { Writes to.old (sheet_run (Run·sheet parents.now (rest_of reader.entry))) to.new }
{
    if let Err(why) = tables::build(parents, label, tour, lift, order, work) {
        return print::refusal(to, why);
    }
    let lent = Lent {
        parents,
        label,
        tour,
        lift,
        order,
    };
    ask::questions(reader, parents.len() + 2, lent, work, to)
}
