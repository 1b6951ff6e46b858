// Random sheets against a plain climber. Every call of the library is made on sheets of many shapes and sizes, and its answer, every cell that it fills
// and every refusal are held against a model that is written apart from the library: document 01's definitions and tests as they stand, and
// document 02's branches (2026-03), by climbing part by part and by looking cell by cell. The first disagreement is printed, and nothing is held after
// it; where there is none, a summary says how much was held, and tools/naive.py works out how much that has to be.

#![tactic(auto)]

ghost use Rattle.std.specs.Prelude.{◌≡◌, length};

mod answers;
mod ask;
mod build;
mod call;
mod calls;
mod cases;
mod climb;
mod columns;
mod damage;
mod fit;
mod hold;
mod junk;
mod lend;
mod lists;
mod log;
mod own;
mod refuse;
mod shape;
mod sheets;
mod tests;
mod trail;
mod walk;

use log::Log;
use std::io::Print;

// The cells of a sheet of one part more than a sheet may have, and of the four tables of the largest sheet, end to end, and one more.
const SHEET: usize = 16385;

const OWN: usize = 901105;

// Cells that are all 0. The largest are made by a function, since a proof that is about such cells one by one runs out of stack.
fn zeros<const N: usize>() -> [u16; N]
    ensures { N ≡ length result }
{
    [0; N]
}

// Lends the sheet, its own tables and the log to all that is held, and prints the log: the summary, or the disagreement. Ends with status 0, whatever
// standard output takes.
fn main(rt: HostRuntime) {
    let mut sheet = zeros::<SHEET>();
    let mut own = zeros::<OWN>();
    let mut log = Log::new();
    sheets::all(&mut sheet, &mut own, &mut log);
    let _ = print!(rt; "{log}");
}
