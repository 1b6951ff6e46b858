// The plain tests: document 01's table of numbers, test after test in its order, each as its row says. Test 11 has no input: a sheet that
// passes tests 1 to 7 has a root that carries every part.

use crate::call::{Buffer, Call};
use crate::climb::Sheet;
use crate::fit::Lent;
use crate::hold::Held;

// Why a call is refused: a number of the table, and a place.
#[derive(Clone, Copy)]
pub struct Refused {
    pub number: usize,
    pub place: usize,
}

// What a call is to answer, or answered; of a trail, its count of lifts.
pub type Said = Result<usize, Refused>;

// What tests say.
pub type Verdict = Result<(), Refused>;

// A refusal with a number, at a place.
fn refuse(number: usize, place: usize) -> Verdict {
    Err(Refused { number, place })
}

// Tests 4 to 7, of a sheet.
pub fn tree(sheet: Sheet) -> Verdict {
    let Sheet { n, .. } = sheet;
    if let Some(part) = (0..n).find(|v| n <= sheet.parent(*v)) {
        return refuse(4, part);
    }
    let Some(root) = sheet.root(0) else {
        return refuse(5, 0);
    };
    if let Some(second) = sheet.root(root.saturating_add(1)) {
        return refuse(6, second);
    }
    // The lowest part that does not meet the root.
    if let Some(lost) = (0..n).find(|v| !sheet.climb(*v).any(|u| u == root)) {
        return refuse(7, lost);
    }
    Ok(())
}

// Tests 9 and 10, of a call that is lent a question.
fn listed(question: &[u16], n: usize) -> Verdict {
    if question.is_empty() {
        return refuse(9, 0);
    }
    match question.iter().position(|part| n <= usize::from(*part)) {
        Some(place) => refuse(10, place),
        None => Ok(()),
    }
}

// Tests 1 to 3: of the lengths alone.
fn lengths(call: Call, lent: Lent) -> Verdict {
    if lent.sheet == 0 {
        return refuse(1, 0);
    }
    if 16384 < lent.sheet {
        return refuse(2, 0);
    }
    match lent.first_unfit(call) {
        Some(buffer) => refuse(3, buffer as usize),
        None => Ok(()),
    }
}

// All tests of a call on a sheet, of which tests 4 to 7 say `held.tree`, with tables whose first stale cell is `held.stale`.
pub fn verdict(call: Call, held: Held, question: &[u16], lent: Lent) -> Verdict {
    lengths(call, lent)?;
    held.tree?;
    match held.stale {
        Some(cell) if call.reads_tables() => refuse(8, cell),
        _ if call.asks() => listed(question, lent.sheet),
        _ => Ok(()),
    }
}
