// Holding one call: its buffers are filled with junk, what it is to answer is worked out by the plain tests, the call is made, and its answer and
// every cell that it may write are held against the model. A call that is lent tables to read is lent the sheet's own by the model, and a table
// that is built is held against them. A refused call leaves its buffers as they were, and work zero from refusal 4 on; an accepted one leaves work zero,
// and fills what it was lent to fill with what the model says.

use crate::call::{Buffer, Call};
use crate::climb::Sheet;
use crate::fit::Lent;
use crate::lend::{Outputs, cut, cut_mut, tables};
use crate::log::{Log, Point};
use crate::tests::{Refused, Said, Verdict};
use crate::{answers, build, calls, tests};

// The most cells of work, of an answer and of a trail, and one more.
pub const WORK: usize = 65537;

const ANSWER: usize = 901;

const ROWS: usize = 65;

// A sheet that calls are held on: its entries, with a cell more; what the plain tests 4 to 7 say of it; its own tables, end to end, and the first cell of
// them that is stale, if one is.
#[derive(Clone, Copy)]
pub struct Held<'a> {
    pub sheet: Sheet<'a>,
    pub tree: Verdict,
    pub own: &'a [u16],
    pub stale: Option<usize>,
}

// Holds one call. It gives the answer's first cell. Nothing is held after a disagreement.
pub fn hold(call: Call, held: Held, question: &[u16], lent: Lent, log: &mut Log) -> usize {
    let mut work = [0; WORK];
    let mut answer = [0; ANSWER];
    let mut rows = [0; ROWS];
    if log.is_stopped() {
        return 0;
    }
    let question = cut(question, lent.question);
    let want = tests::verdict(call, held, question, lent);
    let mut outputs = Outputs {
        work: cut_mut(&mut work, lent.work),
        answer: cut_mut(&mut answer, lent.answer),
        rows: cut_mut(&mut rows, lent.trail),
    };
    outputs.fill();
    if call == Call::Build {
        build::hold(want, held, lent, outputs.work, log);
        return 0;
    }
    let came = calls::make(call, tables(held, lent), question, &mut outputs);
    after(call, want, came, held.sheet, question, &outputs, log);
    usize::from(outputs.answer.first().copied().unwrap_or(0))
}

// Holds what a call answered, and its buffers, against what it was to answer.
fn after(
    call: Call,
    want: Verdict,
    came: Said,
    sheet: Sheet,
    question: &[u16],
    outputs: &Outputs,
    log: &mut Log,
) {
    same(call, want, came, log);
    held_work(call, want, outputs.work, log);
    if want.is_err() {
        log.kept(call, Buffer::Answer, outputs.answer);
        log.kept(call, Buffer::Trail, outputs.rows);
        log.refusals = log.refusals.saturating_add(1);
        return;
    }
    let answer = &*outputs.answer;
    let rows = &*outputs.rows;
    match call {
        Call::Check | Call::Build | Call::Compare => {}
        Call::Labels | Call::Tour | Call::Lifts => answers::pairs(
            call, sheet, question, answer, log,
        ),
        Call::Trail => answers::trail(came.unwrap_or(0), sheet, question, answer, rows, log),
        Call::List => answers::list(sheet, question, answer, log),
    }
}

// Holds the number and the place of a refusal; both are 0 where there is none.
pub fn same(call: Call, want: Verdict, came: Said, log: &mut Log) {
    const NONE: Refused = Refused {
        number: 0,
        place: 0,
    };
    let want = want.err().unwrap_or(NONE);
    let came = came.err().unwrap_or(NONE);
    log.agree(Some(call), Point::Number, want.number, came.number);
    log.agree(Some(call), Point::Place, want.place, came.place);
}

// Work is all zero, or as it was after refusals 1 to 3.
pub fn held_work(call: Call, want: Verdict, work: &[u16], log: &mut Log) {
    match want {
        Err(Refused { number: 1..=3, .. }) => log.kept(call, Buffer::Work, work),
        _ => log.zero(call, Buffer::Work, work),
    }
}
