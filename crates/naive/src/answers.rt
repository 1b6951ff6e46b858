// The answers of an accepted call against the plain climber's.

use crate::call::{Buffer, Call};
use crate::climb::Sheet;
use crate::junk::cell;
use crate::log::{Log, Point};
use crate::trail;
use crate::trail::Sides;
use arrayvec::ArrayVec;

// The answers to as many pairs as are asked.
type Answers = ArrayVec<u16, 900>;

// The answer to each pair, in three cells: its carrier, and the branches towards x and y.
pub fn pairs(call: Call, sheet: Sheet, question: &[u16], answer: &[u16], log: &mut Log) {
    let mut expected = Answers::new();
    for pair in question.chunks_exact(2) {
        if let [x, y] = pair {
            let own = answer_of(sheet, usize::from(*x), usize::from(*y));
            let _ = expected.try_extend_from_slice(&own);
        }
    }
    log.same(call, Buffer::Answer, expected.as_slice(), answer);
    log.pairs = log.pairs.saturating_add(question.len() / 2);
}

// The carrier of a pair, and its branches towards both.
fn answer_of(sheet: Sheet, x: usize, y: usize) -> [u16; 3] {
    let carrier = sheet.carrier(x, y);
    [carrier, sheet.branch(carrier, x), sheet.branch(carrier, y)].map(cell)
}

// The trail of one pair: its rows, its carrier, which is the plain climber's too, and its count, which is the formula's too.
pub fn trail(
    lifts: usize,
    sheet: Sheet,
    question: &[u16],
    answer: &[u16],
    rows: &[u16],
    log: &mut Log,
) {
    let ([x, y], [came]) = (question, answer) else {
        return;
    };
    let x = usize::from(*x);
    let y = usize::from(*y);
    let own = Sides::traced(sheet, x, y);
    let met = sheet.carrier(x, y);
    log.agree(Some(Call::Trail), Point::Lifts, own.lifts, lifts);
    log.agree_at(Call::Trail, Buffer::Answer, 0, cell(own.x), *came);
    log.same(Call::Trail, Buffer::Trail, &own.rows, rows);
    log.agree_at(Call::Trail, Buffer::Answer, 0, cell(met), *came);
    let expected = trail::lifts(sheet.level(x), sheet.level(y), sheet.level(met));
    log.agree(Some(Call::Trail), Point::Formula, expected, lifts);
    log.trails = log.trails.saturating_add(1);
}

// The carrier of a list.
pub fn list(sheet: Sheet, question: &[u16], answer: &[u16], log: &mut Log) {
    if let [came] = answer {
        let expected = cell(sheet.carrier_of(question));
        log.agree_at(Call::List, Buffer::Answer, 0, expected, *came);
    }
}
