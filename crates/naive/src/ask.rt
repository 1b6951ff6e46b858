// Asking pairs and trails.

use crate::call::{Call, ROUTES};
use crate::fit::Lent;
use crate::hold::{Held, hold};
use crate::junk::cell;
use crate::log::{Log, Random};
use arrayvec::ArrayVec;

// A question of as many pairs as are asked.
type Question = ArrayVec<u16, 600>;

// How many pairs are asked of a sheet of n parts that has too many for all to be asked.
fn pairs_of(n: usize) -> usize {
    if n < 1000 { 300 } else { 100 }
}

// How many trails.
fn trails_of(n: usize) -> usize {
    if n < 1000 { 20 } else { 10 }
}

// All pairs of a small sheet, in both orders, or some at random.
fn pairs_in(n: usize, random: &mut Random) -> Question {
    let mut question = Question::new();
    if n < 18 {
        for x in 0..n {
            for y in 0..n {
                let _ = question.try_push(cell(x));
                let _ = question.try_push(cell(y));
            }
        }
    } else {
        for _ in 0..pairs_of(n) {
            let _ = question.try_push(cell(random.below(n)));
            let _ = question.try_push(cell(random.below(n)));
        }
    }
    question
}

// Asks pairs by each of the three routes.
pub fn pairs(held: Held, log: &mut Log) {
    let n = held.sheet.n;
    let question = pairs_in(n, &mut log.random);
    for route in ROUTES {
        let lent = Lent::all(route, n, question.len() / 2);
        hold(route, held, question.as_slice(), lent, log);
    }
}

// Fills a question with parts at random.
pub fn fill(n: usize, question: &mut [u16], random: &mut Random) {
    for part in question.iter_mut() {
        *part = cell(random.below(n));
    }
}

// Asks trails of random pairs.
pub fn trails(held: Held, log: &mut Log) {
    let n = held.sheet.n;
    for _ in 0..trails_of(n) {
        let mut question = [0; 2];
        fill(n, &mut question, &mut log.random);
        hold(
            Call::Trail,
            held,
            &question,
            Lent::all(Call::Trail, n, 1),
            log,
        );
    }
}
