// The questions, one by one, of an accepted sheet with its own tables. Each is a call of `routes`, which tests its input and compares the tables itself.

ghost use Rattle.std.specs.Prelude.{◌≤◌};
ghost use Rattle.text.specs.Writes.{HasRoom, Writes};
ghost use Rattle.lines.specs.Forms.{pair as Forms·pair, many as Forms·many};
ghost use Rattle.lines.specs.Machine.{most};
ghost use Rattle.lines.specs.Gives.{rest_of, query_of};
ghost use Rattle.console.specs.Run.{part_line, answer as Run·answer, questions as Run·questions};
ghost use Rattle.console.specs.Gives.{AsksGive, Stands, Found};
ghost use Rattle.tree.specs.Tables.{lent_in};

use crate::print;
use crate::print::PairAnswer;
use lines::{Question, Reader};
use text::Writer;
use tree::{Lent, Refusal};

// Answers the questions that the reader has before it, the first of which is line `first`.
pub(crate) fn questions(
    mut reader: Reader,
    first: usize,
    lent: Lent<'_, '_>,
    work: &mut [u16],
    to: &mut Writer,
)
    requires first_in_bounds { first ≤ part_line most }
    requires stands { Stands (lent_in lent) work.old }
    requires room { HasRoom to.old (Run·questions lent.parents.now first (rest_of reader)) }
    ensures { Writes to.old (Run·questions lent.entry.parents.now first (rest_of reader.entry)) to.new }
{
    // No `for` over the reader: it gives nothing at an illegible line too, which is refused by its number.
    let mut number = first;
    while reader.has_more() {
        let Some(q) = question(&mut reader) else {
            return print::refusal(to, Refusal::MalformedLine(number));
        };
        answer(&q, lent, work, to);
        number += 1;
    }
}

// Takes a question line.
fn question(reader: &mut Reader) -> Option<Question>
    ensures { AsksGive reader.old reader.new result }
{
    reader.next()?.question()
}

// Answers a question.
fn answer(q: &Question, lent: Lent<'_, '_>, work: &mut [u16], to: &mut Writer)
    requires stands { Stands (lent_in lent) work.old }
    requires room { HasRoom to.old (Run·answer lent.parents.now (query_of q.now)) }
    ensures { Writes to.old (Run·answer lent.entry.parents.now (query_of q.now)) to.new }
{
    match q {
        Question::Pair(x, y) => pair(*x, *y, lent, work, to),
        Question::Many(numbers) => many(numbers.as_slice(), lent, work, to),
    }
}

// Answers a pair: its carrier and both branches are by labels.
fn pair(x: u16, y: u16, lent: Lent<'_, '_>, work: &mut [u16], to: &mut Writer)
    requires stands { Stands (lent_in lent) work.old }
    requires room { HasRoom to.old (Run·answer lent.parents.now (Forms·pair x y)) }
    ensures { Writes to.old (Run·answer lent.entry.parents.now (Forms·pair x y)) to.new }
{
    let mut answer = [0u16; routes::ANSWER_CELLS];
    if let Err(why) = routes::pairs_by_labels(lent, work, &[x, y], &mut answer) {
        return print::refusal(to, why);
    }
    let found = PairAnswer {
        carrier: answer[0],
        left: answer[1],
        right: answer[2],
    };
    lifted(x, y, found, lent, work, to)
}

// The same once these are found: its lifts are those of its trail.
fn lifted(x: u16, y: u16, found: PairAnswer, lent: Lent<'_, '_>, work: &mut [u16], to: &mut Writer)
    requires found { Found lent.parents.now x y found }
    requires stands { Stands (lent_in lent) work.old }
    requires room { HasRoom to.old (Run·answer lent.parents.now (Forms·pair x y)) }
    ensures { Writes to.old (Run·answer lent.entry.parents.now (Forms·pair x y)) to.new }
{
    let mut answer = [0u16; 1];
    let mut rows = [0u16; routes::TRAIL_CELLS];
    match routes::trail(lent, work, &[x, y], &mut answer, &mut rows) {
        Ok(lifts) => print::pair(to, x, y, found, lifts),
        Err(why) => print::refusal(to, why),
    }
}

// Answers a list.
fn many(question: &[u16], lent: Lent<'_, '_>, work: &mut [u16], to: &mut Writer)
    requires stands { Stands (lent_in lent) work.old }
    requires room { HasRoom to.old (Run·answer lent.parents.now (Forms·many question.now)) }
    ensures { Writes to.old (Run·answer lent.entry.parents.now (Forms·many question.now)) to.new }
{
    let mut answer = [0u16; 1];
    if let Err(why) = routes::list(lent, work, question, &mut answer) {
        return print::refusal(to, why);
    }
    print::many(to, question, answer[0]);
}
