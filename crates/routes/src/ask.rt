// What a question is tested for before it is answered.

ghost use Rattle.std.specs.Prelude.{◌≡◌, eqb, length, IfOk};
ghost use Rattle.tree.specs.Verdict.{verdict_of};
ghost use Rattle.tree.specs.Tests.{verdict, question_tests};
ghost use Rattle.tree.specs.Buffers.{answer_cells, pairs_fits, trail_fits, list_fits, first_unfit};
ghost use Rattle.tree.specs.Tables.{lent_in};
ghost use Rattle.tree.specs.Nodes.{Small};
ghost use Rattle.routes.specs.Answers.{Admitted};

use crate::{ANSWER_CELLS, TRAIL_CELLS};
use tree::{Fit, Lent, OwnTables, Refusal, first_unfit};

// The numbers of the buffers, as tree/specs/Buffers has them.
const QUESTION: usize = 5;

const ANSWER: usize = 6;

const TRAIL: usize = 7;

// Tests 1 to 11, of a call whose lowest buffer of 5 to 7 that does not fit is `unfit`, or 0. What is accepted is the sheet with its own tables.
pub(crate) fn admit<'a>(
    lent: Lent<'a, 'a>,
    work: &mut [u16],
    question: &[u16],
    unfit: usize,
) -> Result<OwnTables<'a>, Refusal>
    ensures gives { Admitted (lent_in lent.entry) work.old question.now unfit result work.new }
    ensures same { IfOk result (λ sheet. sheet ≡ lent.entry.parents.now) }
{
    let sheet = tables::admit_lent(lent, unfit, work)?;
    test_question(lent.parents, question)?;
    Ok(sheet)
}

// Tests 9 to 11. Test 11 is never met: the root carries every part.
fn test_question(parents: &[u16], question: &[u16]) -> Result<(), Refusal>
    requires { Small parents.now }
    ensures { verdict_of result ≡ verdict (question_tests parents.now 0 question.now) }
{
    if question.len() == 0 {
        return Err(Refusal::NothingListed);
    }
    let at = cells::first_from(question, parents.len());
    if at < question.len() {
        return Err(Refusal::NodeOutOfRange(at));
    }
    Ok(())
}

// The lowest further buffer of a call for pairs that does not fit, or 0.
pub(crate) fn pairs_unfit(question: &[u16], answer: &[u16]) -> usize
    ensures { result ≡ first_unfit (pairs_fits (length question.now) (length answer.now)) }
{
    first_unfit(&[
        Fit {
            buffer: QUESTION,
            fits: question.len() % 2 == 0,
        },
        Fit {
            buffer: ANSWER,
            fits: has_cells_for_each(question.len(), answer.len()),
        },
    ])
}

// Whether an answer has three cells for each pair of a question, by their lengths: no rest, and as many threes as pairs, so that no product is formed.
fn has_cells_for_each(question: usize, answer: usize) -> bool
    ensures { result ≡ eqb answer (answer_cells question) }
{
    answer % ANSWER_CELLS == 0 && answer / ANSWER_CELLS == question / 2
}

// The same of a call for a trail.
pub(crate) fn trail_unfit(question: &[u16], answer: &[u16], rows: &[u16]) -> usize
    ensures { result ≡ first_unfit (trail_fits (length question.now) (length answer.now) (length rows.now)) }
{
    first_unfit(&[
        Fit::exact(QUESTION, 2, question.len()),
        Fit::exact(ANSWER, 1, answer.len()),
        Fit::exact(TRAIL, TRAIL_CELLS, rows.len()),
    ])
}

// The same of a call for a list.
pub(crate) fn list_unfit(answer: &[u16]) -> usize
    ensures { result ≡ first_unfit (list_fits (length answer.now)) }
{
    first_unfit(&[Fit::exact(ANSWER, 1, answer.len())])
}
