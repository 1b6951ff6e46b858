// The carriers of pairs by each of three routes, with their branches, the trail of one pair, and the carrier of a list. Each call tests its own input (tests 1
// to 11 of document 01's table) and compares the lent tables with the sheet once for all its questions. `work` has four cells for each part; it is all zero
// afterwards, or as it was after refusals 1 to 3. A refused call alters no other buffer.

#![tactic(auto)]

mod answer;
mod ask;

ghost use Rattle.tree.specs.Routes.{by_labels, by_tour};
ghost use Rattle.tree.specs.Trail.{by_lifts};
ghost use Rattle.tree.specs.Tables.{lent_in};
ghost use Rattle.routes.specs.Rules.{rule_of};
ghost use Rattle.routes.specs.Answers.{asked_by, PairsGive, TrailGives, ListGives};

use tree::{Lent, Refusal};

// The three routes.
#[derive(Clone, Copy)]
pub enum Route {
    Labels,
    Tour,
    Lifts,
}

// The cells of a pair's answer: its carrier, and the branch from there towards x and towards y.
pub const ANSWER_CELLS: usize = 3;

// The cells of a trail: 32 rows of two.
pub const TRAIL_CELLS: usize = 64;

// The answer to each pair by labels, one of three calls that C has and README names: `question` lists the pairs, `answer` has three cells for each.
pub fn pairs_by_labels(
    lent: Lent<'_, '_>,
    work: &mut [u16],
    question: &[u16],
    answer: &mut [u16],
) -> Result<(), Refusal>
    ensures { PairsGive by_labels
        (asked_by (lent_in lent.entry) work.old question.now answer.old)
        result work.new answer.new }
{
    pairs(Route::Labels, lent, work, question, answer)
}

// The same by the tour.
pub fn pairs_by_tour(
    lent: Lent<'_, '_>,
    work: &mut [u16],
    question: &[u16],
    answer: &mut [u16],
) -> Result<(), Refusal>
    ensures { PairsGive by_tour
        (asked_by (lent_in lent.entry) work.old question.now answer.old)
        result work.new answer.new }
{
    pairs(Route::Tour, lent, work, question, answer)
}

// The same by lifts.
pub fn pairs_by_lifts(
    lent: Lent<'_, '_>,
    work: &mut [u16],
    question: &[u16],
    answer: &mut [u16],
) -> Result<(), Refusal>
    ensures { PairsGive by_lifts
        (asked_by (lent_in lent.entry) work.old question.now answer.old)
        result work.new answer.new }
{
    pairs(Route::Lifts, lent, work, question, answer)
}

// The same by the route named.
pub fn pairs(
    route: Route,
    lent: Lent<'_, '_>,
    work: &mut [u16],
    question: &[u16],
    answer: &mut [u16],
) -> Result<(), Refusal>
    ensures { PairsGive (rule_of route)
        (asked_by (lent_in lent.entry) work.old question.now answer.old)
        result work.new answer.new }
{
    let unfit = ask::pairs_unfit(question, answer);
    let sheet = ask::admit(lent, work, question, unfit)?;
    answer::pairs(route, &sheet, question, answer);
    Ok(())
}

// The trail of one pair, of two cells, in the 64 cells of `rows`: each lift's row, and 65535 after them. The carrier is the answer's one cell; the
// count of the lifts is given with it.
pub fn trail(
    lent: Lent<'_, '_>,
    work: &mut [u16],
    question: &[u16],
    answer: &mut [u16],
    rows: &mut [u16],
) -> Result<usize, Refusal>
    ensures { TrailGives
        (asked_by (lent_in lent.entry) work.old question.now answer.old)
        rows.old result work.new answer.new rows.new }
{
    let unfit = ask::trail_unfit(question, answer, rows);
    let sheet = ask::admit(lent, work, question, unfit)?;
    Ok(answer::trail(&sheet, question, answer, rows))
}

// The carrier of a list of parts, in the answer's one cell: that of the first and the last of them in preorder.
pub fn list(
    lent: Lent<'_, '_>,
    work: &mut [u16],
    question: &[u16],
    answer: &mut [u16],
) -> Result<(), Refusal>
    ensures { ListGives
        (asked_by (lent_in lent.entry) work.old question.now answer.old)
        result work.new answer.new }
{
    let unfit = ask::list_unfit(answer);
    let sheet = ask::admit(lent, work, question, unfit)?;
    answer::list(&sheet, question, answer);
    Ok(())
}
