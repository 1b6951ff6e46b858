// Answering a question that has passed its tests: each buffer fits, and the tables are the sheet's own.

ghost use Rattle.std.specs.Prelude.{◌≡◌, [], ◌∷◌, ◌+◌, ◌<◌, length, get_or};
ghost use Rattle.bits.specs.Bits.{IsBelow};
ghost use Rattle.tree.specs.Buffers.{trail_cells, answer_cells};
ghost use Rattle.tree.specs.Lca.{lca};
ghost use Rattle.tree.specs.Tables.{own};
ghost use Rattle.tree.specs.Trail.{trail, by_lifts, lifts, trail_buffer};
ghost use Rattle.tree.specs.Nodes.{Pair, Listed};
ghost use Rattle.tree.specs.Branch.{answer_by};
ghost use Rattle.tree.specs.Pairs.{left_of, right_of, each_answer};
ghost use Rattle.routes.specs.Rules.{rule_of, stored_answer};

use crate::{ANSWER_CELLS, Route};
use tree::OwnTables;

// Stores the answer to each pair: its carrier, and the branches towards x and y.
pub(crate) fn pairs(route: Route, sheet: &OwnTables<'_>, question: &[u16], answer: &mut [u16])
    requires { Listed sheet.now question.now × (length answer.old ≡ answer_cells (length question.now)) }
    ensures { answer.new ≡ each_answer (answer_by (rule_of route) (own sheet.now)) question.now }
{
    for i in 0..question.len() / 2 {
        let at = 2 * i;
        let x = node(question, at);
        let y = node(question, at + 1);
        pair(route, sheet, x, y, i * ANSWER_CELLS, answer);
    }
}

// Stores the answer to one pair, in the cells from `at` on.
fn pair(route: Route, sheet: &OwnTables<'_>, x: usize, y: usize, at: usize, answer: &mut [u16])
    requires { Pair sheet.now x y × (at + 2 < length answer.old) }
    ensures { answer.new ≡ stored_answer answer.old at (answer_by (rule_of route) (own sheet.now) x y) }
{
    let c = carrier(route, sheet, x, y);
    let left = rules::branch(sheet, c, x);
    let right = rules::branch(sheet, c, y);
    answer[at] = c as u16;
    answer[at + 1] = left as u16;
    answer[at + 2] = right as u16;
}

// The part that stands at a position of the question.
fn node(question: &[u16], at: usize) -> usize
    requires { at < length question.now }
    ensures { result ≡ get_or question.now at 0 }
{
    question[at] as usize
}

// The carrier of one pair by the route named.
fn carrier(route: Route, sheet: &OwnTables<'_>, x: usize, y: usize) -> usize
    requires { Pair sheet.now x y }
    ensures { IsBelow (rule_of route (own sheet.now) x y) (length sheet.now) result }
{
    match route {
        Route::Labels => rules::by_labels(sheet, x, y),
        Route::Tour => rules::by_tour(sheet, x, y),
        Route::Lifts => lifting::by_lifts(sheet, x, y),
    }
}

// Stores the trail of the question's one pair and its carrier, and gives the count of the lifts.
pub(crate) fn trail(
    sheet: &OwnTables<'_>,
    question: &[u16],
    answer: &mut [u16],
    rows: &mut [u16],
) -> usize
    requires { Pair sheet.now (left_of question.now 0) (right_of question.now 0) × (length question.now ≡ 2) × (length answer.old ≡ 1)
        × (length rows.old ≡ trail_cells) }
    ensures { (result ≡ lifts (own sheet.now) (left_of question.now 0) (right_of question.now 0))
        × (answer.new ≡ by_lifts (own sheet.now) (left_of question.now 0) (right_of question.now 0) ∷ [])
        × (rows.new ≡ trail_buffer (trail (own sheet.now) (left_of question.now 0) (right_of question.now 0))) }
{
    cells::fill_all(rows, cells::NONE);
    let x = node(question, 0);
    let y = node(question, 1);
    let end = lifting::trail(sheet, x, y, rows);
    answer[0] = end.x as u16;
    end.lifts
}

// Stores the carrier of a list: that of its first and last in preorder, by the tour.
pub(crate) fn list(sheet: &OwnTables<'_>, question: &[u16], answer: &mut [u16])
    requires { Listed sheet.now question.now × (length answer.old ≡ 1) }
    ensures { answer.new ≡ lca sheet.now question.now ∷ [] }
{
    let ends = rules::ends(sheet, question);
    answer[0] = rules::by_tour(sheet, ends.first, ends.last) as u16;
}
