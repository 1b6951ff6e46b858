// The subtree of a part (document 02, 2026-01): the parts that it carries, as the stretch of the lent order table that holds them and no other. Each call tests
// its own input: tests 1 to 8, and 10 with the part at position 0. `work` has four cells for each part; it is all zero afterwards, or as it was after
// refusals 1 to 3. No other buffer is altered.

#![tactic(auto)]

ghost use Rattle.std.specs.Prelude.{◌≡◌, ◌+◌, ◌≤◌, length};
ghost use Rattle.tree.specs.Tables.{lent_in};
ghost use Rattle.tree.specs.Verdict.{start_of, count_of};
ghost use Rattle.subtrees.specs.Stretch.{SliceOf, FindGives, LocateGives, SubtreeGives};

use tree::{Lent, Located, OwnTables, Refusal};

// Where the parts that `part` carries stand in the order table: the first of their cells, and how many there are; or why the call is refused.
pub fn locate(lent: Lent<'_, '_>, work: &mut [u16], part: usize) -> Result<Located, Refusal>
    ensures { LocateGives (lent_in lent.entry) part work.old result work.new }
{
    let sheet = tables::admit_lent(lent, 0, work)?;
    find(&sheet, part)
}

// These cells themselves, never a copy: the stretch of `order` that begins with the part. It has no cell where the call is refused, and else at least one;
// `locate` says of the same inputs why.
pub fn subtree<'a>(lent: Lent<'_, 'a>, work: &mut [u16], part: usize) -> &'a [u16]
    ensures { SubtreeGives (lent_in lent.entry) lent.entry.order part work.old result work.new }
{
    let found = locate(lent, work, part);
    slice(lent.order, found)
}

// Test 10 of the part, and where its subtree stands: PREORDER and SIZE of an accepted sheet say it.
fn find(sheet: &OwnTables<'_>, part: usize) -> Result<Located, Refusal>
    ensures { FindGives sheet.now part result }
{
    if !sheet.has_part(part) {
        return Err(Refusal::NodeOutOfRange(0));
    }
    let n = sheet.len();
    let label = sheet.label();
    Ok(Located {
        start: label[part] as usize - 1,
        count: label[n + part] as usize,
    })
}

// The stretch that was located; the empty one at the table's start where the call is refused.
fn slice(order: &[u16], found: Result<Located, Refusal>) -> &[u16]
    requires { start_of found + count_of found ≤ length order.now }
    ensures { SliceOf order.entry (start_of found) (count_of found) result }
{
    match found {
        Ok(at) => &order[at.start..at.start + at.count],
        Err(_) => &order[..0],
    }
}
