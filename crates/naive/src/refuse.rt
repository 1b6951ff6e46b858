// What is refused, of every call that has such input.

use crate::call::{BUFFERS, CALLS, Call};
use crate::cases::{COMBINED, Case, Misfit, Unlisted};
use crate::climb::Sheet;
use crate::damage::{Stale, Wrong, change};
use crate::fit::Lent;
use crate::hold::{Held, hold};
use crate::log::Log;
use crate::tests::Verdict;
use crate::{ask, tests};

// A sheet of n parts that is one rooted tree, with its own tables, both of which are damaged for a while.
#[derive(Drop)]
pub struct Tree<'a> {
    pub n: usize,
    pub sheet: &'a mut [u16],
    pub own: &'a mut [u16],
}

// Holds every case of every call.
pub fn all(tree: &mut Tree, log: &mut Log) {
    every_call(Case::from(Misfit::Bare), tree, log);
    every_call(Case::from(Misfit::Oversize), tree, log);
    for buffer in BUFFERS {
        every_call(Case::from(Misfit::Short(buffer)), tree, log);
    }
    for buffer in BUFFERS {
        every_call(Case::from(Misfit::Long(buffer)), tree, log);
    }
    every_call(Case::from(Misfit::Two), tree, log);
    for wrong in Wrong::ALL {
        every_call(Case::from(wrong), tree, log);
    }
    for stale in Stale::ALL {
        every_call(Case::from(stale), tree, log);
    }
    for unlisted in Unlisted::ALL {
        every_call(Case::from(unlisted), tree, log);
    }
    for case in COMBINED {
        every_call(case, tree, log);
    }
}

// Holds a case of every call to which it applies.
fn every_call(case: Case, tree: &mut Tree, log: &mut Log) {
    for call in CALLS {
        if case.applies(call, tree.n) {
            one(case, call, tree, log);
        }
    }
}

// Holds a case of a call.
fn one(case: Case, call: Call, tree: &mut Tree, log: &mut Log) {
    let n = tree.n;
    let mut question = [0; 7];
    let mut lent = Lent::all(call, n, 3);
    ask::fill(n, &mut question, &mut log.random);
    if let Some(misfit) = case.lengths {
        misfit.lend(call, &mut lent, &mut log.random);
    }
    if let Some(unlisted) = case.question {
        unlisted.list(call, n, &mut question, &mut lent, &mut log.random);
    }
    damaged(case, call, tree, &question, lent, log);
}

// Holds the call, on a damaged sheet if that is the case. The damage is undone.
fn damaged(case: Case, call: Call, tree: &mut Tree, question: &[u16], lent: Lent, log: &mut Log) {
    let n = tree.n;
    let Some(wrong) = case.sheet else {
        with_tables(case, call, Ok(()), tree, question, lent, log);
        return;
    };
    let entries = wrong.entries(
        Sheet {
            cells: tree.sheet,
            n,
        },
        &mut log.random,
    );
    let right = change(entries, tree.sheet);
    let found = tests::tree(Sheet {
        cells: tree.sheet,
        n,
    });
    with_tables(case, call, found, tree, question, lent, log);
    change(right, tree.sheet);
}

// Holds the call, with damaged tables if that is the case, which are stale at the first damaged cell. The damage is undone.
fn with_tables(
    case: Case,
    call: Call,
    found: Verdict,
    tree: &mut Tree,
    question: &[u16],
    lent: Lent,
    log: &mut Log,
) {
    let Some(stale) = case.tables else {
        hold(call, held(tree, found, None), question, lent, log);
        return;
    };
    let cells = stale.cells(tree.n, tree.own, &mut log.random);
    let [(a, _), (b, _)] = cells;
    let right = change(cells, tree.own);
    hold(call, held(tree, found, Some(a.min(b))), question, lent, log);
    change(right, tree.own);
}

// The sheet as it is, of which the plain tests say `found`, with tables whose first stale cell is `stale`.
fn held<'a>(tree: &'a Tree, found: Verdict, stale: Option<usize>) -> Held<'a> {
    Held {
        sheet: Sheet {
            cells: tree.sheet,
            n: tree.n,
        },
        tree: found,
        own: tree.own,
        stale,
    }
}
