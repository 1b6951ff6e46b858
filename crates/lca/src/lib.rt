// The calls of `tables`, `routes`, `subtrees` and `wear` for C, and for whatever calls C's functions: a slice is a pointer and its length in cells
// (include/lca.h). Each returns the number of its refusal, 0 where it is accepted, and stores at `value` the refusal's place, or 0 where it is accepted; of an
// accepted trail the count of its lifts, of an accepted subtree that of its parts. What it does besides is what the library's call of that name does, by the
// same contract.
// C lends a sheet and its tables one by one; each call makes one value of them.
// `lca_version` is no such call: it says which version of this interface the archive has.

#![tactic(auto)]

ghost use Rattle.std.specs.Prelude.{◌≡◌};
ghost use Rattle.tree.specs.Verdict.{number_of, place_of, verdict_of, traced_of, start_of};
ghost use Rattle.tree.specs.Tables.{lent_by};
ghost use Rattle.tree.specs.Routes.{by_labels, by_tour};
ghost use Rattle.tree.specs.Trail.{by_lifts};
ghost use Rattle.tables.specs.Check.{CheckGives};
ghost use Rattle.tables.specs.Lend.{BuildGives, LentGives};
ghost use Rattle.routes.specs.Answers.{asked_by, PairsGive, TrailGives, ListGives};
ghost use Rattle.subtrees.specs.Stretch.{LocateGives};
ghost use Rattle.wear.specs.Totals.{TotalsGive};
ghost use Rattle.lca.specs.Returned.{number_in, value_in, outcome_of, located_count, Returned};
ghost use Rattle.lca.specs.Version.{version};

use tree::{Lent, Located, Numbered, Refusal};

// The version of the interface, as LCA_VERSION in include/lca.h has it.
const VERSION: u32 = 4;

// The version of the interface that the archive has.
#[unsafe(no_mangle)]
pub extern "C" fn lca_version() -> u32
    ensures { result ≡ version }
{
    VERSION
}

// Checks a sheet: `tables::check`.
#[unsafe(no_mangle)]
pub extern "C" fn lca_check(parents: &[u16], work: &mut [u16], value: &mut u64) -> u32
    ensures { Returned outcome_of (λ r. CheckGives parents.now work.old r work.new) result value.new }
{
    let r = tables::check(parents, work);
    returned(r, value)
}

// Builds its tables: `tables::build`.
#[unsafe(no_mangle)]
pub extern "C" fn lca_build(
    parents: &[u16],
    label: &mut [u16],
    tour: &mut [u16],
    lift: &mut [u16],
    order: &mut [u16],
    work: &mut [u16],
    value: &mut u64,
) -> u32
    ensures { Returned outcome_of
        (λ r. BuildGives (lent_by parents.now label.old tour.old lift.old order.old)
        work.old r label.new tour.new lift.new order.new work.new)
        result value.new }
{
    let r = tables::build(parents, label, tour, lift, order, work);
    returned(r, value)
}

// Compares lent tables with it: `tables::compare`.
#[unsafe(no_mangle)]
pub extern "C" fn lca_compare(
    parents: &[u16],
    label: &[u16],
    tour: &[u16],
    lift: &[u16],
    order: &[u16],
    work: &mut [u16],
    value: &mut u64,
) -> u32
    ensures { Returned outcome_of
        (λ r. LentGives (lent_by parents.now label.now tour.now lift.now order.now)
        0 work.old r work.new)
        result value.new }
{
    let lent = Lent {
        parents,
        label,
        tour,
        lift,
        order,
    };
    let r = tables::compare(lent, work);
    returned(r, value)
}

// The answer to each pair by labels, its carrier and both branches: `routes::pairs_by_labels`.
#[unsafe(no_mangle)]
pub extern "C" fn lca_pairs_by_labels(
    parents: &[u16],
    label: &[u16],
    tour: &[u16],
    lift: &[u16],
    order: &[u16],
    work: &mut [u16],
    question: &[u16],
    answer: &mut [u16],
    value: &mut u64,
) -> u32
    ensures { Returned outcome_of
        (λ r. PairsGive by_labels (asked_by (lent_by parents.now label.now tour.now lift.now order.now) work.old question.now answer.old)
        r work.new answer.new) result value.new }
{
    let lent = Lent {
        parents,
        label,
        tour,
        lift,
        order,
    };
    let r = routes::pairs_by_labels(lent, work, question, answer);
    returned(r, value)
}

// The same by the tour: `routes::pairs_by_tour`.
#[unsafe(no_mangle)]
pub extern "C" fn lca_pairs_by_tour(
    parents: &[u16],
    label: &[u16],
    tour: &[u16],
    lift: &[u16],
    order: &[u16],
    work: &mut [u16],
    question: &[u16],
    answer: &mut [u16],
    value: &mut u64,
) -> u32
    ensures { Returned outcome_of
        (λ r. PairsGive by_tour (asked_by (lent_by parents.now label.now tour.now lift.now order.now) work.old question.now answer.old)
        r work.new answer.new) result value.new }
{
    let lent = Lent {
        parents,
        label,
        tour,
        lift,
        order,
    };
    let r = routes::pairs_by_tour(lent, work, question, answer);
    returned(r, value)
}

// The same by lifts: `routes::pairs_by_lifts`.
#[unsafe(no_mangle)]
pub extern "C" fn lca_pairs_by_lifts(
    parents: &[u16],
    label: &[u16],
    tour: &[u16],
    lift: &[u16],
    order: &[u16],
    work: &mut [u16],
    question: &[u16],
    answer: &mut [u16],
    value: &mut u64,
) -> u32
    ensures { Returned outcome_of
        (λ r. PairsGive by_lifts (asked_by (lent_by parents.now label.now tour.now lift.now order.now) work.old question.now answer.old)
        r work.new answer.new) result value.new }
{
    let lent = Lent {
        parents,
        label,
        tour,
        lift,
        order,
    };
    let r = routes::pairs_by_lifts(lent, work, question, answer);
    returned(r, value)
}

// The carrier of a list: `routes::list`.
#[unsafe(no_mangle)]
pub extern "C" fn lca_list(
    parents: &[u16],
    label: &[u16],
    tour: &[u16],
    lift: &[u16],
    order: &[u16],
    work: &mut [u16],
    question: &[u16],
    answer: &mut [u16],
    value: &mut u64,
) -> u32
    ensures { Returned outcome_of
        (λ r. ListGives (asked_by (lent_by parents.now label.now tour.now lift.now order.now) work.old question.now answer.old)
        r work.new answer.new) result value.new }
{
    let lent = Lent {
        parents,
        label,
        tour,
        lift,
        order,
    };
    let r = routes::list(lent, work, question, answer);
    returned(r, value)
}

// The trail of one pair: `routes::trail`.
#[unsafe(no_mangle)]
pub extern "C" fn lca_trail(
    parents: &[u16],
    label: &[u16],
    tour: &[u16],
    lift: &[u16],
    order: &[u16],
    work: &mut [u16],
    question: &[u16],
    answer: &mut [u16],
    trail: &mut [u16],
    value: &mut u64,
) -> u32
    ensures { Returned traced_of
        (λ r. TrailGives (asked_by (lent_by parents.now label.now tour.now lift.now order.now) work.old question.now answer.old)
        trail.old r work.new answer.new trail.new) result value.new }
{
    let lent = Lent {
        parents,
        label,
        tour,
        lift,
        order,
    };
    let r = routes::trail(lent, work, question, answer, trail);
    counted(r, value)
}

// What a part carries: `subtrees::locate`. A refusal has no start: 0 is stored at `start`.
#[unsafe(no_mangle)]
pub extern "C" fn lca_subtree(
    parents: &[u16],
    label: &[u16],
    tour: &[u16],
    lift: &[u16],
    order: &[u16],
    work: &mut [u16],
    part: usize,
    start: &mut u64,
    value: &mut u64,
) -> u32
    ensures { Returned located_count
        (λ r. LocateGives (lent_by parents.now label.now tour.now lift.now order.now)
        part work.old r work.new × (start.new ≡ start_of r)) result value.new }
{
    let lent = Lent {
        parents,
        label,
        tour,
        lift,
        order,
    };
    let r = subtrees::locate(lent, work, part);
    located(r, start, value)
}

// The wear of each part's assembly: `wear::totals`.
#[unsafe(no_mangle)]
pub extern "C" fn lca_totals(
    parents: &[u16],
    work: &mut [u16],
    counts: &[u32],
    totals: &mut [u64],
    value: &mut u64,
) -> u32
    ensures { Returned outcome_of
        (λ r. TotalsGive parents.now work.old counts.now totals.old r totals.new work.new)
        result value.new }
{
    let r = wear::totals(parents, work, counts, totals);
    returned(r, value)
}

// An outcome as C sees it.
fn returned(r: Result<(), Refusal>, value: &mut u64) -> u32
    ensures { (result ≡ number_in (verdict_of r)) × (value.new ≡ value_in (verdict_of r) 0) }
{
    counted(r.map(|()| 0), value)
}

// An answer that counts as C sees it.
fn counted(r: Result<usize, Refusal>, value: &mut u64) -> u32
    ensures { (result ≡ number_in (traced_of r).0) × (value.new ≡ value_in (traced_of r).0 (traced_of r).1) }
{
    match r {
        Ok(count) => accept(count, value),
        Err(why) => refuse(why, value),
    }
}

// A subtree that was located as C sees it.
fn located(r: Result<Located, Refusal>, start: &mut u64, value: &mut u64) -> u32
    ensures { (result ≡ number_in (located_count r).0) × (value.new ≡ value_in (located_count r).0 (located_count r).1)
        × (start.new ≡ start_of r) }
{
    *start = r.map_or(0, |found| found.start as u64);
    counted(r.map(|found| found.count), value)
}

// An accepted call, with what it counts.
fn accept(count: usize, value: &mut u64) -> u32
    ensures { (result ≡ 0) × (value.new ≡ count) }
{
    *value = count as u64;
    0
}

// A refusal: its number, and no bit of its place is lost.
fn refuse(why: Refusal, value: &mut u64) -> u32
    ensures { (result ≡ number_of why) × (value.new ≡ place_of why) }
{
    let at = Numbered::from(why);
    *value = at.place as u64;
    at.number as u32
}
