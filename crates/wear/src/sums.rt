// The totals of an accepted sheet: along its edges, from the leaves up, each part's total is added to that of its entry, and is whole by then.

ghost use Rattle.std.specs.Prelude.{◌≡◌, ℕ, ◌+◌, ◌*◌, ◌≤◌, ◌<◌, length, get_or, set};
ghost use Rattle.tree.specs.Nodes.{Small};
ghost use Rattle.tree.specs.BottomUp.{Edges};
ghost use Rattle.wear.specs.Totals.{count_limit, totals_of};

// Each count, in 64 bits.
pub(crate) fn widen(counts: &[u32], totals: &mut [u64])
    requires { length totals.old ≡ length counts.now }
    ensures { (totals.new ≡ counts.now) × ((v : ℕ) → v < length counts.now → get_or counts.now v 0 ≤ count_limit) }
{
    for v in 0..counts.len() {
        totals[v] = counts[v] as u64;
    }
}

// The totals of the counts that the cells hold, in their place. The parts stand in the first cells of `edges`, and their entries in its third n.
pub(crate) fn add_up(parents: &[u16], edges: &[u16], totals: &mut [u64])
    requires { Small parents.now × Edges parents.now edges.now × (3 * length parents.now ≤ length edges.now)
        × (length totals.old ≡ length parents.now) × ((v : ℕ) → v < length parents.now → get_or totals.old v 0 ≤ count_limit) }
    ensures { totals.new ≡ totals_of parents.now totals.old }
{
    let n = parents.len();
    for i in 0..n - 1 {
        add(edges[2 * n + i] as usize, edges[i] as usize, totals);
    }
}

// Adds one cell to another.
fn add(to: usize, from: usize, totals: &mut [u64])
    requires { (to < length totals.old) × (from < length totals.old) × (get_or totals.old to 0 + get_or totals.old from 0 < 18446744073709551616) }
    ensures { totals.new ≡ set totals.old to (get_or totals.old to 0 + get_or totals.old from 0) }
{
    totals[to] = totals[to] + totals[from];
}
