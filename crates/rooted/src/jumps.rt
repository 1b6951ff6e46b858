// The loop test: each part is linked to a part above it, at first to its entry, and each pass replaces every link by its link's link. A part
// whose climb meets the root comes to be linked to it, and no other does. At most log n + 2 passes are made, and usually a few are enough.

ghost use Rattle.std.specs.Prelude.{◌≡◌, ◌<◌, length, get_or};
ghost use Rattle.tree.specs.Tests.{first_lost};
ghost use Rattle.rooted.specs.Jumps.{Rooted, Links, Hopped, Jumped};

// The lowest part whose climb never meets the root; the number of parts where there is none.
pub(crate) fn first_cycle(parents: &[u16], root: usize, work: &mut [u16]) -> usize
    requires { Rooted parents.now work.old root }
    ensures { result ≡ first_lost parents.now }
{
    let n = parents.len();
    cells::copy(work, 0, parents, 0, n);
    let mut steps = 1;
    // No index is counted: a round makes every link at least four times as long.
    while steps < n {
        if jump_rising(parents, root, work) {
            return n;
        }
        if jump_falling(parents, root, work) {
            return n;
        }
        steps = 4 * steps;
    }
    first_unrooted(parents, root, work)
}

// Replaces each part's link by its link's link, in place and in rising order: a part that is linked to a lower one gets the link that the lower
// one has just got. Whether all are the root then.
fn jump_rising(parents: &[u16], root: usize, work: &mut [u16]) -> bool
    requires { Links parents.now work.old root 0 }
    ensures { Jumped parents.now work.old root result work.new }
{
    let n = parents.len();
    let top = root as u16;
    let mut bits = 0;
    for v in 0..n {
        bits |= hop(v, work) ^ top;
    }
    bits == 0
}

// The same in falling order, which serves the parts that are linked to higher ones. Two loops: they differ in their order alone, but in place that is what each
// is about, and its invariant speaks of.
fn jump_falling(parents: &[u16], root: usize, work: &mut [u16]) -> bool
    requires { Links parents.now work.old root 0 }
    ensures { Jumped parents.now work.old root result work.new }
{
    let top = root as u16;
    let mut bits = 0;
    for v in (0..parents.len()).rev() {
        bits |= hop(v, work) ^ top;
    }
    bits == 0
}

// Replaces the link of v by its link's link.
fn hop(v: usize, work: &mut [u16]) -> u16
    requires { (v < length work.old) × (get_or work.old v 0 < length work.old) }
    ensures { Hopped work.old v result work.new }
{
    let link = work[v] as usize;
    let up = work[link];
    work[v] = up;
    up
}

// The first part that is not linked to the root, where each link is as many steps up as there are parts; the number of parts where all are.
fn first_unrooted(parents: &[u16], root: usize, work: &[u16]) -> usize
    requires { Links parents.now work.now root (length parents.now) }
    ensures { result ≡ first_lost parents.now }
{
    let n = parents.len();
    for v in 0..n {
        if work[v] as usize != root {
            return v;
        }
    }
    n
}
