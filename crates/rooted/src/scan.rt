// One pass over a sheet: the parts that name themselves, and whether all entries are parts.

ghost use Rattle.std.specs.Prelude.{◌≡◌, ℕ, suc, ◌≤◌, ◌<◌, false, cond, ◌≢◌, eqb, length, get_or, MatchOption};
ghost use Rattle.tree.specs.Tree.{next_root};
ghost use Rattle.tree.specs.Tests.{limit};
ghost use Rattle.tree.specs.BottomUp.{OneRoot};

// The one part that names itself, where every entry is a part. It stops at no part, so that several are looked at at once.
pub(crate) fn lone_root(parents: &[u16]) -> Option<usize>
    requires { length parents.now ≤ limit }
    ensures { MatchOption result ((q : ℕ) → OneRoot parents.now q → ⊥) (OneRoot parents.now) }
{
    let n = parents.len();
    let mut most: u16 = 0;
    let mut roots: u16 = 0;
    let mut root: u16 = 0;
    for v in 0..n {
        let p = parents[v];
        most = most.max(p);
        roots += if_equal(p, v as u16, 1);
        root |= if_equal(p, v as u16, v as u16);
    }
    if roots != 1 {
        return None;
    }
    if n <= most as usize {
        return None;
    }
    Some(root as usize)
}

// x where two numbers are equal, and else 0.
fn if_equal(a: u16, b: u16, x: u16) -> u16
    ensures { (result ≡ cond (eqb a b) x 0) × (result ≤ x) }
{
    if a == b {
        return x;
    }
    0
}

// The lowest part from `first` on that names itself; the number of parts where there is none.
pub(crate) fn next_root(parents: &[u16], first: usize) -> usize
    requires { first ≤ length parents.now }
    ensures { result ≡ next_root parents.now first }
{
    let n = parents.len();
    for v in first..n {
        if parents[v] as usize == v {
            return v;
        }
    }
    n
}

// The lowest part after `root` that names itself; the number of parts where there is none, as usually.
pub(crate) fn second_root(parents: &[u16], root: usize) -> usize
    requires { (root < length parents.now) × (length parents.now ≤ limit) }
    ensures { result ≡ next_root parents.now (suc root) }
{
    if some_root(parents, root + 1) {
        return next_root(parents, root + 1);
    }
    parents.len()
}

// Whether a part from `first` on names itself. It stops at no part, so that several are compared at once.
fn some_root(parents: &[u16], first: usize) -> bool
    requires { length parents.now ≤ limit }
    ensures { result ≡ false → (v : ℕ) → v < length parents.now → first ≤ v → get_or parents.now v 0 ≢ v }
{
    let n = parents.len();
    let mut found = false;
    for v in first..n {
        if parents[v] == v as u16 {
            found = true;
        }
    }
    found
}
