// Taking leaves off: a part is put into the order once all that name it have been taken. A part that names itself never is.

ghost use Rattle.std.specs.Prelude.{◌≡◌, cond, ◌*◌, ◌/◌, ltb, length, get_or};
ghost use Rattle.leaves.specs.Leaves.{Wooded, Named, Taking, Waiting, entry_at, Took};

// How many parts were taken, all that can be: they stand in the first cells of work, in the order in which they were taken, and beside them their entries.
pub(crate) fn leaves(parents: &[u16], work: &mut [u16]) -> usize
    requires { Wooded parents.now work.old }
    ensures { Taking parents.now work.new result result }
{
    let n = parents.len();
    cells::fill(work, n, n, 0);
    count(parents, work);
    let found = unnamed(parents, work);
    let waiting = take_eights(parents, found, work);
    take_rest(parents, waiting / 8 * 8, waiting, work)
}

// How many parts name each, in the second n cells of work, which are zero before.
fn count(parents: &[u16], work: &mut [u16])
    requires { Wooded parents.now work.old × Named parents.now work.old 0 }
    ensures { Named parents.now work.new (length parents.now) }
{
    let n = parents.len();
    for p in parents {
        work[n + *p as usize] += 1;
    }
}

// The parts that none names, in the first cells of work; how many there are. A part is stored whether it is one or not, so that there is no branch to guess.
fn unnamed(parents: &[u16], work: &mut [u16]) -> usize
    requires { Wooded parents.now work.old × Named parents.now work.old (length parents.now) }
    ensures { Taking parents.now work.new 0 result }
{
    let n = parents.len();
    let mut found = 0;
    for v in 0..n {
        work[found] = v as u16;
        found += usize::from(work[n + v] == 0);
    }
    found
}

// Takes the parts that are in the order, eight at a time while so many wait. How many are in the order then: all but the last of them, fewer than eight, are
// taken.
fn take_eights(parents: &[u16], leaves: usize, work: &mut [u16]) -> usize
    requires { Wooded parents.now work.old × Taking parents.now work.old 0 leaves }
    ensures { Taking parents.now work.new (result / 8 * 8) result }
{
    let mut found = leaves;
    let mut at = 0;
    // The end moves with each part that is put in, so that no range is known beforehand.
    while at + 8 <= found {
        found = eight(parents, at, found, work);
        at += 8;
    }
    found
}

// Takes the others one by one, from `first` on. Before a part is taken the one behind it is read, for the same reason as in `eight`; where none waits there
// yet, the entry of the part that is taken is the one that can come to.
fn take_rest(parents: &[u16], first: usize, waiting: usize, work: &mut [u16]) -> usize
    requires { Wooded parents.now work.old × Taking parents.now work.old first waiting }
    ensures { Taking parents.now work.new result result }
{
    let mut found = waiting;
    let mut at = first;
    let mut v = work[at];
    // The end moves here too.
    while at < found {
        let p = parents[v as usize];
        v = next(at + 1, found, work[at + 1], p);
        found = one(parents, at, p, found, work);
        at += 1;
    }
    found
}

// What waits at a place, where so many are in the order: what was read there, or else p.
fn next(place: usize, found: usize, read: u16, p: u16) -> u16
    ensures { result ≡ cond (ltb place found) read p }
{
    if place < found { read } else { p }
}

// Takes eight parts. Their entries are all read before anything is stored, so that no read has to wait for a store that might be to the same cell.
fn eight(parents: &[u16], at: usize, mut found: usize, work: &mut [u16]) -> usize
    requires { Waiting parents.now work.old at 8 found }
    ensures { Took parents.now work.old at 8 found work.new result }
{
    let mut entries = [0; 8];
    for i in 0..8 {
        entries[i] = parents[work[at + i] as usize];
    }
    for k in 0..8 {
        found = one(parents, at + k, entries[k], found, work);
    }
    found
}

// Takes a part, whose entry is given: one less is left that names that, and it is put in behind the others when none is. How many are in the order then. The
// entry is kept beside the part, so that whoever goes by the order need not look it up.
fn one(parents: &[u16], at: usize, p: u16, found: usize, work: &mut [u16]) -> usize
    requires { Waiting parents.now work.old at 1 found × (p ≡ entry_at parents.now work.old at) }
    ensures { Took parents.now work.old at 1 found work.new result × (get_or work.new found 0 ≡ p) }
{
    let n = parents.len();
    let left = work[n + p as usize] - 1;
    work[n + p as usize] = left;
    work[found] = p;
    work[2 * n + at] = p;
    found + usize::from(left == 0)
}
