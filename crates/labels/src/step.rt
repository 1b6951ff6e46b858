// What a column adds on the step from a parent to its node. LEVEL and ASCENDANT are made by these steps, and told by them to be the sheet's own.

ghost use Rattle.std.specs.Prelude.{ℕ, ◌≡◌, ◌^◌, ◌≤◌, ◌<◌, List, cond, eqb};
ghost use Rattle.bits.specs.Bits.{log2, lowest_one};
ghost use Rattle.tree.specs.Tests.{limit};
ghost use Rattle.labels.specs.Steps.{StepAt, StepLaws, level_step, ascendant_step};
ghost use Rattle.labels.specs.Laws.{level_laws, ascendant_laws};

// A column in which a node's cell is its parent's and what the node adds.
pub(crate) trait Step {
    ghost COLUMN: { ℕ };

    ghost top: { ℕ → ℕ };

    ghost more: { List ℕ → List ℕ → ℕ → ℕ };

    ghost laws: { StepLaws COLUMN top more };

    // Its place in the label table.
    const COLUMN: usize;

    // The root's cell, of a sheet of n parts.
    fn top(n: u16) -> u16
        requires { (0 < n) × (n ≤ limit) }
        ensures { result ≡ top n };

    // What node v adds.
    fn more(parents: &[u16], label: &[u16], v: usize) -> u16
        requires { StepAt parents.now label.now v }
        ensures { result ≡ more parents.now label.now v };
}

// LEVEL: 0 at the root, and one more at each step.
pub(crate) struct Level;

impl Step for Level {
    ghost COLUMN = { 2 };

    ghost top = { λ n. 0 };

    ghost more = { λ s label. level_step };

    ghost laws = { level_laws };

    const COLUMN: usize = 2;

    fn top(_n: u16) -> u16 {
        0
    }

    fn more(_parents: &[u16], _label: &[u16], _v: usize) -> u16 {
        1
    }
}

// ASCENDANT: 2^l at the root, l = log n, and the lowest one bit of INLABEL more where that is not the parent's.
pub(crate) struct Ascendant;

impl Step for Ascendant {
    ghost COLUMN = { 4 };

    ghost top = { λ n. 2 ^ log2 n };

    ghost more = { ascendant_step };

    ghost laws = { ascendant_laws };

    const COLUMN: usize = 4;

    fn top(n: u16) -> u16 {
        1 << bits::log2(n)
    }

    fn more(parents: &[u16], label: &[u16], v: usize) -> u16 {
        let n = parents.len();
        added(label[3 * n + v], label[3 * n + parents[v] as usize])
    }
}

// The bit that a node adds to its parent's ASCENDANT: the lowest one of its INLABEL, or none where that is its parent's.
fn added(inlabel: u16, upper: u16) -> u16
    ensures { result ≡ cond (eqb inlabel upper) 0 (lowest_one inlabel) }
{
    bits::lowest_one(inlabel) & differ_mask(inlabel, upper)
}

// All 16 bits where a and b differ, none where they are equal: by shifts, since a branch on it would be guessed wrong at many nodes.
fn differ_mask(a: u16, b: u16) -> u16
    ensures { result ≡ cond (eqb a b) 0 65535 }
{
    let one = (bits::xor(a, b) as u32 + 65535) >> 16;
    ((one << 16) - one) as u16
}
