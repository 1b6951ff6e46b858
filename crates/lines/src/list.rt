// The numbers of a many line.

ghost use Rattle.std.specs.Prelude.{◌≤◌};
ghost use Rattle.lines.specs.Forms.{most_listed};

// The most numbers of a many line.
pub const MOST_LISTED: usize = 32;

// Some numbers, in the order in which they stand in the line: an array with a count, since a line is `Copy`, and the toolchain's `ArrayVec` is not.
#[derive(Clone, Copy)]
pub struct Numbers {
    cells: [u16; MOST_LISTED],
    count: usize,
    ghost few: { count ≤ most_listed },
}

impl Numbers {
    ghost use Rattle.std.specs.Prelude.{◌≡◌, ◌<◌, ◌≤◌, [], ◌∷◌, ◌++◌, length};
    ghost use Rattle.std.specs.Bool.{MatchBool};
    ghost use Rattle.lines.specs.Forms.{most_listed};
    ghost use Rattle.lines.specs.Gives.{numbers_of};

    // None.
    pub(crate) fn new() -> Numbers
        ensures { numbers_of result ≡ [] }
    {
        Numbers {
            cells: [0; MOST_LISTED],
            count: 0,
        }
    }

    // Whether there are as many as there can be.
    pub(crate) fn is_full(&self) -> bool
        ensures { MatchBool result (most_listed ≤ length (numbers_of self.now)) (length (numbers_of self.now) < most_listed) }
    {
        MOST_LISTED <= self.count
    }

    // One more, behind the others.
    pub(crate) fn push(&mut self, x: u16)
        requires { length (numbers_of self.old) < most_listed }
        ensures { numbers_of self.new ≡ numbers_of self.old ++ (x ∷ []) }
    {
        self.cells[self.count] = x;
        self.count += 1;
    }

    // All of them.
    pub fn as_slice(&self) -> &[u16]
        ensures { result.now ≡ numbers_of self.now }
    {
        &self.cells[..self.count]
    }
}
