// Whether lent buffers have their exact lengths (document 01, row 3 of the table of numbers).

ghost use Rattle.std.specs.Prelude.{◌≡◌};
ghost use Rattle.tree.specs.Buffers.{exact_fit, first_unfit, lower_unfit};

// A lent buffer's number, and whether the buffer has its exact length. The number is no enum, and 0 says that all fit: `first_unfit` and `lower_unfit` of
// specs/Buffers state it so, and the tests of specs/Tests take it.
#[derive(Clone, Copy)]
pub struct Fit {
    pub buffer: usize,
    pub fits: bool,
}

impl Fit {
    // The buffer of this number is to have `want` cells, and has `cells`.
    pub fn exact(buffer: usize, want: usize, cells: usize) -> Fit
        ensures { result ≡ exact_fit buffer want cells }
    {
        Fit {
            buffer,
            fits: cells == want,
        }
    }
}

// The number of the first of the lent buffers, listed by rising number, that does not fit; 0 where all fit, which is no buffer's number.
pub fn first_unfit(fits: &[Fit]) -> usize
    ensures { result ≡ first_unfit fits.now }
{
    for fit in fits {
        if !fit.fits {
            return fit.buffer;
        }
    }
    0
}

// The lower of two such numbers.
pub fn lower_unfit(a: usize, b: usize) -> usize
    ensures { result ≡ lower_unfit a b }
{
    if b == 0 {
        return a;
    }
    if a == 0 {
        return b;
    }
    a.min(b)
}
