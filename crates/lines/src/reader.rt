// The reader "holds the input and its position and takes the lines one by one". The position is that of a line's first byte, or the input's end.

ghost use Rattle.std.specs.Prelude.{◌≤◌, length};

use crate::form;
use crate::form::Line;

// The input, and the position in it.
#[derive(Clone, Copy)]
pub struct Reader<'a> {
    input: &'a [u8],
    at: usize,
    ghost within: { at ≤ length input.now },
}

impl<'a> Reader<'a> {
    ghost use Rattle.std.specs.Prelude.{◌≡◌, ◌<◌, ◌≤◌, length};
    ghost use Rattle.std.specs.Bool.{MatchBool};
    ghost use Rattle.lines.specs.Gives.{left_by};

    // A reader of the input, at a position.
    pub fn new(input: &'a [u8], at: usize) -> Reader<'a>
        requires { at ≤ length input.now }
        ensures { (result.input ≡ input.entry) × (result.at ≡ at) }
    {
        Reader { input, at }
    }

    // Where the reader stands.
    pub fn position(&self) -> usize
        ensures { result ≡ self.now.at }
    {
        self.at
    }

    // Whether bytes are left.
    pub fn has_more(&self) -> bool
        ensures { MatchBool result (0 < left_by self.now) (left_by self.now ≡ 0) }
    {
        self.at < self.input.len()
    }
}

// Takes the line at the reader's position, and moves behind it whatever it says: behind its LF, or to the input's end where no LF ends it. It gives nothing for
// an illegible line, behind which others may stand, and nothing where no line is left.
impl Iterator for Reader<'_> {
    type Item = Line;

    ghost use Rattle.std.specs.Iterator.{at_most};
    ghost use Rattle.lines.specs.Gives.{NextGives, left_by};

    ghost next_gives = { λ before line after. NextGives before after line };

    ghost remaining = { λ reader. at_most (left_by reader) };

    fn next(&mut self) -> Option<Line> {
        let Some((first, rest)) = text::first_line(&self.input[self.at..]) else {
            self.at = self.input.len();
            return None;
        };
        self.at = self.input.len() - rest.len();
        form::read(first)
    }
}
