// The lines that the program prints. Each is a few writes that cannot fail, since there is room; `write!` would answer a `fmt::Result` at each, for a writer
// whose contract, `Writes`, says the bytes already.

ghost use Rattle.text.specs.Writes.{HasRoom, Writes};
ghost use Rattle.lines.specs.Forms.{list_text};
ghost use Rattle.console.specs.Print.{refusal_line, machine_line, answer_text, pair_line, many_line};
ghost use Rattle.console.specs.Gives.{answer_of};

use text::Writer;
use tree::{Numbered, Refusal};

// A pair's answer: its carrier, and the branches towards its two numbers.
#[derive(Clone, Copy)]
pub(crate) struct PairAnswer {
    pub(crate) carrier: u16,
    pub(crate) left: u16,
    pub(crate) right: u16,
}

// The line of a refusal.
pub(crate) fn refusal(to: &mut Writer, why: Refusal)
    requires { HasRoom to.old (refusal_line why) }
    ensures { Writes to.old (refusal_line why) to.new }
{
    let numbered = Numbered::from(why);
    to.word_number(b"(refused ", numbered.number as usize);
    to.word_number(b" (at ", numbered.place);
    to.word(b"))\n");
}

// The line that repeats a machine's count.
pub(crate) fn machine(to: &mut Writer, n: usize)
    requires { HasRoom to.old (machine_line n) }
    ensures { Writes to.old (machine_line n) to.new }
{
    to.word_number(b"(machine ", n);
    to.word(b")\n");
}

// The line that answers a pair.
pub(crate) fn pair(to: &mut Writer, x: u16, y: u16, found: PairAnswer, lifts: usize)
    requires { HasRoom to.old (pair_line x y (answer_of found) lifts) }
    ensures { Writes to.old (pair_line x y (answer_of found) lifts) to.new }
{
    to.word_number(b"(pair ", x as usize);
    to.word_number(b" ", y as usize);
    answer(to, found);
    to.word_number(b") (lifts ", lifts);
    to.word(b"))\n");
}

// A pair's carrier, and by which branches, up to the last bracket.
fn answer(to: &mut Writer, found: PairAnswer)
    requires { HasRoom to.old (answer_text (answer_of found)) }
    ensures { Writes to.old (answer_text (answer_of found)) to.new }
{
    to.word_number(b" (carrier ", found.carrier as usize);
    to.word_number(b") (by ", found.left as usize);
    to.word_number(b" ", found.right as usize);
}

// The line that answers a list.
pub(crate) fn many(to: &mut Writer, question: &[u16], carrier: u16)
    requires { HasRoom to.old (many_line question.now carrier) }
    ensures { Writes to.old (many_line question.now carrier) to.new }
{
    to.word(b"(many");
    list(to, question);
    to.word_number(b" (carrier ", carrier as usize);
    to.word(b"))\n");
}

// The numbers of a list, each behind a space.
fn list(to: &mut Writer, question: &[u16])
    requires { HasRoom to.old (list_text question.now) }
    ensures { Writes to.old (list_text question.now) to.new }
{
    for x in question {
        to.word_number(b" ", *x as usize);
    }
}
