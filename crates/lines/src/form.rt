// The forms of a line (document 01, "The program").

ghost use Rattle.std.specs.Prelude.{◌≡◌};
ghost use Rattle.lines.specs.Forms.{most_listed};
ghost use Rattle.text.specs.Found.{found_as};
ghost use Rattle.lines.specs.Read.{machine_form, two_numbers, part_form, pair_form, listed, many_form, read as Read·read, machine_count, entry, query};
ghost use Rattle.lines.specs.Gives.{query_of, form_of, two_of, list_of, reading_of};

use crate::list::Numbers;

// A question: of a pair, its two numbers; of many, all of them.
#[derive(Clone, Copy)]
pub enum Question {
    Pair(u16, u16),
    Many(Numbers),
}

// "A line is a machine, part, pair or many form": a machine's count, a part with its entry, a question.
#[derive(Clone, Copy)]
pub enum Line {
    Machine(u16),
    Part(u16, u16),
    Asked(Question),
}

// What a place takes of a line that was read, or nothing.
impl Line {
    // The machine line's count.
    #[tactic(auto, unfolding(crate::specs::Read::machine_count))]
    pub fn machine_count(self) -> Option<u16>
        ensures { found_as (λ n. n) result ≡ machine_count (form_of self) }
    {
        match self {
            Line::Machine(n) => Some(n),
            Line::Part(_, _) | Line::Asked(_) => None,
        }
    }

    // The entry of part v.
    #[tactic(auto, unfolding(crate::specs::Read::entry))]
    pub fn entry(self, v: usize) -> Option<u16>
        ensures { found_as (λ p. p) result ≡ entry v (form_of self) }
    {
        match self {
            Line::Part(w, p) => (w as usize == v).then_some(p),
            Line::Machine(_) | Line::Asked(_) => None,
        }
    }

    // A question.
    #[tactic(auto, unfolding(crate::specs::Read::query))]
    pub fn question(self) -> Option<Question>
        ensures { found_as query_of result ≡ query (form_of self) }
    {
        match self {
            Line::Asked(q) => Some(q),
            Line::Machine(_) | Line::Part(_, _) => None,
        }
    }
}

// The most bytes of a line, before its LF.
const LONGEST: usize = 200;

// Reads the bytes of a line.
pub(crate) fn read(line: &[u8]) -> Option<Line>
    ensures { reading_of result ≡ Read·read line.now }
{
    if LONGEST < line.len() {
        return None;
    }
    machine(line)
        .or_else(|| part(line))
        .or_else(|| pair(line))
        .or_else(|| many(line))
}

// The machine form.
fn machine(line: &[u8]) -> Option<Line>
    ensures { reading_of result ≡ machine_form line.now }
{
    let rest = line.strip_prefix(b"(machine ")?;
    let (n, rest) = text::find_number_then(rest, b")")?;
    rest.is_empty().then_some(Line::Machine(n))
}

// Reads two numbers between three words, which are all of the line.
fn two_numbers(line: &[u8], first: &[u8], middle: &[u8], last: &[u8]) -> Option<(u16, u16)>
    ensures { two_of result ≡ two_numbers first.now middle.now last.now line.now }
{
    let rest = line.strip_prefix(first)?;
    let (x, rest) = text::find_number_then(rest, middle)?;
    let (y, rest) = text::find_number_then(rest, last)?;
    rest.is_empty().then_some((x, y))
}

// The part form.
fn part(line: &[u8]) -> Option<Line>
    ensures { reading_of result ≡ part_form line.now }
{
    let (v, p) = two_numbers(line, b"(part ", b" (in ", b"))")?;
    Some(Line::Part(v, p))
}

// The pair form.
fn pair(line: &[u8]) -> Option<Line>
    ensures { reading_of result ≡ pair_form line.now }
{
    let (x, y) = two_numbers(line, b"(pair ", b" ", b")")?;
    Some(Line::Asked(Question::Pair(x, y)))
}

// The many form.
fn many(line: &[u8]) -> Option<Line>
    ensures { reading_of result ≡ many_form line.now }
{
    let rest = line.strip_prefix(b"(many")?;
    let (numbers, rest) = listed(rest)?;
    let rest = rest.strip_prefix(b")")?;
    rest.is_empty()
        .then_some(Line::Asked(Question::Many(numbers)))
}

// The numbers at the beginning, each behind a space, and the bytes behind them.
fn listed(bytes: &[u8]) -> Option<(Numbers, &[u8])>
    ensures { list_of result ≡ listed most_listed bytes.now }
{
    let mut numbers = Numbers::new();
    let mut rest = bytes;
    while !numbers.is_full()
        && let Some(digits) = rest.strip_prefix(b" ")
    {
        let (x, others) = text::find_number(digits)?;
        numbers.push(x);
        rest = others;
    }
    Some((numbers, rest))
}
