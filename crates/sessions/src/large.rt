// Inputs that are made by loops: sheets of 512 parts, the longest lines, and inputs of 65,536 bytes.

use crate::out::Out;
use crate::{show, size};
use arrayvec::ArrayVec;
use std::io;
use std::io::Write;

// A text that is put together.
type Text = ArrayVec<u8, 131072>;

// Runs them all.
pub fn all(out: Out) -> io::Result<()> {
    long_lines(out)?;
    shapes(out)?;
    counts(out)?;
    limits(out)
}

// The longest line that is legible has 198 bytes. Lines of 200 bytes and of 201 are not.
fn long_lines(out: Out) -> io::Result<()> {
    long_line(out, b"a line of 198 bytes", b")\n(many 0)\n")?;
    long_line(out, b"a line of 200 bytes", b"  )\n(many 0)\n")?;
    long_line(out, b"a line of 201 bytes", b"   )\n(many 0)\n")?;
    long_line(
        out,
        b"a line of 33 numbers and 200 bytes",
        b" 0)\n(many 0)\n",
    )
}

// A list of 32 numbers of five digits, and what stands behind them.
fn long_line(out: Out, name: &[u8], behind: &[u8]) -> io::Result<()> {
    let mut text = Text::new();
    text.write_all(b"(machine 1)\n(part 0 (in 0))\n(many")?;
    repeat(&mut text, b" 65535", 32)?;
    text.write_all(behind)?;
    show::first(out, name, text.as_slice())
}

// 512 parts in a star, a chain and two chains.
fn shapes(out: Out) -> io::Result<()> {
    of_sheet(
        out,
        b"512 parts in a star",
        512,
        512,
        512,
        b"(pair 510 511)\n(pair 511 512)\n(many 1 511 0)\n",
    )?;
    of_sheet(
        out,
        b"512 parts in a chain",
        512,
        512,
        1,
        b"(pair 511 0)\n(pair 510 511)\n(pair 256 511)\n(many 511 300 400)\n",
    )?;
    of_sheet(
        out,
        b"512 parts in two chains",
        512,
        512,
        2,
        b"(pair 511 510)\n(pair 511 256)\n(pair 510 2)\n",
    )
}

// A line too few, and one too many; 513 parts.
fn counts(out: Out) -> io::Result<()> {
    of_sheet(out, b"512 parts, and 511 lines", 512, 511, 1, b"")?;
    of_sheet(out, b"512 parts, and 513 lines", 512, 513, 1, b"")?;
    of_sheet(out, b"513 parts in a chain", 513, 513, 1, b"")
}

// A sheet of n parts of which so many have a line, each bolted into the part `step` before it, or the first, and questions behind it.
fn of_sheet(
    out: Out,
    name: &[u8],
    n: usize,
    lines: usize,
    step: usize,
    questions: &[u8],
) -> io::Result<()> {
    let mut text = Text::new();
    put_sheet(&mut text, n, lines, |v| v.saturating_sub(step))?;
    text.write_all(questions)?;
    size::summary(out, name, text.as_slice())
}

// Puts the machine line of n parts and the lines of so many, each bolted into what `entry` says.
fn put_sheet<F: Fn(usize) -> usize + Drop>(
    text: &mut Text,
    n: usize,
    lines: usize,
    entry: F,
) -> io::Result<()>
    requires { F.IsAlwaysCallable entry }
{
    writeln!(text, "(machine {n})")?;
    for v in 0..lines {
        writeln!(text, "(part {v} (in {}))", entry(v))?;
    }
    Ok(())
}

// Puts a word so many times.
fn repeat(text: &mut Text, word: &[u8], times: usize) -> io::Result<()> {
    for _ in 0..times {
        text.write_all(word)?;
    }
    Ok(())
}

// Inputs of 65,536 bytes, one less and one more; the most questions; and short pairs whose answers are long.
fn limits(out: Out) -> io::Result<()> {
    lists(out, b"an input of 65,536 bytes", b"(many 3)\n")?;
    lists(out, b"an input of 65,535 bytes", b"(many 3)")?;
    lists(out, b"an input of 65,537 bytes", b"(many 3)\n\n")?;
    filled(out, b"the most questions", b"(many)\n", 9344, b"")?;
    longest(out)
}

// A report of more than four bytes for each byte of its input: the root is part 100, and the two parts that are asked for are bolted into two others.
fn longest(out: Out) -> io::Result<()> {
    let mut text = Text::new();
    put_sheet(&mut text, 103, 103, |v| match v {
        0 => 101,
        1 => 102,
        _ => 100,
    })?;
    repeat(&mut text, b"(pair 0 1)\n", 5779)?;
    size::summary(
        out,
        b"a report of more than four bytes for each byte",
        text.as_slice(),
    )
}

// 7,267 lists, and one more.
fn lists(out: Out, name: &[u8], last: &[u8]) -> io::Result<()> {
    filled(out, name, b"(many 3)\n", 7267, last)
}

// The known machine, a question so many times, and what stands behind it.
fn filled(out: Out, name: &[u8], question: &[u8], times: usize, behind: &[u8]) -> io::Result<()> {
    let mut text = Text::new();
    show::put_known(&mut text)?;
    repeat(&mut text, question, times)?;
    text.write_all(behind)?;
    size::summary(out, name, text.as_slice())
}
