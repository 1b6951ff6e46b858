// The cases of standard input, a line each; the head of the file `stdin` tells their form. Whatever is neither a case nor a comment is printed as
// a mistake, so that no case is lost unseen.

use crate::out::Out;
use crate::show;
use arrayvec::ArrayVec;
use std::io;
use std::io::Print;

// An input. What is printed of one of fewer than 1,000 bytes fits the buffer that `show::first` has.
type Input = ArrayVec<u8, 999>;

// Runs each line of a text.
pub fn all(out: Out, text: &[u8]) -> io::Result<()> {
    for line in text.split(|byte| *byte == b'\n') {
        run_line(out, line)?;
    }
    Ok(())
}

// Runs a line by its first letter, unless it is a comment.
fn run_line(out: Out, line: &[u8]) -> io::Result<()> {
    let mut input = Input::new();
    match line {
        [] | [b'#', ..] => return Ok(()),
        [b'i', b' ', ..] => {}
        [b'q', b' ', ..] => show::put_known(&mut input)?,
        _ => return mistake(out, "no case", line),
    }
    let Some((name, text)) = parts(&line[2..]) else {
        return mistake(out, "no case", line);
    };
    match decode(text, &mut input) {
        Some(()) => show::first(out, name, input.as_slice()),
        None => mistake(out, "too long, or a backslash at the end", line),
    }
}

// Prints what is wrong with a line, and the line.
fn mistake(out: Out, what: &str, line: &[u8]) -> io::Result<()> {
    print!(out; "{what}: ")?;
    out.write_all(line)?;
    println!(out)
}

// The name and the text of a case, which stand behind its letter, if it has a name.
fn parts(case: &[u8]) -> Option<(&[u8], &[u8])> {
    let colon = case.iter().position(|byte| *byte == b':')?;
    let (name, rest) = case.split_at_checked(colon)?;
    match rest {
        _ if name.is_empty() => None,
        [_] => Some((name, &[])),
        [_, b' ', text @ ..] => Some((name, text)),
        _ => None,
    }
}

// Puts what a case's text stands for behind the input; there is nothing where it is too long, or a backslash has nothing behind it.
fn decode(text: &[u8], input: &mut Input) -> Option<()> {
    let mut bytes = text.iter().copied();
    while let Some(byte) = bytes.next() {
        let meant = if byte == b'\\' {
            escaped(bytes.next()?)
        } else {
            byte
        };
        input.try_push(meant).ok()?;
    }
    Some(())
}

// The byte that a letter behind a backslash stands for.
fn escaped(letter: u8) -> u8 {
    match letter {
        b'n' => b'\n',
        b'r' => b'\r',
        b't' => b'\t',
        b'0' => 0,
        b'F' => 255,
        _ => letter,
    }
}
