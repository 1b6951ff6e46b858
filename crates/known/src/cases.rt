// Sheets that are written down, a line each. Its first letter says what is done with it: of a line "work 12: 5 1 2" the sheet is checked, with
// the cells of work that are lent before the entries; lend.rt has the kinds 't', 'd', 'g', 'o' and 'c', ask.rt the kinds 'p', 'r', 'm' and 's',
// totals.rt the kind 'a'; any other line, as one that begins with '#', is a comment. Whatever is no digit only parts the numbers.

use crate::out::Out;
use crate::{BEFORE, ask, check, lend, print, totals};
use arrayvec::ArrayVec;
use std::io;
use std::io::Print;

// The numbers of a line, as many as there is room for.
type Numbers = ArrayVec<u16, 640>;

// Runs each line of a text.
pub fn all(out: Out, text: &[u8]) -> io::Result<()> {
    for line in text.split(|byte| *byte == b'\n') {
        run_line(out, line)?;
    }
    Ok(())
}

// Runs a line whose kind its first letter says, unless it is a comment.
fn run_line(out: Out, line: &[u8]) -> io::Result<()> {
    let found = numbers(line);
    let numbers = found.as_slice();
    match line {
        [b'w', ..] => run_sheet(out, numbers),
        [b'a', ..] => totals::run(out, numbers),
        [letter, ..] => match lend::Kind::of(*letter) {
            Some(kind) => lend::run(out, kind, numbers),
            None => Ok(()),
        },
        [] => Ok(()),
    }
}

// Checks a sheet that stands behind the number of cells of work that it is lent.
fn run_sheet(out: Out, numbers: &[u16]) -> io::Result<()> {
    let mut work = [BEFORE; 128];
    let [cells, parents @ ..] = numbers else {
        return Ok(());
    };
    let cells = usize::from(*cells);
    if work.len() < cells {
        return println!(out; "too many cells of work");
    }
    print!(out; "{} with {cells}", print::entries(parents))?;
    check(out, parents, &mut work[..cells])
}

// The numbers of a line, as far as there is room.
fn numbers(line: &[u8]) -> Numbers {
    let mut found = Numbers::new();
    for digits in line.split(|byte| !byte.is_ascii_digit()) {
        if !digits.is_empty() {
            let _ = found.try_push(number(digits));
        }
    }
    found
}

// The number that digits stand for, or its rest by 65536.
fn number(digits: &[u8]) -> u16 {
    digits.iter().fold(0, |n: u16, digit| {
        n.wrapping_mul(10)
            .wrapping_add(u16::from(digit.wrapping_sub(b'0')))
    })
}
