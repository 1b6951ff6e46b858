// The shapes of sheets.

use crate::junk::cell;
use crate::log::Random;
use std::fmt;
use std::fmt::{Display, Formatter, Write};

// How a part's entry is found.
#[derive(Clone, Copy)]
pub enum Kind {
    // Part v is in v - 1.
    Chain,
    // All parts are in part 0.
    Star,
    // Part v is in v/2.
    Halves,
    // Part v is in v/16.
    Fan,
    // Part v is in any lower part.
    Random,
    // Part v is in one of the four parts below it.
    Vine,
}

// A shape: a kind, and whether the parts' numbers are permuted.
#[derive(Clone, Copy)]
pub struct Shape {
    pub kind: Kind,
    pub permuted: bool,
}

impl Shape {
    pub const FIRST: Shape = Shape {
        kind: Kind::Chain,
        permuted: false,
    };

    pub const KINDS: [Kind; 6] = [
        Kind::Chain,
        Kind::Star,
        Kind::Halves,
        Kind::Fan,
        Kind::Random,
        Kind::Vine,
    ];

    // Makes a sheet of this shape. Work is used, and left with anything.
    pub fn make(self, sheet: &mut [u16], work: &mut [u16], random: &mut Random) {
        for (v, parent) in sheet.iter_mut().enumerate() {
            *parent = cell(entry(self.kind, v, random));
        }
        if self.permuted {
            permute(sheet, work, random);
        }
    }
}

impl Display for Shape {
    fn fmt<W: Write>(&self, f: &mut Formatter<W>) -> fmt::Result {
        f.write_str(match self.kind {
            Kind::Chain => "chain",
            Kind::Star => "star",
            Kind::Halves => "halves",
            Kind::Fan => "fan",
            Kind::Random => "random",
            Kind::Vine => "vine",
        })?;
        f.write_str(if self.permuted { " permuted" } else { "" })
    }
}

// The entry of part v.
fn entry(kind: Kind, v: usize, random: &mut Random) -> usize {
    match kind {
        Kind::Chain => v.saturating_sub(1),
        Kind::Star => 0,
        Kind::Halves => v / 2,
        Kind::Fan => v / 16,
        Kind::Random => random.below(v),
        Kind::Vine => v.saturating_sub(1).saturating_sub(random.below(4)),
    }
}

// Gives the parts of a sheet other numbers, at random.
fn permute(sheet: &mut [u16], work: &mut [u16], random: &mut Random) {
    let n = sheet.len();
    let Some((numbers, rest)) = work.split_at_mut_checked(n) else {
        return;
    };
    let Some((entries, _)) = rest.split_at_mut_checked(n) else {
        return;
    };
    for (v, number) in numbers.iter_mut().enumerate() {
        *number = cell(v);
    }
    for (entry, parent) in entries.iter_mut().zip(sheet.iter()) {
        *entry = *parent;
    }
    shuffle(numbers, random);
    renumber(numbers, entries, sheet);
}

// Exchanges each of the numbers with one that stands no earlier.
fn shuffle(numbers: &mut [u16], random: &mut Random) {
    let n = numbers.len();
    for v in 0..n {
        let other = v.saturating_add(random.below(n - v));
        if other < n {
            numbers.swap(v, other);
        }
    }
}

// Gives part v the number that stands at v, in the sheet and in its entries.
fn renumber(numbers: &[u16], entries: &[u16], sheet: &mut [u16]) {
    for (number, entry) in numbers.iter().zip(entries) {
        let parent = numbers.get(usize::from(*entry)).copied().unwrap_or(0);
        if let Some(cell) = sheet.get_mut(usize::from(*number)) {
            *cell = parent;
        }
    }
}
