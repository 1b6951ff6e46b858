// The trail of a pair as document 01 tells it, each lift made by plain steps.

use crate::climb::Sheet;
use crate::fit::{log, power};
use crate::junk::cell;

// Where the two sides stand, and how many lifts led there, with their rows: for each lift, the side of x and then that of y, and 65535 after them.
#[derive(Clone, Copy)]
pub struct Sides<'a> {
    sheet: Sheet<'a>,
    pub x: usize,
    y: usize,
    pub lifts: usize,
    pub rows: [u16; 64],
}

impl<'a> Sides<'a> {
    // The trail of x and y: first the deeper side is raised, then, if they are not one part, both.
    pub fn traced(sheet: Sheet<'a>, x: usize, y: usize) -> Sides<'a> {
        let mut sides = Sides {
            sheet,
            x,
            y,
            lifts: 0,
            rows: [65535; 64],
        };
        for k in (0..=log(sheet.n)).rev() {
            sides.raise_deeper(power(k));
        }
        if sides.x != sides.y {
            sides.raise_both();
        }
        sides
    }

    // One lift more, with its row.
    fn lift(&mut self, x: usize, y: usize) {
        let at = self.lifts.saturating_mul(2);
        self.put(at, x);
        self.put(at.saturating_add(1), y);
        self.x = x;
        self.y = y;
        self.lifts = self.lifts.saturating_add(1);
    }

    // Puts a part into the rows, if they have that place.
    fn put(&mut self, at: usize, part: usize) {
        if let Some(row) = self.rows.get_mut(at) {
            *row = cell(part);
        }
    }

    // Raises the deeper side by so many steps, if it stays as deep as the other.
    fn raise_deeper(&mut self, steps: usize) {
        let sheet = self.sheet;
        let x = self.x;
        let y = self.y;
        let a = sheet.level(x);
        let b = sheet.level(y);
        if b.saturating_add(steps) <= a {
            self.lift(sheet.up(x, steps), y);
        } else if a.saturating_add(steps) <= b {
            self.lift(x, sheet.up(y, steps));
        }
    }

    // Raises both sides by each power of two while they stay different, from 2^l down, and then by one step.
    fn raise_both(&mut self) {
        let sheet = self.sheet;
        for k in (0..=log(sheet.n)).rev() {
            let x = sheet.up(self.x, power(k));
            let y = sheet.up(self.y, power(k));
            if x != y {
                self.lift(x, y);
            }
        }
        self.lift(sheet.up(self.x, 1), sheet.up(self.y, 1));
    }
}

// The lifts by the formula: ones(g), and if d > 0 ones(d - 1) + 1, for parts at levels a and b with a carrier at level c.
pub fn lifts(a: usize, b: usize, c: usize) -> usize {
    let ones = a.abs_diff(b).count_ones() as usize;
    match a.min(b).saturating_sub(c).checked_sub(1) {
        Some(d) => ones
            .saturating_add(d.count_ones() as usize)
            .saturating_add(1),
        None => ones,
    }
}
