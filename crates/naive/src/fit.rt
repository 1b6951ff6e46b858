// The exact lengths of the buffers, and how many cells are lent of each.

use crate::call::{BUFFERS, Buffer, Call};

// The logarithm to base 2, rounded down; 0 of 0.
pub fn log(m: usize) -> usize {
    m.checked_ilog2().map_or(0, |k| k as usize)
}

// Two to the power k.
pub fn power(k: usize) -> usize {
    1usize.wrapping_shl((k % 64) as u32)
}

// The cells of the label table of n parts.
pub fn label(n: usize) -> usize {
    n.saturating_mul(6)
}

// The positions of the tour of n parts.
pub fn visits(n: usize) -> usize {
    n.saturating_mul(2).saturating_sub(1)
}

// The cells of the tour table of n parts: the tour, the first positions, and t + 1 rows.
pub fn tour(n: usize) -> usize {
    let m = visits(n);
    let rows = log(m).saturating_add(1);
    m.saturating_add(n).saturating_add(m.saturating_mul(rows))
}

// The cells of the lift table of n parts.
pub fn lift(n: usize) -> usize {
    n.saturating_mul(log(n).saturating_add(1))
}

// The cells of the four tables of n parts.
pub fn tables(n: usize) -> usize {
    label(n)
        .saturating_add(tour(n))
        .saturating_add(lift(n))
        .saturating_add(n)
}

// How many cells are lent of each buffer.
#[derive(Clone, Copy)]
pub struct Lent {
    pub sheet: usize,
    pub label: usize,
    pub tour: usize,
    pub lift: usize,
    pub work: usize,
    pub question: usize,
    pub answer: usize,
    pub trail: usize,
    pub order: usize,
}

impl Lent {
    // The exact cells for a sheet of n parts and a question of `count` pairs or parts.
    pub fn all(call: Call, n: usize, count: usize) -> Lent {
        let each = if call.asks_pairs() { 2 } else { 1 };
        Lent::exact(call, n, count.saturating_mul(each))
    }

    // The exact cells for a sheet of n parts and a question that has `cells`: an even count for pairs, two for a trail, any for a list. The answer has three
    // cells for each pair, or one.
    fn exact(call: Call, n: usize, cells: usize) -> Lent {
        let pairs = cells / 2;
        let (question, answer) = match call {
            Call::Labels | Call::Tour | Call::Lifts => (pairs * 2, pairs.saturating_mul(3)),
            Call::Trail => (2, 1),
            _ => (cells, 1),
        };
        Lent {
            sheet: n,
            label: label(n),
            tour: tour(n),
            lift: lift(n),
            work: n.saturating_mul(4),
            question,
            answer,
            trail: 64,
            order: n,
        }
    }

    // How many cells are lent of a buffer.
    fn of(self, buffer: Buffer) -> usize {
        match buffer {
            Buffer::Sheet => self.sheet,
            Buffer::Label => self.label,
            Buffer::Tour => self.tour,
            Buffer::Lift => self.lift,
            Buffer::Work => self.work,
            Buffer::Question => self.question,
            Buffer::Answer => self.answer,
            Buffer::Trail => self.trail,
            Buffer::Order => self.order,
        }
    }

    // The same, to be changed.
    fn of_mut(&mut self, buffer: Buffer) -> &mut usize {
        match buffer {
            Buffer::Sheet => &mut self.sheet,
            Buffer::Label => &mut self.label,
            Buffer::Tour => &mut self.tour,
            Buffer::Lift => &mut self.lift,
            Buffer::Work => &mut self.work,
            Buffer::Question => &mut self.question,
            Buffer::Answer => &mut self.answer,
            Buffer::Trail => &mut self.trail,
            Buffer::Order => &mut self.order,
        }
    }

    // Lends a cell less of a buffer.
    pub fn shorten(&mut self, buffer: Buffer) {
        let cells = self.of_mut(buffer);
        *cells = cells.saturating_sub(1);
    }

    // Lends a cell more of a buffer.
    pub fn lengthen(&mut self, buffer: Buffer) {
        let cells = self.of_mut(buffer);
        *cells = cells.saturating_add(1);
    }

    // The lowest buffer of a call that has not its exact length.
    pub fn first_unfit(self, call: Call) -> Option<Buffer> {
        let exact = Lent::exact(call, self.sheet, self.question);
        BUFFERS.into_iter().find(|buffer| call.is_lent(*buffer)
            && self.of(*buffer) != exact.of(*buffer))
    }
}
