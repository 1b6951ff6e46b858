// Lending exact buffers.

use crate::fit::Lent;
use crate::hold::Held;
use crate::{fit, junk};

// The first cells of a buffer, as many as are lent.
pub fn cut(cells: &[u16], count: usize) -> &[u16] {
    cells.get(..count).unwrap_or(cells)
}

// The same of a buffer that is written.
pub fn cut_mut(cells: &mut [u16], count: usize) -> &mut [u16] {
    let count = count.min(cells.len());
    &mut cells[..count]
}

// The sheet and its tables, to be read: they are lent out of the sheet's own, which stand end to end.
pub fn tables<'a>(held: Held<'a>, lent: Lent) -> tree::Lent<'a, 'a> {
    let n = held.sheet.n;
    let tour = fit::label(n);
    let lift = tour.saturating_add(fit::tour(n));
    let order = lift.saturating_add(fit::lift(n));
    tree::Lent {
        parents: cut(held.sheet.cells, lent.sheet),
        label: cut(held.own, lent.label),
        tour: part(held.own, tour, lent.tour),
        lift: part(held.own, lift, lent.lift),
        order: part(held.own, order, lent.order),
    }
}

// So many cells from a place on.
fn part(cells: &[u16], from: usize, count: usize) -> &[u16] {
    cut(cells.get(from..).unwrap_or(&[]), count)
}

// What a call that builds nothing may write.
#[derive(Drop)]
pub struct Outputs<'a> {
    pub work: &'a mut [u16],
    pub answer: &'a mut [u16],
    pub rows: &'a mut [u16],
}

impl Outputs<'_> {
    // Fills them with junk.
    pub fn fill(&mut self) {
        junk::fill(self.work);
        junk::fill(self.answer);
        junk::fill(self.rows);
    }
}

// The buffers that a build fills.
#[derive(Drop)]
pub struct Buffers<'a> {
    pub label: &'a mut [u16],
    pub tour: &'a mut [u16],
    pub lift: &'a mut [u16],
    pub order: &'a mut [u16],
}

impl Buffers<'_> {
    // Fills them with junk.
    pub fn fill(&mut self) {
        junk::fill(self.label);
        junk::fill(self.tour);
        junk::fill(self.lift);
        junk::fill(self.order);
    }
}
