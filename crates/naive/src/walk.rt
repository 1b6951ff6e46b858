// The tour by a plain walk, and what is found by looking along it.

use crate::climb::Sheet;
use crate::junk::cell;

// Puts the tour's visits: from the root down to the next part that is bolted into the last one visited, or up if there is none.
pub fn tour(sheet: Sheet, visits: &mut [u16]) {
    let mut v = sheet.root(0).unwrap_or(0);
    let mut from = 0;
    for visit in visits.iter_mut() {
        *visit = cell(v);
        match next_in(sheet, v, from) {
            Some(c) => {
                v = c;
                from = 0;
            }
            None => {
                from = v.saturating_add(1);
                v = sheet.parent(v);
            }
        }
    }
}

// The lowest part from `from` on that is bolted into v.
fn next_in(sheet: Sheet, v: usize, from: usize) -> Option<usize> {
    (from..sheet.n).find(|c| *c != v && sheet.parent(*c) == v)
}

// R: the first position of each part in the tour.
pub fn first_visits(visits: &[u16], first: &mut [u16]) {
    for (v, position) in first.iter_mut().enumerate() {
        let met = visits.iter().position(|u| usize::from(*u) == v);
        *position = cell(met.unwrap_or(visits.len()));
    }
}

// PREORDER: how many parts the tour has met when it first comes to a part.
pub fn ranks(first: &[u16], preorder: &mut [u16]) {
    for (rank, position) in preorder.iter_mut().zip(first) {
        *rank = cell(first.iter().filter(|other| **other <= *position).count());
    }
}

// The order table: the parts, PREORDER for PREORDER.
pub fn order(preorder: &[u16], order: &mut [u16]) {
    for (k, part) in order.iter_mut().enumerate() {
        let rank = k.saturating_add(1);
        let ranked = preorder.iter().position(|x| usize::from(*x) == rank);
        *part = cell(ranked.unwrap_or(preorder.len()));
    }
}

// A cell of a row of positions: the leftmost position of least LEVEL among `count` from i on, or 65535 where they pass the end.
pub fn lowest(levels: &[u16], i: usize, count: usize) -> usize {
    let Some(window) = levels.get(i..i.saturating_add(count)) else {
        return 65535;
    };
    let least = window.iter().enumerate().min_by_key(|(_, level)| **level);
    i.saturating_add(least.map_or(0, |(j, _)| j))
}
