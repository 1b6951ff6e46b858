// The columns of the label table by climbing and by looking.

use crate::climb::Sheet;
use crate::fit::{log, power};
use crate::junk::cell;

// SIZE: each part counts as one of those that each of its carriers carries.
pub fn sizes(sheet: Sheet, size: &mut [u16]) {
    size.fill(0);
    for v in 0..sheet.n {
        for carrier in sheet.climb(v) {
            if let Some(count) = size.get_mut(carrier) {
                *count = count.wrapping_add(1);
            }
        }
    }
}

// LEVEL: the steps to the root.
pub fn levels(sheet: Sheet, level: &mut [u16]) {
    for (v, steps) in level.iter_mut().enumerate() {
        *steps = cell(sheet.level(v));
    }
}

// INLABEL: the number in PREORDER..PREORDER+SIZE-1 with most rightmost zero bits.
pub fn inlabels(preorder: &[u16], size: &[u16], inlabel: &mut [u16]) {
    for ((k, from), count) in inlabel.iter_mut().zip(preorder).zip(size) {
        let to = from.saturating_add(*count);
        *k = (*from..to).max_by_key(|x| x.trailing_zeros()).unwrap_or(0);
    }
}

// ASCENDANT: 2^l at the root, l = log n, and the lowest one bit of INLABEL of each carrier whose INLABEL is not its entry's.
pub fn ascendants(sheet: Sheet, inlabel: &[u16], ascendant: &mut [u16]) {
    for (v, sum) in ascendant.iter_mut().enumerate() {
        let added = sheet.climb(v).map(|u| added(sheet, u, inlabel));
        *sum = cell(added.fold(0usize, |sum, bit| sum.wrapping_add(bit)));
    }
}

// What a part adds to the ASCENDANT of those that it carries.
fn added(sheet: Sheet, v: usize, inlabel: &[u16]) -> usize {
    let parent = sheet.parent(v);
    if parent == v {
        return power(log(sheet.n));
    }
    match inlabel.get(v) {
        Some(k) if inlabel.get(parent) != Some(k) => usize::from(*k & k.wrapping_neg()),
        _ => 0,
    }
}

// HEAD: the part nearest the root with each INLABEL from 1 on, or 65535.
pub fn heads(inlabel: &[u16], level: &[u16], head: &mut [u16]) {
    for (i, head) in head.iter_mut().enumerate() {
        let k = cell(i.saturating_add(1));
        let labelled = (0..inlabel.len()).filter(|v| inlabel.get(*v) == Some(&k));
        let nearest = labelled.min_by_key(|v| level.get(*v).copied());
        *head = cell(nearest.unwrap_or(65535));
    }
}
