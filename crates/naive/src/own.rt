// The four tables of a sheet by document 01's definitions, end to end: PREORDER, SIZE, LEVEL, INLABEL, ASCENDANT, HEAD; E, R and the rows of positions;
// the rows of carriers; the parts in preorder. Each column is made cell by cell of those that are there.

use crate::climb::Sheet;
use crate::junk::cell;
use crate::{columns, fit, walk};

// Makes the tables of a sheet that is one rooted tree, if there is room for them. `work` holds the LEVEL at each position of the tour meanwhile.
pub fn tables(sheet: Sheet, work: &mut [u16], own: &mut [u16]) -> Option<()> {
    let n = sheet.n;
    let m = fit::visits(n);
    let (label, rest) = own.split_at_mut_checked(fit::label(n))?;
    let (tour, rest) = rest.split_at_mut_checked(fit::tour(n))?;
    let (lift, rest) = rest.split_at_mut_checked(fit::lift(n))?;
    let (order, _) = rest.split_at_mut_checked(n)?;
    let (visits, tour) = tour.split_at_mut_checked(m)?;
    let (first, positions) = tour.split_at_mut_checked(n)?;
    let (preorder, label) = label.split_at_mut_checked(n)?;
    let (levels, _) = work.split_at_mut_checked(m)?;
    walk::tour(sheet, visits);
    walk::first_visits(visits, first);
    walk::ranks(first, preorder);
    walk::order(preorder, order);
    columns(sheet, preorder, label)?;
    depths(label.get(n..n.saturating_mul(2))?, visits, levels);
    rows(positions, m, |span, i| walk::lowest(levels, i, span));
    rows(lift, n, |span, v| sheet.up(v, span));
    Some(())
}

// Makes the columns of the label table behind PREORDER; LEVEL is the second of them.
fn columns(sheet: Sheet, preorder: &[u16], label: &mut [u16]) -> Option<()> {
    let n = sheet.n;
    let (size, label) = label.split_at_mut_checked(n)?;
    let (level, label) = label.split_at_mut_checked(n)?;
    let (inlabel, label) = label.split_at_mut_checked(n)?;
    let (ascendant, head) = label.split_at_mut_checked(n)?;
    columns::sizes(sheet, size);
    columns::levels(sheet, level);
    columns::inlabels(preorder, size, inlabel);
    columns::ascendants(sheet, inlabel, ascendant);
    columns::heads(inlabel, level, head);
    Some(())
}

// Puts the LEVEL at each position of the tour.
fn depths(level: &[u16], visits: &[u16], levels: &mut [u16]) {
    for (depth, v) in levels.iter_mut().zip(visits) {
        *depth = level.get(usize::from(*v)).copied().unwrap_or(0);
    }
}

// Makes rows of `count` cells, for 1, 2, 4 and so on, each cell by that number and its place in the row.
fn rows<F: Fn(usize, usize) -> usize + Drop>(table: &mut [u16], count: usize, of: F)
    requires { F.IsAlwaysCallable of }
{
    if count == 0 {
        return;
    }
    for (k, row) in table.chunks_exact_mut(count).enumerate() {
        for (i, x) in row.iter_mut().enumerate() {
            *x = cell(of(fit::power(k), i));
        }
    }
}
