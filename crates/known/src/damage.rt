// Tables that are damaged: a cell is changed to the next number, 0 after 65535.

use crate::lend::Buffers;

// Changes the cells at some places, counted from 0 over the four tables end to end.
pub fn all(places: &[u16], buffers: &mut Buffers) {
    for place in places {
        one(usize::from(*place), buffers);
    }
}

// Changes the cell at one place, if there is that cell.
fn one(place: usize, buffers: &mut Buffers) {
    let Err(past) = cell(buffers.label, place) else {
        return;
    };
    let Err(past) = cell(buffers.tour, past) else {
        return;
    };
    let Err(past) = cell(buffers.lift, past) else {
        return;
    };
    let _ = cell(buffers.order, past);
}

// Changes one cell of a table, or says how far behind the table it is.
pub fn cell(table: &mut [u16], at: usize) -> Result<(), usize> {
    if at < table.len() {
        table[at] = table[at].wrapping_add(1);
        Ok(())
    } else {
        Err(at - table.len())
    }
}

// Changes the last cell of a table, if it has one.
pub fn last(table: &mut [u16]) {
    if let Some(cell) = table.last_mut() {
        *cell = cell.wrapping_add(1);
    }
}
