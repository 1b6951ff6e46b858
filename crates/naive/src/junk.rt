// What buffers hold before a call.

// The last 16 bits of a number, as a cell holds them.
pub fn cell(x: usize) -> u16 {
    (x % 65536) as u16
}

// What cell i of a buffer holds before a call: numbers of no order.
pub fn junk(i: usize) -> u16 {
    cell(i % 65536 * 40503 + 12829)
}

// Fills a buffer with junk.
pub fn fill(cells: &mut [u16]) {
    for (i, cell) in cells.iter_mut().enumerate() {
        *cell = junk(i);
    }
}
