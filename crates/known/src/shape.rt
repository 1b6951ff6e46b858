// Sheets that are made by a loop.

ghost use Rattle.std.specs.Prelude.{◌<◌};

// Each part is bolted into the part before it, part 0 into itself.
pub fn chain_down(parents: &mut [u16]) {
    for (v, parent) in parents.iter_mut().enumerate() {
        *parent = (v.saturating_sub(1) % 65536) as u16;
    }
}

// Each part is bolted into the part after it.
pub fn chain_up(parents: &mut [u16]) {
    for (v, parent) in parents.iter_mut().enumerate() {
        *parent = (v.wrapping_add(1) % 65536) as u16;
    }
}

// A tree of no order: part v, if it is not 0, is bolted into part (40503 v + 12829) mod 65536 mod v, and part 0 into itself. Then each number is
// turned on, so that not all parts name a lower one.
pub fn scatter(parents: &mut [u16], turn: usize) {
    for v in 0..parents.len() {
        let x = (v % 65536 * 40503 + 12829) % 65536;
        let parent = if v == 0 { 0 } else { x % v };
        if let Some(cell) = parents.get_mut(turned(v, turn)) {
            *cell = turned(parent, turn) as u16;
        }
    }
}

// The number that comes so many after v; 0 comes after 16383.
fn turned(v: usize, turn: usize) -> usize
    ensures { result < 16384 }
{
    (v % 16384 + turn % 16384) % 16384
}
