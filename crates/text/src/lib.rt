// Text in buffers of bytes: numbers and lines taken from the beginning of some bytes, and words and numbers written one behind another. What writes asks for
// room; all this is the inside of `lines` and `console`.

#![tactic(auto)]

mod read;
mod write;

pub use read::{find_number, find_number_then, first_line};
pub use write::Writer;
