// The lines of a program's input (document 01, "The program"): their forms, the reader that takes them one by one, and the machine line, with which every input
// begins. A program that reads such lines uses these and adds what it does with them. `Reader::new` asks for a position within the input; this crate is the inside
// of the programs, and no call of a user's.

#![tactic(auto)]

mod form;
mod list;
mod machine;
mod reader;

pub use form::{Line, Question};
pub use list::{MOST_LISTED, Numbers};
pub use machine::machine_line;
pub use reader::Reader;
