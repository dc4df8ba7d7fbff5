//! The text of an answer: a line for each group, its fields divided by tabs (manual: "TabSeparated").
//! specs/Lines.antt says what the text of a line and of an answer is.
#![tactic(auto)]

mod field;
mod lines;

pub use field::put_field;
pub use lines::{put_line, put_lines};
