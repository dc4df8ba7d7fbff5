//! The texts of fields by their type: what is a text of numbers, strings, arrays and maps, and where its first fault is.
//! specs/Syntax.antt says how the texts of a type look, and specs/Faults.antt what the judge answers.
#![tactic(auto)]

mod goal;
mod judge;
mod mark;
mod step;

pub use judge::{law_fields, syntax_fault};
