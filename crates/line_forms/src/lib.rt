//! Lines of requests and scripts as they are written, and what such a line spells.
//!
//! specs/Letters.antt has the tokens of a line with their places. specs/Tables.antt, specs/Selects.antt and
//! specs/ScriptLines.antt are the grammars, specs/Views.antt says what contracts see of the written forms, and
//! specs/Answers.antt what a reader answers: the form that a line spells, or the place of its first fault.
#![tactic(auto)]

mod fault;
mod laws;
mod name;
mod script_line;
mod select;
mod table;

pub use fault::LineFault;
pub use laws::law_one_form;
pub use name::WrittenName;
pub use script_line::WrittenLine;
pub use select::{WrittenCall, WrittenSelect};
pub use table::{WrittenColumn, WrittenTable};
