//! The text of a script, read and judged.
//!
//! specs/Lines.antt has the lines of a text with their places, specs/Forms.antt says which lines may stand where,
//! specs/Scripts.antt what a script is, specs/Steps.antt what its lines come to, and specs/Answers.antt what the reader
//! answers. specs/Laws.antt says that a text comes to one thing alone.
#![tactic(auto)]

// the lines of the text, each by its form
mod forms;
mod placing;

// what they make
mod laws;
mod reading;
mod script;
mod steps;

pub use laws::{law_one_script, law_script_views};
pub use reading::read_script;
pub use script::{Lines, Script, Session, Statement};
