//! The program `agg`, from its words, a source and a sink to its exit status.
//!
//! specs/Program.antt says what words come to and how a run ends; specs/Exits.antt has the exit statuses.
#![tactic(auto)]

mod exits;
mod program;
mod refusing;

pub use exits::status_number;
pub use program::run;
