//! A run of `agg query`: a table's line, a request's line and rows from a source, and the answer into a sink.
//!
//! specs/Outcome.antt says what an input comes to, specs/Laws.antt that this is one thing, specs/Runs.antt how a run ends.
#![tactic(auto)]

mod answer;
mod feeding;
mod head;
mod laws;
mod run;
mod status;

pub use laws::law_one_outcome;
pub use run::run_query;
