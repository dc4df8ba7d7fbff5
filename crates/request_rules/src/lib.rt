//! The rules on what a line of a request asks for, in their order, and the first that is broken.
//!
//! specs/Turns.antt says how rules follow one another. specs/Tables.antt has the rules on a table, and specs/Selects.antt
//! those on a request over it. specs/Answers.antt says what an answer is to them.
#![tactic(auto)]

mod refusal;

// a table, and the names of its columns
mod known;
mod tables;

// a request over a table
mod calls;
mod keys;
mod selects;

pub use refusal::Refusal;
pub use selects::{check_limits, judge_select};
pub use tables::judge_table;
