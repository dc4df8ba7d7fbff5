//! The answer of a table of groups, as text: a line for each group, in the order of the keys.
//!
//! specs/Answers.antt says what is added to a text.
#![tactic(auto)]

mod answer;

pub use answer::put_answer;
