//! The functions of numbers whose state is one word: count, sum, the least and the greatest number, bits and retention.
//!
//! `state` has the state, `IntState`: what it was made for (`made`) and one word, kept as its bits, so that no step
//! can overflow. `row` reads the word of a row, `join` makes two words one, and `value` says what a word means. `serves`
//! tells which functions and argument types have such a state.
//! What a state stands for is said in `agg_meaning`, specs/States.antt.
#![tactic(auto)]

// the functions and their numbers
mod function;
mod made;
mod number;
mod served;

// words
mod join;
mod row;
mod state;
mod value;

pub use served::serves;
pub use state::IntState;
