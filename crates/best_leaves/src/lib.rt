//! The functions that keep their best row: argMin and argMax, and min and max of Strings.
//!
//! `state` has the state, `BestState`: what it was made for (`made`) and what is kept of the best row (`best`),
//! replaced only where a later row beats it, so that the first row wins a tie. `stored` reads it from a tree and
//! writes it as one, and `served` tells which argument types it serves.
//! What a state stands for is said in `agg_meaning`, specs/States.antt.
#![tactic(auto)]

// the functions and their results
mod function;
mod kind;
mod made;
mod served;

// what is kept
mod best;
mod state;
mod stored;

pub use served::serves;
pub use state::BestState;
