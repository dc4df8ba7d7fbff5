//! The function that keeps the different rows: uniqExact.
//!
//! `state` has the state, `SetState`. `rows` keeps different rows as numbers alone, as texts alone or as tuples of
//! values, each in a set (`different`) of what is kept of a row (`key`, `tuple`, `hash`). `part` is what a row is made
//! of. `served` tells which argument types it serves.
//! What a state stands for is said in `agg_meaning`, specs/States.antt.
#![tactic(auto)]

// what is kept of a row
mod hash;
mod key;
mod tuple;

// different rows
mod different;
mod part;
mod rows;

// the function
mod served;
mod state;

pub use served::serves;
pub use state::SetState;
pub use tuple::Tuple;
