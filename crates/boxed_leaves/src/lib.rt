//! The functions whose states are too large to stand in place, as one type: each state behind a pointer.
//!
//! `state` has the state, `BoxedState`, one variant for each type of states of `best_leaves`, `list_leaves`, `set_leaves`
//! and `event_leaves`; its calls are theirs. `served` tells which functions and argument types have such a state.
//! What a state stands for is said in `agg_meaning`, specs/States.antt.
#![tactic(auto)]

mod served;
mod state;

pub use served::serves;
pub use state::BoxedState;
