//! The calls on the states of chains, each along the chain: the state of no rows, a row, a later state, a stored tree, and
//! an equal state; and the tree of a state.
//!
//! `starting`, `feeding`, `merging`, `storing`, `copying` and `trees` have one call each. What a suffix does of a row, of a later state and of a
//! tree stands in a file of its own, over the same calls on the chain inside and knowing no more of it: `when_met` (-If),
//! `elements` (-Array), `keys` (-Map), `places` (-ForEach), `intervals` (-Resample) and `stored_states` (-Merge).
//! -OrNull, -OrDefault and -State change nothing of what is kept; the states of -Distinct and of functions are in
//! `running_states`.
//!
//! The calls take the argument types of the chain's function, which are the same at every link.
//! What a state stands for is said in `agg_meaning`, specs/States.antt.
#![tactic(auto)]

// along the chain
mod copying;
mod feeding;
mod merging;
mod starting;
mod storing;
mod trees;

// suffixes
mod elements;
mod intervals;
mod keys;
mod places;
mod stored_states;
mod when_met;

pub use copying::copy;
pub use feeding::feed;
pub use merging::merge;
pub use starting::fresh;
pub use storing::from_tree;
pub use trees::tree;
