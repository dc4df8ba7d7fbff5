//! The running state of a chain: what a chain of suffixes over a function keeps of its rows.
//!
//! `running` has the state, `Running`, which has the shape of its tree. Here stand the states that know of no chain inside:
//! `function` has those of functions, `first_rows` those of -Distinct, and `key_places` finds a key among the entries of
//! -Map. The calls along a chain, and the other suffixes, are in `chain_links`.
//!
//! The calls take the argument types of the chain's function, which are the same at every link.
//! What a state stands for is said in `agg_meaning`, specs/States.antt.
#![tactic(auto)]

mod first_rows;
mod function;
mod key_places;
mod running;

pub use first_rows::{copy_first, feed_first, first_from_tree, fresh_first, merge_first};
pub use function::{copy_leaf, feed_leaf, fresh_leaf, leaf_from_tree, merge_leaf};
pub use key_places::{place_of_text, place_of_value};
pub use running::Running;
