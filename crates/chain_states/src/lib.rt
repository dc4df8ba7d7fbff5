//! The running states of calls: what a legal chain keeps of its rows, for every chain of suffixes over every function.
//!
//! `ready` makes a call ready, once: its chain with the argument types of the function. `state` has the state and its
//! calls, `State`, over the states of chains in `chain_links` and their values in `chain_values`.
//!
//! `placing` feeds rows of columns to states by their places, along suffixes that take rows as the chain inside does. A
//! function of at most one argument has a loop for each width of numbers (`function_places`, over its `function_rows`),
//! and any other chain is lent its rows (`lending`). `conditions` tells the rows that -If leaves out.
//!
//! A state stands for each list of feeds whose normal form its tree is (`agg_meaning`, specs/States.antt): `feed` puts a
//! row behind, `merge` the rows of a later state, `finish` gives what the rows mean. Every call goes along the chain, so
//! its depth is bounded by the number of suffixes, at most eight. specs/Calls.antt has the words.
#![tactic(auto)]

// calls and their states
mod ready;
mod state;

// rows fed by their places
mod conditions;
mod function_places;
mod function_rows;
mod lending;
mod numbers;
mod placing;

pub use placing::{add_fresh, feed_places};
pub use ready::ReadyCall;
pub use state::State;
