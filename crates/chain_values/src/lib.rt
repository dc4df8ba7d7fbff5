//! The values of the states of chains: what the rows mean that a state stands for, and whether one of them reached the
//! function.
//!
//! `chains` goes along the chain with the types at each link, which the defaults of -OrDefault and the rows of -Distinct
//! ask for. `inward` has the links that hand on what they have of the types, `functions`, `slots` (-ForEach and -Resample), `keys` (-Map) and `first_rows` (-Distinct, with `fitting`) have
//! the links that keep something of their own. What a value means is said in `agg_meaning`, specs/States.antt.
#![tactic(auto)]

mod chains;
mod first_rows;
mod fitting;
mod functions;
mod inward;
mod keys;
mod slots;

pub use chains::{fed_over, value_over};
