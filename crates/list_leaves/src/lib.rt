//! The functions that keep the values of all their rows: groupArray and quantileExact.
//!
//! `array` has the state of groupArray, over the list of values that `kept` keeps, and `quantile` that of
//! quantileExact, over numbers that `sorted` puts in order when they are asked for. `row` reads the value of a row,
//! `made` has what a state of quantileExact was made for, and `served` tells which argument types they serve.
//! What a state stands for is said in `agg_meaning`, specs/States.antt.
#![tactic(auto)]

// the functions and their rows
mod made;
mod row;
mod served;

// lists of values, and of numbers in order
mod kept;
mod limit;
mod number_values;
mod sorted;

// states
mod array;
mod quantile;

pub use array::ArrayState;
pub use quantile::QuantileState;
pub use served::{serves_array, serves_quantile};
