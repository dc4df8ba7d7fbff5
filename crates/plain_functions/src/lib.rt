//! The fifteen functions over whole lists of rows, each as its definition has it: slow, and easy to read.
//!
//! Every faster body is compared with these. What a function means over its rows stands in `agg_meaning`,
//! specs/Functions.antt (`leaf_meaning`), and its state in the same file (`leaf_normal`). Lists are put in order by
//! putting one element after the other into its place.
#![tactic(auto)]

// lists in order, sets, the best
mod best;
mod sorted;

// what the functions make of their rows
mod collected;
mod eventful;
mod meanings;
mod states;

pub use meanings::{function_meaning, is_fed};
pub use sorted::{different_rows, different_values, first_rows};
pub use states::function_state;
