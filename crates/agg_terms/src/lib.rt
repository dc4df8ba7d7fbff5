//! The words of the definitions: values, chains, types, state trees, and the order of values.
//!
//! What people must believe stands in specs/, in reading order: `Values`, `Chains`, `Lists`, `Order`, `Types`,
//! `Trees`, and `Fitting` with the tests that decide `Trees`. Nothing there says how it is computed. `laws` states
//! what the order and the words on lists come to, as contracts of functions that do nothing.
#![tactic(auto)]

mod laws;
mod words;

pub use laws::{law_lists, law_order, law_trees};
pub use words::{LeafName, Suffix};
