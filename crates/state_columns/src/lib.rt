//! The states of one call for all groups of a table, by the places of the groups.
//!
//! A column is seen as the list of its states' trees (`specs/Trees.antt`); how the states are kept is its own affair.
#![tactic(auto)]

mod column;

pub use column::StateColumn;
