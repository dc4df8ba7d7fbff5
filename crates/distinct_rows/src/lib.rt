//! The rows of -Distinct: the first row of each kind, in the order of the rows. A hash of a row's values finds it.
#![tactic(auto)]

mod rows;

pub use rows::DistinctRows;
