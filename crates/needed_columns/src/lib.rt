//! The columns that a plan names: marks for a table's columns, the table of the marked columns alone, and the plan with its
//! column numbers counted among them.
//!
//! specs/Columns.antt says what is marked and how numbers are counted; specs/Sameness.antt that rows with their marked fields
//! alone bring the same answers and tables.
#![tactic(auto)]

mod marks;
mod needed;
mod places;
mod schema;

pub use needed::{Needed, needed_columns};
