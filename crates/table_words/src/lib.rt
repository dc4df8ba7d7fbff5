//! What the tables of groups hold, whatever keeps them, and the laws by which they grow.
//!
//! A table has the different keys in the order of their first appearance (`specs/KeyLists.antt`), and for each call a
//! tree of each key (`specs/Tables.antt`): it is the tables that `agg_meaning` defines of a list of contributions.
#![tactic(auto)]

mod laws;

pub use laws::law_tables;
