//! The meaning of a chain over whole lists of rows, as its definition has it: the plain evaluator.
//!
//! It hands rows inward link by link, as rows, and asks the functions of `plain_functions`. What a chain means stands
//! in `agg_meaning`, specs/Suffixes.antt (`meaning`), over feeds; specs/Inward.antt says the same of rows.
#![tactic(auto)]

// what is found out of a chain
mod answer;

// rows and types handed inward
mod keyed;
mod passed;
mod placed;
mod typed;

// the recursion over the chain
mod evaluator;
mod plain;

pub use plain::plain_meaning;
