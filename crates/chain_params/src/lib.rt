//! What a name and its parameters give: the chain, or the first rule that they break.
//!
//! The rules stand in specs/Suffixes.antt and specs/Parameters.antt of `agg_typing`. What an answer says of them stands
//! in specs/Faults.antt, and what a literal is to them in specs/Literals.antt.
#![tactic(auto)]

mod chains;
mod fault;
mod leaves;
mod literals;
mod ranges;
mod suffixes;

pub use chains::read_chain;
pub use fault::ChainFault;
pub use suffixes::{has_array_outside_if, takes_param_count};
