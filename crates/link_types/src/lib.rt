//! The types at the links of a chain: what each suffix hands inward, the argument types of the function, and what the
//! type of a result says of its default and of NULL. The definitions stand in `agg_terms`, specs/Types.antt, and in
//! `agg_meaning`, specs/Results.antt.
#![tactic(auto)]

mod inward;
mod results;

pub use inward::{element_types, front_types, function_types, inward_types, item_types};
pub use results::{result_default, result_takes_null};
