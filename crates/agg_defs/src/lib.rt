//! What a query is made of: legal chains, the calls and keys of a grouping, columns, and the views of a script.
//!
//! What a chain means stands in the definitions of `agg_meaning`, which chains are legal in those of `agg_typing`; their
//! laws are `law_states` and `law_typing`. `specs/Parts.antt` says what contracts see of a [`Legal`], and
//! `specs/Plans.antt` what a plan over a table is in the definitions and when the two agree.
#![tactic(auto)]

// chains with their types
mod legal;
mod reached;
mod results;

// queries and scripts
mod laws;
mod plan;
mod schema;
mod views;

pub use agg_meaning::law_states;
pub use agg_typing::law_typing;
pub use laws::law_plans;
pub use legal::Legal;
pub use plan::{Call, GroupPlan};
pub use schema::{Column, Schema};
pub use views::{View, Views};
