//! Which calls are allowed: the rules on a name, its parameters and its arguments in their order, and the first that is
//! broken.
//!
//! The rules stand in specs/Typing.antt of `agg_typing`; the law that what they allow is legal is `law_typing`. What an
//! answer says of them stands in specs/Faults.antt of `chain_params`, and what the types at a link are to them in
//! specs/proving/Args.antt.
#![tactic(auto)]

// the number of arguments, their types, and states, from the outermost link inward
mod arg_count;
mod arg_types;
mod kinds;
mod same_chain;
mod wrong_state;

// all rules
mod calls;

pub use calls::{resolve, resolve_state};
pub use chain_params::ChainFault;
