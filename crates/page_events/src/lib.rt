//! A table of page events, as tests and benches read it.
#![tactic(auto)]

mod events;
mod states;

pub use events::table;
pub use states::NoStates;
