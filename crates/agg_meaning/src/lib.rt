//! The meaning of every chain of functions and suffixes over whole lists of rows, its state, and the laws of states.
//!
//! The definitions stand in specs/: `Feeds`, `Events`, `Results`, `Functions` and `Picks` lead to `Suffixes`, which has
//! the meaning of a chain, its state as a normal form, and the feeds that a state unfolds to. `Lawful` and `Laws` say
//! what holds of them, `States` what a state stands for, `Views` the tables and answers of a view.
#![tactic(auto)]

mod laws;

pub use laws::{law_events, law_orders, law_stands, law_states, law_views};
