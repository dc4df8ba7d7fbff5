//! One value that threads take in turn, by numbers that they draw, with one history of all that they did.
//!
//! A thread takes turns by a [`Pass`], which knows its own entries and the history as far as it has seen it. What a pass
//! knows stands in specs/Known.antt, what one turn comes to in specs/Turns.antt, and the rule that every step of every
//! thread keeps in specs/proving/Rules.antt. In the order in which they are made, the turns are the steps of a `history_core`.
#![tactic(auto)]

mod pass;
mod rule;
mod turn;
mod turnstile;
mod view;

pub use history_core::Entry;
pub use pass::Pass;
pub use turn::{Did, Turn, Turned};
pub use turnstile::Turnstile;
