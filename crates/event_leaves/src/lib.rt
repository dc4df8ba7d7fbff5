//! The functions over events, windowFunnel and sequenceMatch. Their states are the events of their rows, by time.
//!
//! `event_list` puts events in order, `row` reads the event of a row, and `event_rows` has what is kept of rows: whether
//! there was one, and the events. `funnel` and `matching` have the states, `kept_pattern` the pattern that one of them keeps,
//! and `served` tells which argument types they serve.
//! What a state stands for is said in `agg_meaning`, specs/States.antt.
#![tactic(auto)]

mod event_list;
mod event_rows;
mod funnel;
mod kept_pattern;
mod matching;
mod row;
mod served;

pub use funnel::FunnelState;
pub use matching::MatchState;
pub use served::{serves_funnel, serves_match};
