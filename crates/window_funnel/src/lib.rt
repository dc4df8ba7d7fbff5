//! The funnel over a list of events: how far the conditions are met one after the other within a window of time.
//!
//! `funnel` has the public call, `starts` the table that it keeps: the first time of the best chain of each length.
//! What a level is stands in `agg_meaning`, specs/Events.antt (`funnel_level`).
#![tactic(auto)]

mod funnel;
mod starts;

pub use funnel::level;
