//! Patterns of events, matched without memory.
//!
//! `search` has the public call, `links` what an item and a link ask of events, `front` what is kept of an item.
//! What a match is stands in `agg_meaning`, specs/Events.antt (`is_matched`).
#![tactic(auto)]

mod front;
mod links;
mod search;

pub use search::matches;
