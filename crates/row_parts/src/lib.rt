//! What the suffixes of a chain take of a row: a condition, a key, a state or a map as its last argument, the rows of
//! elements that its arrays open to, and the number of a key's interval. Nothing here takes memory.
//!
//! `row` reads the items of a row, `intervals` places a key. What a row opens to is said in `agg_meaning`,
//! specs/Feeds.antt and specs/Picks.antt.
#![tactic(auto)]

mod intervals;
mod row;

pub use intervals::{count_intervals, interval_of};
pub use row::{
    count_tuples, front, has_null, last_is_met, last_key, last_pairs, last_state, lend_tuple,
    lone_list,
};
