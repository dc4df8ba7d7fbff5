//! Tables of groups: the keys of the rows so far, each with a state of each call.
//!
//! A `Grouping` is a plan made ready, once: its calls, its key columns and their types. A `GroupTable` is fed the rows of
//! batches, from their typed columns: the places of the keys of all rows are found once, and then each call is fed over the
//! whole stretch. It is seen as the tables of the contributions that it was fed (`specs/Tables.antt`): a finite map from key
//! tuple to one tree a call. Without GROUP BY the group of the empty tuple is there from the start. A later table is merged
//! into it, and lines of stored states are added to it (`specs/Merging.antt`).
#![tactic(auto)]

mod calls;
mod grouping;
mod joining;
mod lines;
mod merging;
mod reading;
mod table;

pub use grouping::{GroupCall, Grouping};
pub use table::GroupTable;
