//! Keys of rows, from the typed columns of a batch: no tree of values is made for a row.
//!
//! What a row's key is stands in `specs/Words.antt`: the tuple of its values in the key columns. A column of numbers gives
//! its words at once; other keys are written row by row as the bytes that `key_methods` gives their tuples.
#![tactic(auto)]

mod packed;
mod rows;
mod words;

pub use packed::{key_words, packed_words};
pub use rows::{text_in, write_row};
