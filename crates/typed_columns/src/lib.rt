//! Columns of every type, and what they lend.
//!
//! A `Column` is seen as its type with the list of its values (`specs/TypedValues.antt`), whatever it
//! keeps them in. `item` lends the value at a place as it stands there, an `Item`, which stands for the
//! value `item_value` (`specs/Items.antt`). `Args` are the items of one row's arguments.
#![tactic(auto)]

// what a column keeps and lends
mod column;
mod growth;
mod growth_append;
mod growth_blank;
mod growth_direct;
mod growth_new;
mod growth_parts;
mod growth_truncate;
mod item;
mod numbers;

// items as arguments, and as values of their own
mod args;
mod own;

pub use args::Args;
pub use column::{Column, Kind};
pub use item::{Item, PairSpan, Span};
