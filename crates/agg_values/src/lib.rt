//! Types, chains, values and state trees, their order, and what is a value of a type.
//!
//! The crate that the crates above name. The types and their copies come from `value_types`; here stand
//! the order of values and the test whether a value is one of a type. Both answer as the definitions do
//! over the image of a value (`value_of`), and neither takes memory.
#![tactic(auto)]

mod in_order;
mod leaf_trees;
mod links;
mod order;
mod plain_fits;
mod row_fits;
mod tree_order;
mod trees;
mod value_fits;

pub use links::{Peels, first_type, front, intervals, peel, state_args};
pub use order::{compare, compare_rows};
pub use value_fits::fits;
pub use value_types::{
    Boxed, Bytes, Chain, Event, KeyedTree, Leaf, LeafName, Literal, Op, OutOfMemory, PatItem,
    PatLink, Pattern, Seq, Suffix, Tree, Ty, Value, bare, copy_trees, copy_types, copy_values,
    element, is_nil, is_nullable, is_signed, map_item, map_key, number,
};
