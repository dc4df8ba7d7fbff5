//! The types that everything here speaks in: types, chains, values and state trees.
//!
//! Contracts see each of them through a fold into its family of the definitions (`specs/Folds.antt`):
//! `ty_of`, `leaf_of`, `chain_of`, `value_of`, `tree_of` and the smaller ones. Equal images come from
//! equal values (`law_folds`), so a contract that speaks of the image says all.
#![tactic(auto)]

// the functions and their parameters
mod chain;
mod leaf;
mod literal;
mod pattern;

// types, values and trees
mod ty;
mod value;

// calls on them
mod laws;
mod type_copies;
mod value_copies;
mod words;

pub use agg_terms::{LeafName, Suffix};
pub use chain::Chain;
pub use laws::{law_folds, law_types};
pub use leaf::Leaf;
pub use literal::Literal;
pub use pattern::{Op, PatItem, PatLink, Pattern};
pub use ty::Ty;
pub use type_copies::copy_types;
pub use value::{Event, KeyedTree, Tree, Value};
pub use value_copies::{copy_rows, copy_trees, copy_values};
pub use value_lists::{Boxed, Bytes, OutOfMemory, Seq};
pub use words::{bare, element, is_nil, is_nullable, is_signed, map_item, map_key, number};
