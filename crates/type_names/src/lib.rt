//! The names of chains, read, and the texts of types, judged.
//! What a name spells stands in specs/Names.antt of agg_typing, and specs/Reads.antt says what the reader answers.
//! What the text of a type is stands in specs/TypeTexts.antt, and specs/Syntax.antt says where it has its fault.
#![tactic(auto)]

mod chain_name;
mod goal;
mod judge;
mod words;

pub use chain_name::{NameFault, NameShape, read_chain_name};
pub use goal::{Goal, goals_for};
pub use judge::{law_one_type, type_fault};
pub use words::{function_name, suffix_name};
