//! The bytes that states are stored as: one definition for every chain, and what writes them.
//!
//! `specs/Texts.antt` is the table, `specs/Spelled.antt` says which trees have a text, and `specs/Versions.antt` which versions
//! there are.
#![tactic(auto)]

mod laws;
mod version;

// writing
mod bodies;
mod leaves;
mod numbers;
mod values;

pub use bodies::write_text;
pub use laws::{law_legal_is_spelled, law_trees_have_texts};
pub use version::Version;
