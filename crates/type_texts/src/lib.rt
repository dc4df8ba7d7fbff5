//! The texts of chains and types, as they are printed.
//! What the name of a chain is stands in specs/ChainNames.antt, and that it reads back in specs/ReadsBack.antt.
//! Patterns, parameters and types stand in specs/PatternTexts.antt, specs/ParamTexts.antt and specs/TypeNames.antt.
#![tactic(auto)]

mod chain_names;
mod param_texts;
mod pattern_texts;
mod types;

pub use chain_names::{law_name_reads_back, print_chain};
pub use pattern_texts::print_pattern;
pub use types::print_type;
