//! What is printed reads back as what it was printed for: patterns and types.
//! specs/Patterns.antt says it of `print_pattern` and `read_pattern`, specs/Types.antt of `print_type`, `read_type_shape`
//! and `type_of`.
#![tactic(auto)]

mod laws;

pub use laws::{law_patterns_read_back, law_printed_types_are_read};
