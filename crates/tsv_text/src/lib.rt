//! The texts of tab-separated values: lines, the fields of a line, and the escapes of a field, both ways.
//! specs/Lines.antt says what lines and fields are, specs/Escapes.antt what an escaped field stands for.
#![tactic(auto)]

mod escaping;
mod fault;
mod lines;
mod unescaping;

pub use escaping::{escape, law_round_trip};
pub use fault::TextFault;
pub use lines::{field_count, first_field, first_line, first_part, split_fields};
pub use unescaping::{law_one_answer, unescape};
