//! Why a request, a row or a state is refused, and how a run ends, with the one place that writes the text of each.
//! specs/Words.antt says what every text is.
#![tactic(auto)]

// the causes
mod status;
mod why;

// their texts, from the field outward
mod chain_words;
mod error_lines;
mod field_words;
mod line_words;
mod pieces;

pub use error_lines::{put_error_line, put_field_count};
pub use field_words::{put_field_why, put_state_why};
pub use line_words::put_line_why;
pub use status::{RowWhy, Size, StateWhy, Status};
pub use why::{LimitName, RequestFault, Why};
