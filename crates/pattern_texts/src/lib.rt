//! Patterns of events, read from their texts.
//! specs/Texts.antt says how a pattern is written, and specs/Answer.antt what the reader answers: the pattern, or the
//! place of the first fault. The rules on a pattern itself stand in specs/Legal.antt of agg_typing.
#![tactic(auto)]

mod fault;
mod phase;
mod reading;

pub use fault::PatternFault;
pub use reading::{law_pattern_reader, read_pattern};
