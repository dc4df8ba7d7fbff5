//! The words of the command line: which command they ask for, with its numbers.
//!
//! They are read by hand and not by `clap`, since the exact set of accepted words is claimed and differs from the set that
//! its parser takes. specs/Words.antt says what every list of words asks for.
#![tactic(auto)]

mod command;
mod number;
mod options;
mod reading;

pub use command::{Command, Usage};
pub use reading::read_words;
