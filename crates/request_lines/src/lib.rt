//! Readers of the lines of requests and scripts, with the exact place of a line's first fault.
//!
//! What a line spells stands in `line_forms`. A reader takes one token after another and stops at the first one that no
//! line of its form goes on with: specs/proving/Judging.antt says where that is, and specs/proving/Reads.antt what each part of a reader
//! answers.
#![tactic(auto)]

// what is left of a line
mod marks;
mod rest;

// the parts of a line
mod calls;
mod columns;
mod literals;
mod names;
mod numbers;
mod request;
mod types;

// whole lines
mod line;
mod script;

pub use line::{read_script_line, read_select, read_table};
