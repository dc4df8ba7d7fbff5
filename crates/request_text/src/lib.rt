//! The two lines of a query, read and judged.
//!
//! specs/Lines.antt says what a line comes to by its grammar and its rules, and specs/Queries.antt what two lines do.
//! specs/Laws.antt says that they come to one thing alone.
#![tactic(auto)]

mod laws;
mod lines;
mod query;

pub use laws::law_one_query;
pub use lines::{no_form, schema_in};
pub use query::{Query, on_line, read_query};
