//! A line as a row of given types, judged slowly and exactly: whoever reads rows quickly asks here about every line that isn't regular,
//! and takes every refusal from here. specs/Rows.antt says what lines say as rows, and which of them is refused first;
//! specs/OneRow.antt that lines have one answer.
#![tactic(auto)]

mod judge;
mod laws;
mod refusal;

pub use judge::judge_line;
pub use laws::law_one_row;
pub use refusal::LineRefusal;
