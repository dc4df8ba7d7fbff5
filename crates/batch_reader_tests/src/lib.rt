//! What the reader of lines and the reader of rows answer, on small inputs and with sources that fail.
#![tactic(auto)]

#[cfg(test)]
mod lines;
#[cfg(test)]
mod pieces;
#[cfg(test)]
mod rows;
#[cfg(test)]
mod tables;
mod uses;

pub use uses::judge_twice;
