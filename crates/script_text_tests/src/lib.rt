//! Tests of scripts read from their texts: where rows stand, and each rule of a line before and behind lines of rows.
#![tactic(auto)]

#[cfg(test)]
mod tests;
