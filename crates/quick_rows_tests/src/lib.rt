//! What no contract says of the quick reader of lines: that it takes regular lines, of each type that it does.
#![tactic(auto)]

#[cfg(test)]
mod lines;
