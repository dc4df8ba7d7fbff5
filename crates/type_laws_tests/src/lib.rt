//! Patterns and types that are printed and read back: the texts that they have.
#![tactic(auto)]

#[cfg(test)]
mod patterns;
#[cfg(test)]
mod read_back;
#[cfg(test)]
mod types;
