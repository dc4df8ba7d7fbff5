//! What no contract says of lists and of the small questions to values and types: that with memory at hand
//! each call succeeds, in each of its arms. The module of a subject has its tests.
#![tactic(auto)]

#[cfg(test)]
mod lists;
#[cfg(test)]
mod words;
