//! Functions with their suffixes.
use crate::Leaf;
use value_lists::Boxed;

/// A function with suffixes; the outermost suffix, which is the last in the name, comes first.
#[derive(Debug, Drop)]
pub enum Chain {
    Leaf(Leaf),
    If(Boxed<Chain>),
    Array(Boxed<Chain>),
    MapOf(Boxed<Chain>),
    ForEach(Boxed<Chain>),
    OrNull(Boxed<Chain>),
    OrDefault(Boxed<Chain>),
    Distinct(Boxed<Chain>),
    /// The start, the end and the step.
    Resample(i64, i64, u64, Boxed<Chain>),
    State(Boxed<Chain>),
    Merge(Boxed<Chain>),
}
