//! The aggregate functions with their parameters.
use crate::Pattern;

/// An aggregate function without suffixes.
#[derive(Debug, Drop)]
pub enum Leaf {
    Count,
    Sum,
    Min,
    Max,
    ArgMin,
    ArgMax,
    BitAnd,
    BitOr,
    BitXor,
    /// The most values that are kept, if there is a limit.
    GroupArray(Option<u32>),
    UniqExact,
    /// The level in billionths.
    QuantileExact(u32),
    /// The window in the unit of the times, and whether the mode is strict.
    WindowFunnel(u64, bool),
    SequenceMatch(Pattern),
    Retention,
}
