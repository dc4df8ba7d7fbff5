//! How far the text of a pattern was read.
use value_types::Op;

/// What stands before the next item.
#[derive(Clone, Copy, Debug, PartialEq, Eq)]
pub enum Before {
    /// Nothing, or gaps at the beginning.
    Start,
    /// An item: whether it is a condition.
    Item(bool),
    Gap,
    /// A bound on the time.
    Time(Op, u64),
}

/// How far the text was read.
#[derive(Clone, Copy, Debug, PartialEq, Eq)]
pub enum Phase {
    /// Between two parts.
    At(Before),
    /// Behind a `.`, which is an item or begins a gap.
    Dot(Before),
    /// Behind `(`.
    Open(Before),
    /// Behind `(?`.
    Asked(Before),
    /// Behind `(?` and a number.
    Number(Before, u32),
    /// Behind `(?t`.
    Timed,
    /// Behind `(?t<`, or, where it is true, behind `(?t>`.
    Sign(bool),
    /// Behind `(?t=`.
    HalfEqual,
    /// Behind `(?t` and a comparison.
    Compared(Op),
    /// Behind `(?t`, a comparison and a number.
    Amount(Op, u64),
}

/// What a byte means.
#[derive(Clone, Copy, Debug, PartialEq, Eq)]
pub enum Mark {
    Open,
    Close,
    Question,
    LetterT,
    Dot,
    Star,
    Less,
    Greater,
    Equal,
    Digit(u32),
    Other,
}
