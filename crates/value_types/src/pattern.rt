//! The patterns of `sequenceMatch`.
use value_lists::Seq;

/// A pattern: its items in their order, and what stands between each two of them.
#[derive(Debug, Drop)]
pub struct Pattern {
    pub items: Seq<PatItem>,
    /// One fewer than the items, where there are items.
    pub links: Seq<PatLink>,
}

/// What one event of a match must be.
#[derive(Clone, Copy, Debug, PartialEq, Eq)]
pub enum PatItem {
    /// `(?N)`: an event that meets the condition of this number, counted from 1.
    Cond(u32),
    /// `.`: any event.
    Any,
}

/// How the event of an item follows that of the item before.
#[derive(Clone, Copy, Debug, PartialEq, Eq)]
pub enum PatLink {
    /// The very next event.
    Next,
    /// `.*`: any later event.
    Gap,
    /// `(?t OP N)`: a later event, whose time minus that of the event before stands so to N.
    Time(Op, u64),
}

/// A comparison of the time between two events with a number.
#[derive(Clone, Copy, Debug, PartialEq, Eq)]
pub enum Op {
    Less,
    LessEq,
    Equal,
    GreaterEq,
    Greater,
}
