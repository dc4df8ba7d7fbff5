//! Values, and the trees that states are.
use value_lists::{Bytes, Seq};

/// A value. A state stands in a column as a cell.
#[cycle(value)]
#[derive(Debug, Drop)]
pub enum Value {
    Num(i128),
    Bytes(Bytes),
    /// NULL.
    Nil,
    List(Seq<Value>),
    /// The entries of a map: a key and its value.
    Pairs(Seq<(Value, Value)>),
    Cell(Tree),
}

/// A state as a tree.
#[cycle(value)]
#[derive(Debug, Drop)]
pub enum Tree {
    Empty,
    Word(i128),
    Tuple(Seq<Value>),
    Values(Seq<Value>),
    Rows(Seq<Seq<Value>>),
    Events(Seq<Event>),
    Slots(Seq<Tree>),
    Keyed(Seq<KeyedTree>),
}

/// The state at a key of a map.
#[cycle(value)]
#[derive(Debug, Drop)]
pub struct KeyedTree {
    pub key: Value,
    pub tree: Tree,
}

/// An event: its time, and the conditions that it meets. Condition i is bit i - 1 of the mask.
#[derive(Clone, Copy, Debug, PartialEq, Eq)]
pub struct Event {
    pub time: u64,
    pub mask: u32,
}
