//! A line of a script, apart from its table and from lines of rows.

use crate::name::WrittenName;
use crate::select::WrittenSelect;

/// A view, the head of a session, or a statement.
#[derive(Debug, Drop)]
pub enum WrittenLine {
    View {
        name: WrittenName,
        select: WrittenSelect,
    },
    /// The place of the session's number, and the number.
    Session {
        at: u64,
        number: i128,
    },
    /// How many lines of rows follow.
    Insert {
        count: u128,
    },
    /// How many lines of keys and states follow.
    Load {
        view: WrittenName,
        count: u128,
    },
    Read {
        view: WrittenName,
    },
    States {
        view: WrittenName,
    },
}
