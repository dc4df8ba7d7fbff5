//! A script: the views of its table, and its sessions of statements.

use agg_defs::Views;
use value_lists::Seq;

/// Lines of a text that stand one behind the other: where the first of them begins and where the last of them and its
/// newline end, in bytes from 0, and how many they are. Where there is none, both places are one.
#[derive(Clone, Copy, Debug, PartialEq, Eq)]
pub struct Lines {
    pub from: usize,
    pub to: usize,
    pub count: u64,
}

/// What a session asks for. A view is told by its place among the views, from 0.
#[derive(Clone, Copy, Debug, PartialEq, Eq)]
pub enum Statement {
    /// The rows of these lines enter all views at once.
    Insert(Lines),
    /// These lines have the key and the states of a group each, and enter one view.
    Load { view: u32, lines: Lines },
    /// The answer of a view.
    Read { view: u32 },
    /// The groups of a view with their states in place of the results.
    States { view: u32 },
}

/// Statements that are run one after the other.
#[derive(Drop)]
pub struct Session {
    pub statements: Seq<Statement>,
}

/// The views of a script, and its sessions in the order of their numbers. Lines of rows are told by their places in the
/// script's text.
#[derive(Drop)]
pub struct Script {
    pub views: Views,
    pub sessions: Seq<Session>,
}
