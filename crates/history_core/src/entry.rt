//! What stands in a history, and what may be done to one.

/// The insert or load number `seq` of the session number `session`.
#[derive(Clone, Copy, Debug, PartialEq, Eq)]
pub struct Entry {
    pub session: u32,
    pub seq: u32,
}

/// One step of a history.
#[derive(Clone, Copy, Debug, PartialEq, Eq)]
pub enum CoreEvent {
    /// Adds an entry at the end.
    Commit(Entry),
    /// A session reads the history as it is.
    Look { session: u32 },
}
