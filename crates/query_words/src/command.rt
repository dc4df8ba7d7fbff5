//! What words ask for.

/// A command with its numbers.
#[derive(Clone, Copy, Debug, PartialEq, Eq)]
pub enum Command {
    /// `query`: by so many threads, 1 to 32, over rows that are cut into so many pieces, 1 to 64.
    Query { threads: u32, pieces: u32 },
    /// `script`: its sessions are dealt to so many threads, 1 to 32.
    Script { threads: u32 },
    /// `make`: so many rows, at most 1,000,000, that this number determines.
    Make { number: u64, rows: u64 },
}

/// The words ask for no command.
#[derive(Clone, Copy, Debug, PartialEq, Eq)]
pub struct Usage;
