//! Why a line of a request or of a script is refused.
ghost use Rattle.refusals.specs.declared.why.RequestFault.TheVariants.{OutOfMemory};
ghost use Rattle.std.specs.Prelude.{◌≡◌};

use chain_params::ChainFault;

/// A number that a request keeps below a limit (this project's own choice).
#[derive(Clone, Copy, Debug, PartialEq, Eq)]
pub enum LimitName {
    /// 64 columns in a table.
    Columns,
    /// 64 calls behind a SELECT.
    Calls,
    /// 8 keys behind a GROUP BY.
    Keys,
    /// 16 views in a script.
    Views,
    /// 32 sessions in a script.
    Sessions,
    /// 16 types in one another.
    Depth,
}

/// Why a line is refused. Places count bytes of the line from 0; columns and calls count from 1.
#[derive(Clone, Copy, Debug, PartialEq, Eq)]
pub enum Why {
    /// The first token that no line of this form goes on with, or the line's length where it ends too early.
    Syntax(u64),
    /// A number above its limit.
    Limit(LimitName),
    /// The name of no column.
    UnknownColumn(u64),
    /// The name of no view.
    UnknownView(u64),
    /// A name that stood before.
    Repeated(u64),
    /// The first rule on chains that a column's state type or a call breaks; never its `OutOfMemory`.
    Chain { part: u32, fault: ChainFault },
    /// A key that is no number, no String and no Nullable of one.
    KeyType(u64),
    /// Fewer lines follow than the statement asks for.
    Lines,
    /// A session's number that isn't one more than that of the session before.
    SessionOrder(u64),
}

/// Why a request or a script is refused: its first refused line, counted from 1, and why.
#[derive(Clone, Copy, Debug, PartialEq, Eq)]
pub enum RequestFault {
    Bad { line: u64, why: Why },
    OutOfMemory,
}

impl From<value_lists::OutOfMemory> for RequestFault {
    ghost from_gives = { λ _ fault. fault ≡ OutOfMemory };

    fn from(_error: value_lists::OutOfMemory) -> RequestFault {
        RequestFault::OutOfMemory
    }
}
