//! Why a line is none of its form.

ghost use Rattle.std.specs.Prelude.{◌≡◌};

use thiserror::Error;

/// Why a line is none of its form.
#[derive(Debug, Drop, Error)]
pub enum LineFault {
    /// The place of the first token that no line of the form goes on with, in bytes from 0, or the line's length where
    /// it ends too early.
    #[error("syntax at {0}")]
    Syntax(u64),
    #[error("out of memory")]
    OutOfMemory,
}

impl From<value_lists::OutOfMemory> for LineFault {
    ghost use Rattle.line_forms.specs.declared.fault.LineFault.{LineFault};

    ghost from_gives = { λ _ fault. fault ≡ LineFault.OutOfMemory };

    fn from(_error: value_lists::OutOfMemory) -> Self {
        LineFault::OutOfMemory
    }
}
