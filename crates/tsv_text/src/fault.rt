ghost use Rattle.std.specs.Prelude.{◌≡◌};
ghost use Rattle.tsv_text.specs.declared.fault.TextFault.TheVariants.{OutOfMemory};

use std::alloc::{AllocError, AllocFailed};
use thiserror::Error;

/// Why a field can't be unescaped. A place is that of the backslash, in bytes from 0.
#[derive(Debug, Drop, Error)]
pub enum TextFault {
    /// The field ends behind a backslash that begins an escape.
    #[error("lone backslash at {0}")]
    LoneBackslash(u64),
    /// No two hexadecimal digits stand behind `\x`.
    #[error("bad hex escape at {0}")]
    BadHex(u64),
    #[error("out of memory")]
    OutOfMemory,
}

impl From<AllocError> for TextFault {
    ghost from_gives = { λ _ fault. fault ≡ OutOfMemory };

    fn from(_error: AllocError) -> TextFault {
        TextFault::OutOfMemory
    }
}

impl<T: Drop> From<AllocFailed<T>> for TextFault {
    ghost from_gives = { λ _ fault. fault ≡ OutOfMemory };

    fn from(_error: AllocFailed<T>) -> TextFault {
        TextFault::OutOfMemory
    }
}
