ghost use Rattle.pattern_texts.specs.declared.fault.PatternFault.TheVariants.{OutOfMemory};
ghost use Rattle.std.specs.Prelude.{◌≡◌};

use thiserror::Error;

/// Why a text is no pattern.
#[derive(Debug, Drop, Error)]
pub enum PatternFault {
    /// The length in bytes of the longest front of the text that begins some pattern.
    #[error("bad pattern at {0}")]
    At(u64),
    #[error("out of memory")]
    OutOfMemory,
}

impl From<value_lists::OutOfMemory> for PatternFault {
    ghost from_gives = { λ _ fault. fault ≡ OutOfMemory };

    fn from(_error: value_lists::OutOfMemory) -> PatternFault {
        PatternFault::OutOfMemory
    }
}
