//! Why a call is refused.
ghost use Rattle.chain_params.specs.declared.fault.ChainFault.TheVariants.{OutOfMemory};
ghost use Rattle.std.specs.Prelude.{◌≡◌};

use thiserror::Error;

/// The first rule that a call breaks. Parameters and arguments count from 1.
#[derive(Clone, Copy, Debug, PartialEq, Eq, Error)]
pub enum ChainFault {
    /// The name is no function followed by suffixes.
    #[error("unknown name")]
    UnknownName,
    /// The name has more than eight suffixes.
    #[error("too many suffixes")]
    TooManySuffixes,
    /// An `Array` stands further out than an `If`.
    #[error("Array outside If")]
    ArrayOutsideIf,
    /// The `Resample`s don't leave a number of parameters that the function takes.
    #[error("parameter count")]
    ParamCount,
    /// This parameter is of another kind or out of its range.
    #[error("bad parameter {0}")]
    BadParam(u32),
    /// The pattern's text has its first fault at this byte, from 0.
    #[error("bad pattern at {0}")]
    BadPattern(u64),
    /// The bound on the number of arguments that is broken, and how many there are.
    #[error("want {want} arguments, have {have}")]
    ArgCount { want: u32, have: u32 },
    /// The type of this argument isn't allowed at a link.
    #[error("bad argument {0}")]
    ArgType(u32),
    /// This argument isn't a state of the chain inside a `Merge`; 0 for a state type that is one of no states.
    #[error("wrong state in argument {0}")]
    WrongState(u32),
    /// There was no room for the answer.
    #[error("out of memory")]
    OutOfMemory,
}

impl From<value_types::OutOfMemory> for ChainFault {
    ghost from_gives = { λ _ fault. fault ≡ OutOfMemory };

    fn from(_error: value_types::OutOfMemory) -> ChainFault {
        ChainFault::OutOfMemory
    }
}
