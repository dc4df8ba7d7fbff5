//! Why a line has no meaning.
ghost use Rattle.request_rules.specs.Answers.{part_refusal};
ghost use Rattle.request_rules.specs.declared.refusal.Refusal.TheVariants.{OutOfMemory};
ghost use Rattle.std.specs.Prelude.{◌≡◌};

use chain_params::ChainFault;
use refusals::Why;

/// Why a line has no meaning.
#[derive(Clone, Copy, Debug, PartialEq, Eq)]
pub enum Refusal {
    /// The first rule that it breaks.
    Broken(Why),
    OutOfMemory,
}

impl From<value_lists::OutOfMemory> for Refusal {
    ghost from_gives = { λ _ refusal. refusal ≡ OutOfMemory };

    fn from(_error: value_lists::OutOfMemory) -> Refusal {
        Refusal::OutOfMemory
    }
}

/// A fault of a part of the line, a column or a call, counted from 1.
pub(crate) fn part_refusal(part: u32, fault: ChainFault) -> Refusal
    ensures { result ≡ part_refusal part fault }
{
    match fault {
        ChainFault::OutOfMemory => Refusal::OutOfMemory,
        fault => Refusal::Broken(Why::Chain { part, fault }),
    }
}
