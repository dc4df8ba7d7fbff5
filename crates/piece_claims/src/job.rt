//! What a job is, and why one fails.
ghost use Rattle.std.specs.Prelude.{Option};
ghost use Rattle.piece_claims.specs.Jobs.{Answers};

use atomic_table::Refused;
use std::alloc::{AllocError, Global};

/// Why a job has no output.
#[derive(Debug, Drop)]
pub enum JobFault<F> {
    /// A fault of the job's own.
    Own(F),
    OutOfMemory,
}

/// Why a list of jobs has no outputs.
#[derive(Debug, Drop)]
pub enum ClaimFault<F> {
    /// The first job with a fault of its own, counted from 0, and that fault.
    Own { job: u32, fault: F },
    OutOfMemory,
}

/// Work for one thread, which is done by giving the job away.
pub trait Job: Send + Drop {
    type Out: Send + Drop;

    type Fault: Send + Drop;

    // The job may give this output.
    ghost gives: { Self → Self.Out → Type 0 };

    // The fault of its own that the job has, or none.
    ghost fault: { Self → Option Self.Fault };

    /// Does the job.
    ///
    /// # Errors
    ///
    /// [`JobFault::Own`] where the job has a fault of its own, and [`JobFault::OutOfMemory`].
    fn work(self) -> Result<Self::Out, JobFault<Self::Fault>>
        ensures { Answers gives fault self result };
}

impl<F> From<AllocError> for ClaimFault<F> {
    ghost use Rattle.std.specs.Prelude.{◌≡◌};
    ghost use Rattle.piece_claims.specs.declared.job.ClaimFault.TheVariants.{OutOfMemory};

    ghost from_gives = { λ _ fault. fault ≡ OutOfMemory };

    fn from(_error: AllocError) -> ClaimFault<F> {
        ClaimFault::OutOfMemory
    }
}

/// The jobs that no board was found for are dropped.
impl<S: Drop, F> From<Refused<S, Global>> for ClaimFault<F> {
    ghost use Rattle.std.specs.Prelude.{◌≡◌};
    ghost use Rattle.piece_claims.specs.declared.job.ClaimFault.TheVariants.{OutOfMemory};

    ghost from_gives = { λ _ fault. fault ≡ OutOfMemory };

    fn from(_refused: Refused<S, Global>) -> ClaimFault<F> {
        ClaimFault::OutOfMemory
    }
}
