//! Two jobs that wait for each other, so each must be in a thread of its own.
ghost use Rattle.std.specs.Prelude.{None};

use piece_claims::{Job, JobFault};
use std::alloc::{AllocError, Global};
use std::sync::Arc;
use std::sync::atomic::AtomicU64;
use std::sync::atomic::Ordering::SeqCst;

const MOST_LOOKS: u64 = 10_000_000_000;

/// Raises its flag, and looks for the other's.
#[derive(Drop)]
pub struct Meet {
    mine: Arc<AtomicU64, Global>,
    other: Arc<AtomicU64, Global>,
}

impl Meet {
    /// Two that look for each other.
    pub fn both(alloc: Global) -> Result<(Meet, Meet), AllocError> {
        let first = Arc::new(alloc, AtomicU64::new(0))?;
        let second = Arc::new(alloc, AtomicU64::new(0))?;
        let one = Meet {
            mine: Arc::try_clone(&first)?,
            other: Arc::try_clone(&second)?,
        };
        let two = Meet {
            mine: second,
            other: first,
        };
        Ok((one, two))
    }
}

impl Job for Meet {
    type Out = bool;

    type Fault = ();

    ghost gives = { λ _ _. Unit {0} };

    ghost fault = { λ _. None };

    fn work(self) -> Result<bool, JobFault<()>> {
        self.mine.store(1, SeqCst);
        for _ in 0..MOST_LOOKS {
            if self.other.load(SeqCst) == 1 {
                return Ok(true);
            }
        }
        Ok(false)
    }
}
