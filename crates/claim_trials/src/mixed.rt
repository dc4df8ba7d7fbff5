//! A small job of so many steps, to be timed.
ghost use Rattle.std.specs.Prelude.{None};

use piece_claims::{Job, JobFault};

#[derive(Drop)]
pub struct Mixed {
    pub seed: u64,
    pub steps: u32,
}

impl Job for Mixed {
    type Out = u64;

    type Fault = ();

    ghost gives = { λ _ _. Unit {0} };

    ghost fault = { λ _. None };

    fn work(self) -> Result<u64, JobFault<()>> {
        let mut mixed = self.seed;
        for _ in 0..self.steps {
            mixed = (mixed ^ (mixed >> 29)).wrapping_mul(6_364_136_223_846_793_005);
        }
        Ok(mixed)
    }
}
