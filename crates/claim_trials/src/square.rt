//! A job that squares a number, or has a fault.
use piece_claims::{Job, JobFault};

#[derive(Drop)]
pub enum Square {
    Of(u32),
    Refused(u32),
}

impl Job for Square {
    type Out = u64;

    type Fault = u32;

    ghost use Rattle.claim_trials.specs.Squares.{squares, refusal};

    ghost gives = { squares };

    ghost fault = { refusal };

    fn work(self) -> Result<u64, JobFault<u32>> {
        match self {
            Square::Of(number) => Ok(u64::from(number) * u64::from(number)),
            Square::Refused(why) => Err(JobFault::Own(why)),
        }
    }
}

impl Square {
    /// The job that a word asks for.
    pub fn read(word: &str) -> Option<Square> {
        match word.strip_prefix("!") {
            Some(why) => Some(Square::Refused(why.parse().ok()?)),
            None => Some(Square::Of(word.parse().ok()?)),
        }
    }
}
