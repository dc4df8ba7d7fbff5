//! Jobs that several threads do, each of them once.
//!
//! The jobs lie in a row on a board. A thread claims the next one by adding 1 to a word, does it and puts
//! its outcome where the job lay, and so on until none is left; so a thread with a long job claims fewer.
//! What the board keeps at every moment, whatever the order of the threads, stands in `specs/Rule`; what
//! a job may answer, and what all jobs come to, in `specs/Jobs`. No thread waits for another but at the
//! end, where they are joined.
#![tactic(auto)]

mod board;
mod claiming;
mod job;
mod spread;
mod worker;

pub use claiming::claim_all;
pub use job::{ClaimFault, Job, JobFault};
