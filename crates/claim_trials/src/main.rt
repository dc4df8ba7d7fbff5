//! Lists of jobs that are claimed by threads: a trial for each line of the input, and its outcome on lines of its own.
//!
//! `squares THREADS N N ..` squares each number, and a number behind a `!` is a fault of that job. `meet THREADS` has two jobs that wait
//! for each other, and `time THREADS JOBS STEPS` prints the microseconds that so many jobs of so many steps took.
#![tactic(auto)]

mod fault;
mod meet;
mod mixed;
mod square;
mod trial;

use trial::trial;

fn main(rt: HostRuntime) -> Result<(), fault::TrialFault> {
    for line in rt.lines(rt.alloc()) {
        let line = line?;
        trial(&rt, rt.alloc(), line.as_str())?;
    }
    Ok(())
}
