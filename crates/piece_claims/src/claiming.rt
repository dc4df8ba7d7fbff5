//! All jobs: laid on a board, done by several threads, and their outcomes taken home in the order of the jobs.
ghost use Rattle.std.specs.Prelude.{◌≡◌, ◌≤◌, ◌<◌, ◌^◌, [], map, length, vec_capacity, IfOk, IfErr};
ghost use Rattle.std.specs.List.{AllZip};
ghost use Rattle.piece_claims.specs.Jobs.{Answers, Gives, Refuses, Stops};
ghost use Rattle.piece_claims.specs.declared.board.Slot.TheVariants.{Ready};
ghost use Rattle.piece_claims.specs.proving.Rule.{IsAt, IsOver};
ghost use Rattle.std.specs.declared.result.Result.TheVariants.{Ok};

use crate::board::{Board, Outcome, Place, Slot};
use crate::job::{ClaimFault, Job, JobFault};
use crate::spread::spread;
use std::alloc::{AllocError, Global};
use std::snapshot::Snapshot;
use std::thread::Threads;

// More threads than these are as many.
const MOST_THREADS: u32 = 1 << 10;

/// Does each job once, in as many threads as `threads` says, and the caller's is one of them; 0 counts as 1. The
/// outputs stand in the order of the jobs. A thread claims its next job when it has done the last, so
/// uneven jobs are spread evenly. Where a thread can't be started, the others do its part.
///
/// # Errors
///
/// [`ClaimFault::Own`] with the first job that has a fault of its own, and that fault; the outputs are dropped.
/// [`ClaimFault::OutOfMemory`] where the board or a job found no memory.
pub fn claim_all<H: Threads + Sync, J: Job>(
    rt: &H,
    alloc: Global,
    jobs: Vec<J>,
    threads: u32,
) -> Result<Vec<J::Out>, ClaimFault<J::Fault>>
    requires few { length jobs.items < 2 ^ 32 }
    ensures outputs { IfOk result (λ outputs. AllZip (Gives J.gives J.fault) jobs.items outputs.items) }
    ensures fault { IfErr result (Refuses J.fault jobs.items) }
{
    let count = jobs.len();
    let about = Snapshot::of(&jobs);
    let outcomes = Vec::with_capacity(alloc, count)?;
    let slots = lay_out(alloc, jobs)?;
    let (board, root) = Board::new(alloc, &[0, 0], slots, &about)?;
    let threads = threads.min(count as u32).min(MOST_THREADS);
    let root = spread(rt, &board.shared, root, count, threads);
    let outcomes = take_home(board, root, count, outcomes);
    outputs_of(alloc, outcomes)
}

/// A slot for each job, in their order.
fn lay_out<J: Drop, X: Drop>(alloc: Global, jobs: Vec<J>) -> Result<Vec<Slot<J, X>>, AllocError>
    ensures { IfOk result (λ slots. slots.items ≡ map Ready jobs.items) }
{
    let mut slots = Vec::with_capacity(alloc, jobs.len())?;
    for job in jobs {
        slots.push(Slot::Ready(job))?;
    }
    Ok(slots)
}

/// What came of each job, in their order.
fn take_home<J: Job>(
    board: Board<J>,
    root: Place<J>,
    count: usize,
    mut outcomes: Vec<Outcome<J>>,
) -> Vec<Outcome<J>>
    requires table { IsAt board.shared.key.value.items board.shared.table_id root.table_id }
    requires count { count ≡ length board.shared.key.value.items }
    requires ended { IsOver root.me.0 }
    requires room { (outcomes.items ≡ []) × (count ≤ vec_capacity outcomes) }
    ensures { AllZip (Answers J.gives J.fault) board.shared.key.value.items result.items }
{
    let mut closed = board.close_with(root);
    let mut number = 0;
    while number < count {
        let Slot::Done(outcome) = closed.take(number) else {
            unreachable!()
        };
        outcomes.push_reserved(outcome);
        number += 1;
    }
    closed.free();
    outcomes
}

/// The outputs, or the fault of the first job that has none.
fn outputs_of<O: Drop, F: Drop>(
    alloc: Global,
    outcomes: Vec<Result<O, JobFault<F>>>,
) -> Result<Vec<O>, ClaimFault<F>>
    requires few { length outcomes.items < 2 ^ 32 }
    ensures outputs { IfOk result (λ outputs. outcomes.items ≡ map Ok outputs.items) }
    ensures fault { IfErr result (Stops outcomes.items) }
{
    let mut outputs = Vec::with_capacity(alloc, outcomes.len())?;
    let mut number = 0;
    for outcome in outcomes {
        match outcome {
            Ok(output) => {
                if outputs.push(output).is_err() {
                    return Err(ClaimFault::OutOfMemory);
                }
            }
            Err(JobFault::Own(fault)) => {
                return Err(ClaimFault::Own { job: number, fault });
            }
            Err(JobFault::OutOfMemory) => return Err(ClaimFault::OutOfMemory),
        }
        number += 1;
    }
    Ok(outputs)
}
