//! The runs of a case.
use crate::cases::Case;
use crate::fault::RunFault;
use agg_ports::{MemorySink, MemorySource};
use agg_program::{run, status_number};
use std::alloc::Global;
use std::random::RandomSource;
use std::thread::Threads;

/// Where a case came out otherwise than it says.
#[derive(Clone, Copy, PartialEq, Eq)]
pub(crate) enum Difference {
    Nowhere,
    Whole,
    Slow,
    FailingSource,
    FailingSink,
}

/// How a run ended.
#[derive(Clone, Copy, PartialEq, Eq)]
enum Ending {
    AsWanted,
    ReadFailed,
    WriteFailed,
    Otherwise,
}

/// In how many calls a source is read that fails at each of them in turn.
const CALLS: u64 = 40;

/// What a source or a sink fails at: no call, or one.
fn fails_at(alloc: Global, call: u64) -> Result<Vec<u64>, RunFault> {
    let mut fails = Vec::new(alloc);
    if call > 0 {
        fails.push(call)?;
    }
    Ok(fails)
}

/// The sink of a run, with room for more than is wanted.
fn sink_for(alloc: Global, case: &Case, fails: Vec<u64>) -> Result<MemorySink, RunFault> {
    match MemorySink::new(alloc, case.output.len().saturating_add(4096), fails) {
        Ok(sink) => Ok(sink),
        Err(_) => Err(RunFault::OutOfMemory),
    }
}

fn ending_of(case: &Case, status: u8, written: &[u8]) -> Ending {
    if status == case.status && written == case.output.as_slice() {
        Ending::AsWanted
    } else if status == 6 && written == b"error: read failed\n".as_slice() {
        Ending::ReadFailed
    } else if status == 7 && written.is_empty() {
        Ending::WriteFailed
    } else {
        Ending::Otherwise
    }
}

/// Runs a case over a source that gives so many bytes a call, and over a source and a sink that fail at these calls; 0 is none.
fn run_over<R: Threads + RandomSource + Clone + Send + Sync + Drop>(
    rt: &R,
    alloc: Global,
    case: &Case,
    most: usize,
    source_fails: u64,
    sink_fails: u64,
) -> Result<Ending, RunFault> {
    let bytes = Vec::from_slice(alloc, &case.input)?;
    let mut source = MemorySource::new(bytes, most.max(1), fails_at(alloc, source_fails)?);
    let mut sink = sink_for(alloc, case, fails_at(alloc, sink_fails)?)?;
    let status = run(rt, alloc, &case.words, &mut source, &mut sink);
    Ok(ending_of(case, status_number(&status), sink.held()))
}

/// Whether a source that fails at one call, whichever it is, ends in a fault of reading, or in what is wanted where that is told before.
fn fails_well<R: Threads + RandomSource + Clone + Send + Sync + Drop>(
    rt: &R,
    alloc: Global,
    case: &Case,
) -> Result<bool, RunFault> {
    let most = case.input.len() / CALLS as usize + 1;
    let mut told = false;
    for call in 1..CALLS + 2 {
        match run_over(rt, alloc, case, most, call, 0)? {
            Ending::AsWanted => told = true,
            Ending::ReadFailed if !told => {}
            _ => return Ok(false),
        }
    }
    Ok(true)
}

/// Where a case comes out otherwise than it says.
pub(crate) fn difference_in<R: Threads + RandomSource + Clone + Send + Sync + Drop>(
    rt: &R,
    alloc: Global,
    case: &Case,
) -> Result<Difference, RunFault> {
    if run_over(rt, alloc, case, usize::MAX, 0, 0)? != Ending::AsWanted {
        return Ok(Difference::Whole);
    }
    if run_over(rt, alloc, case, 1, 0, 0)? != Ending::AsWanted {
        return Ok(Difference::Slow);
    }
    if !fails_well(rt, alloc, case)? {
        return Ok(Difference::FailingSource);
    }
    match run_over(rt, alloc, case, usize::MAX, 0, 1)? {
        Ending::WriteFailed => Ok(Difference::Nowhere),
        Ending::AsWanted if case.output.is_empty() => Ok(Difference::Nowhere),
        _ => Ok(Difference::FailingSink),
    }
}
