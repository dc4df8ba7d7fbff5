//! One trial: its words, its jobs, and what is printed of it.
use crate::fault::TrialFault;
use crate::meet::Meet;
use crate::mixed::Mixed;
use crate::square::Square;
use piece_claims::{ClaimFault, claim_all};
use std::alloc::Global;
use std::fmt::Display;
use std::io;
use std::rt::Clock;
use std::str::Split;
use std::thread::Threads;
use std::time::Instant;

fn number(word: Option<&str>) -> Result<u32, TrialFault> {
    match word {
        Some(word) => match word.parse() {
            Ok(number) => Ok(number),
            Err(_) => Err(TrialFault::Words),
        },
        None => Err(TrialFault::Words),
    }
}

fn print_all<R: Print, T: Display>(rt: &R, outputs: &[T]) -> io::Result<()> {
    for output in outputs {
        println!(rt; "{output}")?;
    }
    Ok(())
}

fn squares<R: Threads + Sync + Print>(
    rt: &R,
    alloc: Global,
    jobs: Vec<Square>,
    threads: u32,
) -> Result<(), TrialFault> {
    if jobs.len() >= 1 << 32 {
        return Err(TrialFault::Words);
    }
    match claim_all(rt, alloc, jobs, threads) {
        Ok(outputs) => print_all(rt, outputs.as_slice())?,
        Err(ClaimFault::Own { job, fault }) => println!(rt; "job {job}: {fault}")?,
        Err(ClaimFault::OutOfMemory) => return Err(TrialFault::OutOfMemory),
    }
    Ok(())
}

fn meet<R: Threads + Sync + Print>(rt: &R, alloc: Global, threads: u32) -> Result<(), TrialFault> {
    let (one, two) = Meet::both(alloc)?;
    let jobs = vec![in alloc; one, two]?;
    let met = claim_all(rt, alloc, jobs, threads)?;
    print_all(rt, met.as_slice())?;
    Ok(())
}

fn mixed(alloc: Global, count: u32, steps: u32) -> Result<Vec<Mixed>, TrialFault> {
    let mut jobs = Vec::new(alloc);
    for seed in 0..count {
        jobs.push(Mixed {
            seed: u64::from(seed),
            steps,
        })?;
    }
    Ok(jobs)
}

fn time<R: Threads + Sync + Print + Clock>(
    rt: &R,
    alloc: Global,
    jobs: Vec<Mixed>,
    threads: u32,
) -> Result<(), TrialFault> {
    if jobs.len() >= 1 << 32 {
        return Err(TrialFault::Words);
    }
    let start = Instant::now(rt)?;
    let outputs = claim_all(rt, alloc, jobs, threads)?;
    let micros = start.elapsed(rt)?.as_micros();
    let sum = outputs
        .iter()
        .fold(0u64, |sum, output| sum.wrapping_add(*output));
    println!(rt; "{micros} {sum}")?;
    Ok(())
}

/// Makes the trial of a line.
pub fn trial<R: Threads + Sync + Print + Clock>(
    rt: &R,
    alloc: Global,
    line: &str,
) -> Result<(), TrialFault> {
    let mut words = line.split(' ');
    let kind = words.next();
    let threads = number(words.next())?;
    match kind {
        Some("squares") => {
            let mut jobs = Vec::new(alloc);
            for word in words {
                match Square::read(word) {
                    Some(job) => jobs.push(job)?,
                    None => return Err(TrialFault::Words),
                }
            }
            squares(rt, alloc, jobs, threads)
        }
        Some("meet") => meet(rt, alloc, threads),
        Some("time") => {
            let count = number(words.next())?;
            let steps = number(words.next())?;
            time(rt, alloc, mixed(alloc, count, steps)?, threads)
        }
        _ => Err(TrialFault::Words),
    }
}
