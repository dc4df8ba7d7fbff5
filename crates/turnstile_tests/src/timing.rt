//! How long a turn takes.
use crate::sessions::run_sessions;
use std::alloc::Global;
use std::io;
use std::rt::Clock;
use std::sync::Wait;
use std::thread::Threads;
use std::time::Instant;

fn number(word: &Option<String>) -> u32 {
    match word {
        Some(word) => word.as_str().parse::<u32>().unwrap_or(0),
        None => 0,
    }
}

/// Runs so many sessions of so many turns, and prints the nanoseconds that a turn took.
pub fn report<R: Threads + Wait + Print + Clock + Sync>(
    rt: &R,
    alloc: Global,
    threads: &Option<String>,
    turns: &Option<String>,
) -> io::Result<()> {
    let threads = number(threads).min(64);
    let turns = number(turns);
    let start = Instant::now(rt)?;
    let ran = run_sessions(rt, alloc, threads, turns);
    let nanos = start.elapsed(rt)?.as_nanos();
    let entries = match ran {
        Some((journal, _)) => journal.len(),
        None => 0,
    };
    println!(rt; "{threads} {turns} {entries} {nanos}")
}
