//! Runs of a turnstile. Each line of the input has a number of threads and how many turns each takes, or `meet`: one pass
//! in turn while two others wait. What is printed doesn't depend on how the threads ran.
//!
//! With the words `time THREADS TURNS` it prints these two numbers and the nanoseconds that one turn took.
#![tactic(auto)]

mod board;
mod report;
mod sessions;
mod timing;

ghost use Rattle.std.specs.Prelude.{◌<◌, ◌^◌};

use report::is_whole;
use sessions::{run_meeting, run_sessions};
use std::alloc::Global;
use std::sync::Wait;
use std::thread::Threads;
use std::{env, io};

/// More threads than that aren't started.
const MOST: u32 = 64;

fn yes_or_no(holds: bool) -> &'static str {
    if holds { "yes" } else { "no" }
}

/// Runs the sessions, and says what they left.
fn report_sessions<R: Threads + Wait + Print + Sync>(
    rt: &R,
    alloc: Global,
    threads: u32,
    turns: u32,
) -> io::Result<()>
    requires { threads < 2 ^ 31 }
{
    let Some((journal, rises)) = run_sessions(rt, alloc, threads, turns) else {
        return println!(rt; "memory");
    };
    let entries = journal.len();
    let whole = yes_or_no(is_whole(alloc, &journal, threads, turns)?);
    let rising = yes_or_no(rises);
    println!(rt;
        "threads {threads} turns {turns} entries {entries} in order {whole} notes rise {rising}"
    )
}

/// Has three passes meet, and says who came first and how many came.
fn report_meeting<R: Threads + Wait + Print + Sync>(rt: &R, alloc: Global) -> io::Result<()> {
    let Some(journal) = run_meeting(rt, alloc) else {
        return println!(rt; "memory");
    };
    let first = match journal.first() {
        Some(entry) => entry.session,
        None => 0,
    };
    let entries = journal.len();
    println!(rt; "first {first} entries {entries}")
}

fn number(word: Option<&str>) -> u32 {
    match word {
        Some(word) => word.parse::<u32>().unwrap_or(0),
        None => 0,
    }
}

fn run_line<R: Threads + Wait + Print + Sync>(rt: &R, alloc: Global, line: &str) -> io::Result<()> {
    if line == "meet" {
        return report_meeting(rt, alloc);
    }
    let mut words = line.split(' ');
    let threads = number(words.next()).min(MOST);
    let turns = number(words.next());
    report_sessions(rt, alloc, threads, turns)
}

fn main(rt: HostRuntime) -> io::Result<()> {
    let mut words = env::args(&rt)?.skip(1);
    if words.next().is_some() {
        let threads = words.next();
        let turns = words.next();
        return timing::report(&rt, rt.alloc(), &threads, &turns);
    }
    for line in rt.lines(rt.alloc()) {
        let line = line?;
        run_line(&rt, rt.alloc(), &line)?;
    }
    Ok(())
}
