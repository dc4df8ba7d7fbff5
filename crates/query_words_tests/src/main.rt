//! Lists of words as cases that stand as data: each line of the input is the words of a command line, with one space between
//! two of them (so an empty word stands between two spaces, and an empty line has no words); the answer is the command with
//! its numbers, or `usage`.
#![tactic(auto)]

use query_words::{Command, Usage, read_words};
use std::alloc::{AllocError, AllocFailed, Global};
use std::io;

/// Why a line wasn't told.
#[derive(Debug, Drop)]
enum TestFault {
    OutOfMemory,
    Io(io::Error),
}

impl From<AllocError> for TestFault {
    fn from(_error: AllocError) -> TestFault {
        TestFault::OutOfMemory
    }
}

impl From<io::Error> for TestFault {
    fn from(error: io::Error) -> TestFault {
        TestFault::Io(error)
    }
}

fn words_of(alloc: Global, line: &str) -> Result<Vec<String>, TestFault> {
    let mut words = Vec::new(alloc);
    if line.is_empty() {
        return Ok(words);
    }
    for word in line.split(' ') {
        match words.push(String::from_str(alloc, word)?) {
            Ok(()) => {}
            Err(_) => return Err(TestFault::OutOfMemory),
        }
    }
    Ok(words)
}

fn told(alloc: Global, line: &str) -> Result<String, TestFault> {
    let words = words_of(alloc, line)?;
    match read_words(&words) {
        Ok(Command::Query { threads, pieces }) => Ok(format!(in alloc;
            "query {threads} {pieces}"
        )?),
        Ok(Command::Script { threads }) => Ok(format!(in alloc; "script {threads}")?),
        Ok(Command::Make { number, rows }) => Ok(format!(in alloc; "make {number} {rows}")?),
        Err(Usage) => Ok(format!(in alloc; "usage")?),
    }
}

fn main(rt: HostRuntime) -> Result<(), TestFault> {
    for line in rt.lines(rt.alloc()) {
        let line = line?;
        let answer = told(rt.alloc(), line.as_str())?;
        println!(rt; "{answer}")?;
    }
    Ok(())
}
