//! `agg query`: counts and sums of the table on standard input, on standard output.
#![tactic(auto)]

use agg_ports::{Put, Sink, StdSink, StdSource};
use agg_program::{run, status_number};
use refusals::Status;
use std::env;
use std::io::ErrorKind;
use std::process::ExitCode;

/// Why the words behind the program's name can't be had.
#[derive(Clone, Copy)]
enum WordsFault {
    NotText,
    OutOfMemory,
}

fn words(rt: &HostRuntime) -> Result<Vec<String>, WordsFault> {
    let args = match env::args(rt) {
        Ok(args) => args,
        Err(fault) if fault.kind() == ErrorKind::InvalidData => return Err(WordsFault::NotText),
        Err(_) => return Err(WordsFault::OutOfMemory),
    };
    let mut words = Vec::new(rt.alloc());
    for word in args.skip(1) {
        if words.push(word).is_err() {
            return Err(WordsFault::OutOfMemory);
        }
    }
    Ok(words)
}

// Ends for want of memory before the words are known.
fn refuse_for_memory<K: Sink>(sink: &mut K) -> Status {
    match sink.put(b"error: out of memory\n") {
        Put::Done => Status::OutOfMemory,
        Put::Failed(_) => Status::WriteFault,
    }
}

fn main(rt: HostRuntime) -> ExitCode {
    let mut source = StdSource::new(rt.stdin());
    let mut sink = StdSink::new(rt.stdout());
    let status = match words(&rt) {
        Ok(words) => run(&rt, rt.alloc(), &words, &mut source, &mut sink),
        // Words that are not text are no command.
        Err(WordsFault::NotText) => run(&rt, rt.alloc(), &[], &mut source, &mut sink),
        Err(WordsFault::OutOfMemory) => refuse_for_memory(&mut sink),
    };
    ExitCode::from(status_number(&status))
}
