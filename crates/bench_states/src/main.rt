//! How long a feed of each function takes, from a column of a million values: a line for each function and column. With no
//! word it prints nothing; `run` feeds each function, `run FUNCTION` one of them, and `run FUNCTION TYPE` one from one
//! column. `column` makes the column alone, for what the memory of a state is measured against, and `lent` feeds what keeps
//! nothing.
//!
//! A line has the function, the type of the column, an answer, the number of rows, and the microseconds of all feeds. With one
//! more word the program ends when its input does, so that its memory can be looked at after the last line.
#![tactic(auto)]

mod columns;
mod fault;
mod functions;
mod running;
mod timing;

use columns::Values;
use fault::BenchFault;
use functions::Function;
use std::env;
use timing::{Case, report};

/// Whether a name was asked for: by itself, or since no name was.
fn is_asked(word: &Option<String>, name: &str) -> bool {
    match word {
        Some(word) => word.as_str() == name,
        None => true,
    }
}

/// Feeds each function that is asked for, from each column that is.
fn run(rt: &HostRuntime, wanted: &Option<String>, from: &Option<String>) -> Result<(), BenchFault> {
    for function in Function::ALL {
        for values in Values::ALL {
            if is_asked(wanted, function.name()) && is_asked(from, values.name()) {
                report(rt, rt.alloc(), &Case { function, values })?;
            }
        }
    }
    Ok(())
}

fn wait(rt: &HostRuntime) -> Result<(), BenchFault> {
    for line in rt.lines(rt.alloc()) {
        line?;
    }
    Ok(())
}

fn main(rt: HostRuntime) -> Result<(), BenchFault> {
    let mut words = env::args(&rt)?.skip(1);
    if words.next().is_none() {
        return Ok(());
    }
    let wanted = words.next();
    let from = words.next();
    run(&rt, &wanted, &from)?;
    if words.next().is_some() {
        wait(&rt)?;
    }
    Ok(())
}
