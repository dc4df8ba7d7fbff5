//! Cases of whole runs of the program, as text on the standard input; their form stands in docs/FORMATS.md, "Cases of whole
//! runs". Each case is run over memory: at once, with one byte a call, with a source that fails at each of its calls, and with a sink
//! that fails. The name of each case that comes out otherwise than it says is printed, and how many there are.
#![tactic(auto)]

mod cases;
mod fault;
mod runs;

use cases::Case;
use fault::RunFault;
use runs::{Difference, difference_in};
use std::alloc::Global;
use std::io::Read;

/// How many cases there were, and how many of them came out otherwise than they say.
#[derive(Clone, Copy)]
struct Tally {
    cases: u64,
    differ: u64,
}

impl Tally {
    fn with(self, found: Difference) -> Tally {
        Tally {
            cases: self.cases.saturating_add(1),
            differ: self
                .differ
                .saturating_add(u64::from(found != Difference::Nowhere)),
        }
    }
}

fn where_it_differs(found: Difference) -> &'static str {
    match found {
        Difference::Nowhere => "nowhere",
        Difference::Whole => "run at once",
        Difference::Slow => "run a byte a call",
        Difference::FailingSource => "run over a source that fails",
        Difference::FailingSink => "run into a sink that fails",
    }
}

fn print_difference<R: Print>(
    rt: &R,
    alloc: Global,
    case: &Case,
    found: Difference,
) -> Result<(), RunFault> {
    let name = String::from_utf8_lossy(alloc, &case.name)?;
    println!(rt; "DIFFERS, {}: {name}", where_it_differs(found))?;
    Ok(())
}

fn input_of(rt: &HostRuntime) -> Result<Vec<u8>, RunFault> {
    let mut text = Vec::new(rt.alloc());
    rt.stdin().read_to_end(&mut text)?;
    Ok(text)
}

fn main(rt: HostRuntime) -> Result<(), RunFault> {
    let text = input_of(&rt)?;
    let mut case = Case::new(rt.alloc());
    let mut tally = Tally {
        cases: 0,
        differ: 0,
    };
    for line in text.split(|byte| *byte == b'\n') {
        if case.take_line(rt.alloc(), line)? {
            let found = difference_in(&rt, rt.alloc(), &case)?;
            if found != Difference::Nowhere {
                print_difference(&rt, rt.alloc(), &case, found)?;
            }
            tally = tally.with(found);
        }
    }
    println!(rt; "{} cases, {} differ", tally.cases, tally.differ)?;
    Ok(())
}
