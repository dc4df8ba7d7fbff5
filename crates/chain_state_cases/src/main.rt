//! Cases of states, as text on the standard input; their form stands in docs/FORMATS.md, "Cases of states". Each is a call over rows,
//! which are fed to its states in every way that there is, cut at every place. The name of each case that comes to another value or
//! another state than it says is printed, and how many there are.
#![tactic(auto)]

mod cases;
mod fault;
mod runs;
mod tables;
mod trial;
mod ways;

use cases::Case;
use fault::RunFault;
use runs::{Difference, difference_in};
use std::alloc::Global;
use std::io::Read;
use ways::Way;

/// How many cases there were, and how many of them came out otherwise than they say.
#[derive(Clone, Copy)]
struct Tally {
    cases: u64,
    differ: u64,
}

impl Tally {
    fn with(self, found: Difference) -> Tally {
        Tally {
            cases: self.cases.saturating_add(1),
            differ: self
                .differ
                .saturating_add(u64::from(found != Difference::Nowhere)),
        }
    }
}

fn way_words(way: Way) -> &'static str {
    match way {
        Way::RowByRow => "fed row by row",
        Way::AtOnce => "fed at once",
        Way::ByPlaces => "fed by places",
        Way::TwoParts => "merged of two parts",
        Way::ThreeParts => "merged of three parts",
        Way::Copied => "copied and fed on",
        Way::FromTree => "loaded from a tree and fed on",
        Way::FromBytes => "loaded from bytes and fed on",
    }
}

fn where_it_differs(found: Difference) -> &'static str {
    match found {
        Difference::Nowhere => "nowhere",
        Difference::NoCall => "no call of its table",
        Difference::NoRows => "no rows of its table",
        Difference::In(way) => way_words(way),
    }
}

fn print_difference<R: Print>(
    rt: &R,
    alloc: Global,
    case: &Case,
    found: Difference,
) -> Result<(), RunFault> {
    let name = String::from_utf8_lossy(alloc, &case.name)?;
    println!(rt; "DIFFERS, {}: {name}", where_it_differs(found))?;
    Ok(())
}

fn input_of(rt: &HostRuntime) -> Result<Vec<u8>, RunFault> {
    let mut text = Vec::new(rt.alloc());
    rt.stdin().read_to_end(&mut text)?;
    Ok(text)
}

fn main(rt: HostRuntime) -> Result<(), RunFault> {
    let text = input_of(&rt)?;
    let mut case = Case::new(rt.alloc());
    let mut tally = Tally {
        cases: 0,
        differ: 0,
    };
    for line in text.split(|byte| *byte == b'\n') {
        if case.take_line(rt.alloc(), line)? {
            let found = difference_in(rt.alloc(), &case)?;
            if found != Difference::Nowhere {
                print_difference(&rt, rt.alloc(), &case, found)?;
            }
            tally = tally.with(found);
        }
    }
    println!(rt; "{} cases, {} differ", tally.cases, tally.differ)?;
    Ok(())
}
