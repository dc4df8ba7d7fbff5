//! How long windowFunnel and sequenceMatch take for 100,000 events, with 32 conditions and patterns of 64 items: a line for
//! each call. With no word it prints nothing; `run` measures all calls, and `run CALL KIND EVENTS END`, or the first of these
//! words, those of such a line.
//!
//! A line has the call, `matches`, `finish` or `level`; the links of the pattern, or the mode; when the events come; whether
//! the last one can end a match; the answer; and the microseconds.
#![tactic(auto)]

mod events;
mod fault;
mod funnels;
mod patterns;
mod timing;
mod wanted;

use events::Shape;
use fault::BenchFault;
use patterns::Links;
use std::env;
use timing::Case;
use wanted::Wanted;

/// Measures patterns with these links.
fn run_links(rt: &HostRuntime, wanted: &Wanted, links: Links) -> Result<(), BenchFault> {
    for shape in Shape::ALL {
        for ends in [false, true] {
            let case = Case { links, shape, ends };
            timing::report(rt, rt.alloc(), wanted, &case)?;
        }
    }
    Ok(())
}

/// Measures all that is asked for.
fn run(rt: &HostRuntime, wanted: &Wanted) -> Result<(), BenchFault> {
    for links in Links::ALL {
        run_links(rt, wanted, links)?;
    }
    for shape in Shape::ALL {
        for is_strict in [false, true] {
            funnels::report(rt, rt.alloc(), wanted, shape, is_strict)?;
        }
    }
    Ok(())
}

fn main(rt: HostRuntime) -> Result<(), BenchFault> {
    let mut words = env::args(&rt)?.skip(1);
    if words.next().is_none() {
        return Ok(());
    }
    let wanted = Wanted {
        call: words.next(),
        kind: words.next(),
        shape: words.next(),
        ends: words.next(),
    };
    run(&rt, &wanted)
}
