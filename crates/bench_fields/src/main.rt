//! How many fields a second are read, a line for each kind of field. With no word it prints nothing; `run` reads fields of
//! every kind, and `run KIND` those of one.
#![tactic(auto)]

mod fault;
mod fields;
mod kinds;
mod no_states;
mod timing;

use fault::BenchFault;
use kinds::Kind;
use std::env;
use timing::report;

fn main(rt: HostRuntime) -> Result<(), BenchFault> {
    let mut words = env::args(&rt)?.skip(1);
    let Some(first) = words.next() else {
        return Ok(());
    };
    if first.as_str() != "run" {
        println!(rt; "usage: bench_fields [run [KIND]]")?;
        return Ok(());
    }
    let wanted = words.next();
    for kind in Kind::ALL {
        let asked = match &wanted {
            Some(name) => name.as_str() == kind.name(),
            None => true,
        };
        if asked {
            report(&rt, rt.alloc(), kind)?;
        }
    }
    Ok(())
}
