//! States as bytes, a line each: the type of the state, the bytes in hexadecimal, and what is wanted of them, with tabs between. Wanted
//! is `state`, a fault with its place, or `no case` where the type is not legal or the digits are none.
//!
//! Of bytes that are a state it is printed whether they are written the same again, at how many places they can be cut so that they
//! end too early, what is wrong with one byte 00 more, and how many changes of one byte are read or refused; of other bytes their
//! first fault. A line that isn't what its case wants says so.
#![tactic(auto)]

mod cases;
mod changes;
mod fault;
mod types;
mod words;

use cases::{Again, Outcome, judge};
use fault::RunFault;
use hex::FromHexError;
use std::alloc::Global;
use std::io;
use types::named_type;
use words::{fault_words, outcome_words};

/// The longest name of a type that is read.
const MOST_BYTES: usize = 1 << 20;

/// What comes of a case; none where its line has no type of a state and no bytes.
fn judged(alloc: Global, name: &str, digits: &str) -> Result<Option<Outcome>, RunFault> {
    if name.len() > MOST_BYTES {
        return Ok(None);
    }
    let bytes = match hex::decode(alloc, digits) {
        Ok(bytes) => bytes,
        Err(FromHexError::OutOfMemory) => return Err(RunFault::OutOfMemory),
        Err(_) => return Ok(None),
    };
    match named_type(alloc, name.as_bytes())? {
        Some(ty) => Ok(Some(judge(alloc, &ty, bytes.as_slice())?)),
        None => Ok(None),
    }
}

fn print_again<R: Print>(rt: &R, alloc: Global, again: &Again) -> Result<(), RunFault> {
    let same = if again.is_written_back {
        "the same"
    } else {
        "other bytes"
    };
    let (cut, read, refused) = (again.cut_short, again.changes.read, again.changes.refused);
    print!(rt; ": {same}, {cut} fronts short, ")?;
    match again.longer {
        Some(fault) => print!(rt; "{}", fault_words(alloc, fault)?)?,
        None => print!(rt; "and longer")?,
    }
    print!(rt; ", {read} changes read, {refused} refused")?;
    if again.changes.wrong > 0 {
        print!(rt; ", {} WRONG", again.changes.wrong)?;
    }
    Ok(())
}

/// Prints what comes of a case, and whether that is wanted.
fn print_case<R: Print>(rt: &R, alloc: Global, line: &str) -> Result<(), RunFault> {
    let (name, rest) = line.split_once('\t').unwrap_or((line, ""));
    let (digits, wanted) = rest.split_once('\t').unwrap_or((rest, ""));
    let outcome = judged(alloc, name, digits)?;
    let words = outcome_words(alloc, &outcome)?;
    if words.as_str() != wanted {
        print!(rt; "UNLIKE ITS CASE: ")?;
    }
    print!(rt; "{words}")?;
    match outcome {
        Some(Outcome::Read(again)) => print_again(rt, alloc, &again)?,
        _ => {}
    }
    println!(rt; "")?;
    Ok(())
}

fn main(rt: HostRuntime) -> Result<(), RunFault> {
    for line in rt.lines(rt.alloc()) {
        let line = line?;
        print_case(&rt, rt.alloc(), line.as_str())?;
    }
    Ok(())
}
