//! Steps of a history, a line each: `commit SESSION SEQ` or `look SESSION`. The note of each is printed, and then the history.
#![tactic(auto)]

mod fault;

use fault::RunFault;
use history_core::{Core, CoreEvent, Entry};
use std::io;

fn number(word: Option<&str>) -> u32 {
    match word {
        Some(word) => word.parse::<u32>().unwrap_or(0),
        None => 0,
    }
}

fn event_of(line: &str) -> CoreEvent {
    let mut words = line.split(' ');
    let is_commit = words.next() == Some("commit");
    let session = number(words.next());
    if is_commit {
        let seq = number(words.next());
        CoreEvent::Commit(Entry { session, seq })
    } else {
        CoreEvent::Look { session }
    }
}

// One step, with room made for it.
fn step(core: &mut Core, event: CoreEvent) -> Result<u64, RunFault> {
    core.reserve()?;
    Ok(core.step(event))
}

fn print_history<R: Print>(rt: &R, core: &Core) -> io::Result<()> {
    println!(rt; "history {}", core.entries().len())?;
    for entry in core.entries() {
        println!(rt; "{} {}", entry.session, entry.seq)?;
    }
    Ok(())
}

fn main(rt: HostRuntime) -> Result<(), RunFault> {
    let mut core = Core::new(rt.alloc(), 2)?;
    for line in rt.lines(rt.alloc()) {
        let line = line?;
        let note = step(&mut core, event_of(&line))?;
        println!(rt; "note {note}")?;
    }
    print_history(&rt, &core)?;
    Ok(())
}
