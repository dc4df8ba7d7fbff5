//! How long the text of a script is read: `bench_scripts run MEGABYTES`, or with `text` in place of `run`, how the text is made
//! alone. With no word it prints nothing.
//!
//! The script is one table, one view and one session, whose statements are in turn an INSERT of a thousand rows and a READ. A line has
//! the bytes of the text, the statements that were read and the microseconds of the reading. With one more word the program ends
//! when its input does, so that its memory can be looked at after the line.
#![tactic(auto)]

ghost use Rattle.std.specs.Prelude.{◌<◌, ◌^◌, length};

mod fault;
mod texts;

use fault::BenchFault;
use script_text::{Script, read_script};
use std::alloc::Global;
use std::env;
use std::time::Instant;
use texts::text_of;

fn statements(script: &Script) -> usize {
    match script.sessions.as_slice() {
        [session, ..] => session.statements.len(),
        [] => 0,
    }
}

/// How many statements a text has; none where it is refused.
fn read(alloc: Global, text: &[u8]) -> usize
    requires { length text.now < 2 ^ 32 }
{
    match read_script(alloc, text) {
        Ok(script) => statements(&script),
        Err(_) => 0,
    }
}

/// How many statements a text has, where it isn't too long to be one.
fn read_short(alloc: Global, text: &[u8]) -> usize {
    if text.len() >= 1 << 32 {
        return 0;
    }
    read(alloc, text)
}

fn report(rt: &HostRuntime, megabytes: usize, is_read: bool) -> Result<(), BenchFault> {
    let text = text_of(rt.alloc(), megabytes.saturating_mul(1_000_000))?;
    let start = Instant::now(rt)?;
    let found = if is_read {
        read_short(rt.alloc(), &text)
    } else {
        0
    };
    let micros = start.elapsed(rt)?.as_micros();
    let bytes = text.len();
    println!(rt; "{bytes} {found} {micros}")?;
    Ok(())
}

fn wait(rt: &HostRuntime) -> Result<(), BenchFault> {
    for line in rt.lines(rt.alloc()) {
        line?;
    }
    Ok(())
}

fn main(rt: HostRuntime) -> Result<(), BenchFault> {
    let mut words = env::args(&rt)?.skip(1);
    let Some(task) = words.next() else {
        return Ok(());
    };
    let Some(number) = words.next() else {
        return Ok(());
    };
    let Ok(megabytes) = number.parse::<usize>() else {
        return Ok(());
    };
    report(&rt, megabytes, task.as_str() == "run")?;
    if words.next().is_some() {
        wait(&rt)?;
    }
    Ok(())
}
