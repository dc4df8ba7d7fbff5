//! How long the level of a funnel takes.
ghost use Rattle.std.specs.Prelude.{◌<◌, ◌^◌, map};
ghost use Rattle.agg_terms.specs.Lists.{Each, NotFalling};
ghost use Rattle.agg_terms.specs.Trees.{by_time};
ghost use Rattle.value_types.specs.Folds.{event_of};

use crate::events::{Shape, events};
use crate::fault::BenchFault;
use crate::wanted::Wanted;
use std::alloc::Global;
use std::io;
use std::rt::Clock;
use std::time::Instant;
use value_types::Event;
use window_funnel::level;

const CONDITIONS: u32 = 32;

const WINDOW: u64 = 30_000;

fn mode_name(is_strict: bool) -> &'static str {
    if is_strict { "strict" } else { "default" }
}

/// Times the call in one mode.
fn time_level<R: Print + Clock>(
    rt: &R,
    shape: &Shape,
    is_strict: bool,
    events: &[Event],
) -> io::Result<()>
    requires ordered { NotFalling by_time (map event_of events.now) }
    requires masks { Each (λ e. e.mask < 2 ^ 32) (map event_of events.now) }
{
    let start = Instant::now(rt)?;
    let reached = level(WINDOW, is_strict, CONDITIONS, events);
    let micros = start.elapsed(rt)?.as_micros();
    let mode = mode_name(is_strict);
    let shape = shape.name();
    println!(rt; "level {mode} {shape} ends {reached} {micros}")
}

/// Times the mode over the events, if it is asked for.
pub fn report<R: Print + Clock>(
    rt: &R,
    alloc: Global,
    wanted: &Wanted,
    shape: Shape,
    is_strict: bool,
) -> Result<(), BenchFault> {
    if wanted.asks("level", mode_name(is_strict), shape.name(), "ends") {
        let events = events(alloc, shape, true)?;
        time_level(rt, &shape, is_strict, events.as_slice())?;
    }
    Ok(())
}
