//! How long the calls on patterns take.
ghost use Rattle.std.specs.Prelude.{◌≡◌, length, map};
ghost use Rattle.agg_terms.specs.Lists.{NotFalling};
ghost use Rattle.agg_terms.specs.Trees.{by_time};
ghost use Rattle.value_types.specs.Folds.{event_of};

use crate::events::{Shape, events};
use crate::fault::BenchFault;
use crate::patterns::{Links, pattern};
use crate::wanted::Wanted;
use event_leaves::{MatchState, serves_match};
use sequence_pattern::matches;
use std::alloc::Global;
use std::io;
use std::rt::Clock;
use std::time::Instant;
use value_types::{Event, Leaf, OutOfMemory, Pattern, Seq, Tree, Ty, number};

const CONDITIONS: u32 = 32;

/// What is measured of patterns.
#[derive(Clone, Copy, Debug)]
pub struct Case {
    pub links: Links,
    pub shape: Shape,
    /// Whether the last event can end a match.
    pub ends: bool,
}

impl Case {
    fn ends_name(&self) -> &'static str {
        if self.ends { "ends" } else { "never" }
    }

    /// Whether a call is measured with it.
    fn is_asked(&self, wanted: &Wanted, call: &str) -> bool {
        wanted.asks(call, self.links.name(), self.shape.name(), self.ends_name())
    }
}

/// A time and 32 conditions.
fn arguments(alloc: Global) -> Result<Seq<Ty>, OutOfMemory> {
    let mut types = Seq::new(alloc);
    types.push(Ty::U64)?;
    for _condition in 0..CONDITIONS {
        types.push(Ty::U8)?;
    }
    Ok(types)
}

/// The state of sequenceMatch over these events, if the function is served.
fn state_of(
    alloc: Global,
    leaf: &Leaf,
    events: &[Event],
) -> Result<Option<MatchState>, OutOfMemory> {
    let types = arguments(alloc)?;
    if !serves_match(leaf, types.as_slice()) {
        return Ok(None);
    }
    let tree = Tree::Events(Seq::from_slice(alloc, events)?);
    let state = MatchState::from_tree(alloc, leaf, types.as_slice(), &tree)?;
    Ok(Some(state))
}

/// A line: the call, the case, the answer and the microseconds.
fn print<R: Print>(
    rt: &R,
    call: &str,
    case: &Case,
    is_match: bool,
    micros: u128,
) -> io::Result<()> {
    let links = case.links.name();
    let shape = case.shape.name();
    let ends = case.ends_name();
    println!(rt; "{call} {links} {shape} {ends} {is_match} {micros}")
}

/// Times the call on a pattern and events.
fn time_matches<R: Print + Clock>(
    rt: &R,
    case: &Case,
    pattern: &Pattern,
    events: &[Event],
) -> io::Result<()>
    requires items { length pattern.now.items ≡ 64 }
    requires links { length pattern.now.links ≡ 63 }
    requires ordered { NotFalling by_time (map event_of events.now) }
{
    let start = Instant::now(rt)?;
    let is_match = matches(pattern, events);
    let micros = start.elapsed(rt)?.as_micros();
    print(rt, "matches", case, is_match, micros)
}

/// Times the answer of the state of sequenceMatch.
fn time_finish<R: Print + Clock>(
    rt: &R,
    alloc: Global,
    case: &Case,
    state: &MatchState,
) -> Result<(), BenchFault> {
    let start = Instant::now(rt)?;
    let answer = state.finish(alloc)?;
    let micros = start.elapsed(rt)?.as_micros();
    let is_match = number(&answer) == Some(1);
    print(rt, "finish", case, is_match, micros)?;
    Ok(())
}

/// Times the answer of a state that is made of the events.
fn report_finish<R: Print + Clock>(
    rt: &R,
    alloc: Global,
    case: &Case,
    pattern: Pattern,
    events: &[Event],
) -> Result<(), BenchFault> {
    let leaf = Leaf::SequenceMatch(pattern);
    match state_of(alloc, &leaf, events)? {
        Some(state) => time_finish(rt, alloc, case, &state),
        None => Ok(()),
    }
}

/// Times the calls that are asked for.
pub fn report<R: Print + Clock>(
    rt: &R,
    alloc: Global,
    wanted: &Wanted,
    case: &Case,
) -> Result<(), BenchFault> {
    let matches = case.is_asked(wanted, "matches");
    let finish = case.is_asked(wanted, "finish");
    if !matches && !finish {
        return Ok(());
    }
    let events = events(alloc, case.shape, case.ends)?;
    let pattern = pattern(alloc, case.links)?;
    if matches {
        time_matches(rt, case, &pattern, events.as_slice())?;
    }
    if finish {
        report_finish(rt, alloc, case, pattern, events.as_slice())?;
    }
    Ok(())
}
