//! Lists of events, by time, always the same ones.
ghost use Rattle.std.specs.Prelude.{◌≡◌, ◌≤◌, ◌<◌, ◌^◌, map, IfOk, OnOk};
ghost use Rattle.agg_terms.specs.Lists.{Each, NotFalling};
ghost use Rattle.agg_terms.specs.Trees.{by_time};
ghost use Rattle.value_types.specs.Folds.{event_of};

use std::alloc::Global;
use value_types::{Event, OutOfMemory, Seq};

const EVENTS: u32 = 100_000;

/// Conditions 1 to 31.
const ALL_BUT_LAST: u32 = 0x7fff_ffff;

/// Condition 32.
const LAST: u32 = 0x8000_0000;

/// When events come, and what they meet.
#[derive(Clone, Copy, Debug, PartialEq, Eq)]
pub enum Shape {
    /// All at one time, each of them meets conditions 1 to 31.
    OneTime,
    /// Each at a time of its own, and meets conditions 1 to 31.
    Rising,
    /// Times rise now and then, and each condition is met by half of the events.
    Mixed,
}

impl Shape {
    pub const ALL: [Shape; 3] = [Shape::OneTime, Shape::Rising, Shape::Mixed];

    pub fn name(&self) -> &'static str {
        match self {
            Shape::OneTime => "one",
            Shape::Rising => "rising",
            Shape::Mixed => "mixed",
        }
    }

    /// By how much the time rises, and the conditions that are met, by these bits.
    fn next(&self, bits: u64) -> Event
        ensures { result.time ≤ 1 }
    {
        match self {
            Shape::OneTime => Event {
                time: 0,
                mask: ALL_BUT_LAST,
            },
            Shape::Rising => Event {
                time: 1,
                mask: ALL_BUT_LAST,
            },
            Shape::Mixed => Event {
                time: bits % 2,
                mask: (bits >> 33) as u32,
            },
        }
    }
}

/// Adds an event that isn't earlier than those before.
#[tactic(auto, using(crate::proofs::InTime::ordered_more, crate::proofs::InTime::times_more, crate::proofs::InTime::masks_more))]
fn add(events: &mut Seq<Event>, event: Event) -> Result<(), OutOfMemory>
    requires ordered { NotFalling by_time (map event_of events.old) }
    requires times { Each (λ e. e.time ≤ event.time) (map event_of events.old) }
    requires masks { Each (λ e. e.mask < 2 ^ 32) (map event_of events.old) }
    ensures ordered { OnOk result (NotFalling by_time (map event_of events.new)) }
    ensures times { OnOk result (Each (λ e. e.time ≤ event.time) (map event_of events.new)) }
    ensures masks { OnOk result (Each (λ e. e.mask < 2 ^ 32) (map event_of events.new)) }
{
    events.push(event)?;
    Ok(())
}

/// 100,000 events, of which the last one meets condition 32 where `ends`.
pub fn events(alloc: Global, shape: Shape, ends: bool) -> Result<Seq<Event>, OutOfMemory>
    ensures ordered { IfOk result (λ all. NotFalling by_time (map event_of all)) }
    ensures masks { IfOk result (λ all. Each (λ e. e.mask < 2 ^ 32) (map event_of all)) }
{
    let mut all = Seq::new(alloc);
    let mut bits = 1u64;
    let mut time = 0u64;
    for place in 0..EVENTS {
        bits = bits
            .wrapping_mul(6364136223846793005)
            .wrapping_add(1442695040888963407);
        let next = shape.next(bits);
        time += next.time;
        let is_end = ends && place + 1 == EVENTS;
        let mask = if is_end { LAST } else { next.mask };
        add(&mut all, Event { time, mask })?;
    }
    Ok(all)
}
