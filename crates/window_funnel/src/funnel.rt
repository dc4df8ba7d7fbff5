//! The level of a funnel.
ghost use Rattle.std.specs.Prelude.{◌≡◌, ◌≤◌, None, map, length, replicate};
ghost use Rattle.agg_terms.specs.Lists.{NotFalling};
ghost use Rattle.agg_terms.specs.Trees.{by_time};
ghost use Rattle.agg_meaning.specs.Events.{funnel_level};
ghost use Rattle.value_types.specs.Folds.{event_of};
ghost use Rattle.window_funnel.specs.Conditions.{cut_to};

use crate::starts::{add_event, longest_of};
use value_types::Event;

const MOST_CONDITIONS: usize = 32;

/// The greatest number of conditions, from the first on, that are met in turn by different events, the last
/// of them at most `window` after the first. Where `strict`, their times rise too.
///
/// A mask's conditions beyond `conditions` count as not met. Times and the window are in one unit, whichever it is. Takes no memory, and a step for each event and condition.
/// (ClickHouse manual: "windowFunnel", the mode `strict_increase`.)
pub fn level(window: u64, strict: bool, conditions: u32, events: &[Event]) -> u32
    requires some { 1 ≤ conditions }
    requires most { conditions ≤ 32 }
    requires ordered { NotFalling by_time (map event_of events.now) }
    ensures { result ≡ funnel_level window strict (map (cut_to conditions) (map event_of events.now)) }
{
    let mut starts = [None; MOST_CONDITIONS];
    level_from(&mut starts[..conditions as usize], window, strict, events)
}

/// The level, over a table with a place for each condition and no chain yet.
fn level_from(starts: &mut [Option<u64>], window: u64, strict: bool, events: &[Event]) -> u32
    requires blank { starts.old ≡ replicate (length starts.old) None }
    requires most { length starts.old ≤ 32 }
    requires ordered { NotFalling by_time (map event_of events.now) }
    ensures { result ≡ funnel_level window strict (map (cut_to (length starts.old)) (map event_of events.now)) }
{
    // An event that is not in the table yet, or several of one time: no chain has two of these, so that together
    // they are one event.
    let mut waiting = Event { time: 0, mask: 0 };
    for event in events {
        if strict && event.time == waiting.time {
            waiting.mask |= event.mask;
        } else {
            add_event(starts, window, waiting);
            waiting = *event;
        }
    }
    add_event(starts, window, waiting);
    longest_of(starts)
}
