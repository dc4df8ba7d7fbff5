//! What an item and a link ask of events.
ghost use Rattle.std.specs.Prelude.{◌≡◌, ◌<◌, ◌-◌, length, map};
ghost use Rattle.agg_meaning.specs.Events.{is_in, meets};
ghost use Rattle.value_types.specs.Folds.{event_of, item_of, link_of};
ghost use Rattle.sequence_pattern.specs.proving.Fronts.{allowed, allowed_after, comes_first, seen_with, time_at};

use crate::front::Seen;
use value_types::{Event, Op, PatItem, PatLink};

const MOST_CONDITIONS: u32 = 32;

/// Whether a mask has a condition, counted from 1.
fn has_condition(mask: u32, condition: u32) -> bool
    ensures { result ≡ is_in (condition - 1) mask }
{
    condition <= MOST_CONDITIONS && (mask >> condition.saturating_sub(1)) % 2 == 1
}

/// Whether an event meets an item.
pub fn meets_item(item: PatItem, event: Event) -> bool
    ensures { result ≡ meets (item_of item) (event_of event) }
{
    match item {
        PatItem::Cond(condition) => has_condition(event.mask, condition),
        PatItem::Any => true,
    }
}

/// The hits with one more, at a later place.
pub fn with_hit(seen: Option<Seen>, place: usize, time: u64) -> Seen
    ensures { result ≡ seen_with seen place time }
{
    let earliest = match seen {
        Some(seen) => seen.earliest,
        None => time,
    };
    Seen {
        earliest,
        place,
        latest: time,
    }
}

fn is_allowed_after(link: PatLink, seen: Seen, place: usize, time: u64) -> bool
    ensures { result ≡ allowed_after (link_of link) seen place time }
{
    match link {
        PatLink::Next => place.saturating_sub(seen.place) == 1,
        PatLink::Gap => true,
        PatLink::Time(Op::Less, most) => time.saturating_sub(seen.latest) < most,
        PatLink::Time(Op::LessEq, most) => time.saturating_sub(seen.latest) <= most,
        PatLink::Time(Op::Equal, exact) => time.saturating_sub(seen.latest) == exact,
        PatLink::Time(Op::GreaterEq, least) => time.saturating_sub(seen.earliest) >= least,
        PatLink::Time(Op::Greater, least) => time.saturating_sub(seen.earliest) > least,
    }
}

/// Whether some of the hits before goes on to a place, if they are those that come first.
pub fn is_allowed(link: PatLink, seen: Option<Seen>, place: usize, time: u64) -> bool
    ensures { result ≡ allowed (link_of link) seen place time }
{
    match seen {
        Some(seen) => is_allowed_after(link, seen, place, time),
        None => false,
    }
}

/// Whether the item before a link takes a place before the item behind it takes the place `next`.
pub fn is_first(link: PatLink, events: &[Event], place: usize, next: usize) -> bool
    requires { next < length events.now }
    ensures { result ≡ comes_first (map event_of events.now) (link_of link) place next }
{
    if place >= next {
        return false;
    }
    match link {
        PatLink::Time(Op::Equal, exact) => events[next].time.saturating_sub(events[place].time)
            >= exact,
        _ => true,
    }
}
