//! Whether a match exists.
ghost use Rattle.std.specs.Prelude.{◌≡◌, ◌<◌, ◌≤◌, ◌+◌, None, length, map, replicate};
ghost use Rattle.agg_terms.specs.Lists.{NotFalling};
ghost use Rattle.agg_terms.specs.Trees.{by_time};
ghost use Rattle.value_types.specs.Folds.{event_of, item_of, link_of, pattern_of};
ghost use Rattle.agg_meaning.specs.Events.{is_matched};
ghost use Rattle.sequence_pattern.specs.proving.Fronts.{AreFronts, next_place};
ghost use Rattle.sequence_pattern.specs.proving.Hits.{any_below, hit};

use crate::front::Front;
use crate::links::{is_allowed, is_first, meets_item, with_hit};
use value_types::{Event, PatItem, PatLink, Pattern};

const MOST_ITEMS: usize = 64;

/// The item of the first front takes its next place, after those before it have taken what comes first.
fn take_next(items: &[PatItem], links: &[PatLink], events: &[Event], fronts: &mut [Front])
    requires ordered { NotFalling by_time (map event_of events.now) }
    requires items { length fronts.old ≤ length items.now }
    requires links { length fronts.old ≤ length links.now + 1 }
    requires some { 0 < length fronts.old }
    requires more { next_place fronts.old < length events.now }
    requires fronts { AreFronts (map item_of items.now) (map link_of links.now) (map event_of events.now) fronts.old }
    ensures fronts { AreFronts (map item_of items.now) (map link_of links.now) (map event_of events.now) fronts.new }
    ensures next { next_place fronts.new ≡ next_place fronts.old + 1 }
{
    let place = fronts[0].next;
    let item = fronts.len() - 1;
    let mut follows = true;
    if item > 0 {
        let link = links[item - 1];
        while is_first(link, events, fronts[1].next, place) {
            take_next(items, links, events, &mut fronts[1..]);
        }
        follows = is_allowed(link, fronts[1].seen, place, events[place].time);
    }
    let mut seen = fronts[0].seen;
    if follows && meets_item(items[item], events[place]) {
        seen = Some(with_hit(seen, place, events[place].time));
    }
    fronts[0] = Front {
        next: place + 1,
        seen,
    };
}

/// Whether the last item has a hit, from fronts that have taken no place yet.
fn has_hit(items: &[PatItem], links: &[PatLink], events: &[Event], fronts: &mut [Front]) -> bool
    requires ordered { NotFalling by_time (map event_of events.now) }
    requires some { 0 < length items.now }
    requires links { length links.now + 1 ≡ length items.now }
    requires size { length fronts.old ≡ length items.now }
    requires blank { fronts.old ≡ replicate (length fronts.old) (record { next = 0; seen = None }) }
    ensures { result ≡ any_below (length events.now) (hit (map item_of items.now) (map link_of links.now) (map event_of events.now) (length links.now)) }
{
    while fronts[0].seen.is_none() && fronts[0].next < events.len() {
        take_next(items, links, events, fronts);
    }
    fronts[0].seen.is_some()
}

/// Whether the events match a pattern: whether there are events in rising places, one an item, that meet the items
/// and stand to one another as the links say. Ends at the first event at which a match ends.
///
/// Takes no memory, and for each item a step an event at most, whatever the links are.
/// (ClickHouse manual: "sequenceMatch".)
pub fn matches(pattern: &Pattern, events: &[Event]) -> bool
    requires some { 1 ≤ length pattern.now.items }
    requires most { length pattern.now.items ≤ 64 }
    requires links { length pattern.now.links + 1 ≡ length pattern.now.items }
    requires ordered { NotFalling by_time (map event_of events.now) }
    ensures { result ≡ is_matched (pattern_of pattern.now) (map event_of events.now) }
{
    let items = pattern.items.as_slice();
    let links = pattern.links.as_slice();
    let mut fronts = [Front {
        next: 0,
        seen: None,
    }; MOST_ITEMS];
    has_hit(items, links, events, &mut fronts[..items.len()])
}
