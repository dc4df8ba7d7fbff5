//! Events and masks at the front of the bytes.
ghost use Rattle.std.specs.Prelude.{◌≡◌, ◌^◌, map, [], min, nat_lt, pos};
ghost use Rattle.agg_terms.specs.Trees.{by_time};
ghost use Rattle.agg_terms.specs.Values.{Events, Word};
ghost use Rattle.value_types.specs.Folds.{event_of, tree_of};
ghost use Rattle.state_codec.specs.Reading.{any_length, event_at, events_at, flag_at, holds_up, is_event, items_at, kept_at, list_at, made, number_at, or_empty};
ghost use Rattle.state_codec.specs.Gives.{Gives};
ghost use Rattle.state_codec.specs.proving.Views.{behind};

use crate::DecodeFault;
use crate::source::{place_of, tag_of, u32_at, u64_at};
use scalar_texts::StateFault;
use std::alloc::Global;
use value_types::{Event, Seq, Tree};

/// Whether a mask has no bit beyond so many conditions.
fn is_within(mask: u32, conditions: usize) -> bool
    ensures { result ≡ nat_lt mask (2 ^ conditions) }
{
    u128::from(mask) < 2u128.pow(conditions.min(127) as u32)
}

/// Whether the event is not before the last of those before it.
#[tactic(auto, using(crate::proofs::Last::last_laws))]
fn is_not_before(earlier: &[Event], event: &Event) -> bool
    ensures { result ≡ holds_up by_time (behind (map event_of earlier.now)) (event_of event.now) }
{
    match earlier.split_last() {
        Some((last, _)) => last.time.cmp(&event.time).is_le(),
        None => true,
    }
}

/// Whether the event meets some of the conditions and no other, and is not before those before it.
fn is_event(conditions: usize, earlier: &[Event], event: &Event) -> bool
    ensures { result ≡ is_event conditions (behind (map event_of earlier.now)) (event_of event.now) }
{
    0 < event.mask && is_within(event.mask, conditions) && is_not_before(earlier, event)
}

/// A time and a mask.
#[tactic(auto, unfolding(crate::specs::Reading::both_at))]
fn event_at(bytes: &[u8]) -> Result<(Event, &[u8]), DecodeFault>
    ensures { Gives (λ x. (event_of x.0, x.1.now)) result (event_at bytes.now) }
{
    let (time, rest) = u64_at(bytes)?;
    let (mask, rest) = u32_at(rest)?;
    Ok((Event { time, mask }, rest))
}

/// An event in view of those before it.
#[tactic(auto, unfolding(crate::specs::Reading::kept_at))]
fn next_event_at<'b>(
    conditions: usize,
    earlier: &Seq<Event>,
    whole: usize,
    bytes: &'b [u8],
) -> Result<(Event, &'b [u8]), DecodeFault>
    ensures { Gives (λ x. (event_of x.0, x.1.now)) result (kept_at whole (is_event conditions (behind (map event_of earlier.now))) event_at bytes.now) }
{
    let (event, rest) = event_at(bytes)?;
    if !is_event(conditions, earlier.as_slice(), &event) {
        return Err(DecodeFault::Bad(StateFault::NotCanonical(place_of(whole, bytes))));
    }
    Ok((event, rest))
}

/// So many events.
fn all_events_at(
    conditions: usize,
    alloc: Global,
    whole: usize,
    count: u64,
    bytes: &[u8],
) -> Result<(Seq<Event>, &[u8]), DecodeFault>
    ensures { Gives (λ x. (map event_of x.0, x.1.now)) result (items_at (λ earlier. kept_at whole (is_event conditions earlier) event_at) count [] bytes.now) }
{
    let mut events = Seq::new(alloc);
    let mut rest = bytes;
    for _ in 0..count {
        let (event, after) = next_event_at(conditions, &events, whole, rest)?;
        events.push(event)?;
        rest = after;
    }
    Ok((events, rest))
}

/// The state of the functions over events.
#[tactic(auto, unfolding(crate::specs::Reading::flag_at, crate::specs::Reading::list_at, crate::specs::Reading::kept_at))]
pub(crate) fn events_at(
    conditions: usize,
    alloc: Global,
    whole: usize,
    bytes: &[u8],
) -> Result<(Tree, &[u8]), DecodeFault>
    ensures { Gives (λ x. (tree_of x.0, x.1.now)) result (events_at whole conditions bytes.now) }
{
    let (is_some, rest) = tag_of(whole, bytes)?;
    if !is_some {
        return Ok((Tree::Empty, rest));
    }
    let (count, rest) = u64_at(rest)?;
    let (events, rest) = all_events_at(conditions, alloc, whole, count, rest)?;
    Ok((Tree::Events(events), rest))
}

/// A mask of so many conditions.
#[tactic(auto, unfolding(crate::specs::Reading::kept_at))]
fn mask_at(conditions: usize, whole: usize, bytes: &[u8]) -> Result<(u32, &[u8]), DecodeFault>
    ensures { Gives (λ x. (x.0, x.1.now)) result (kept_at whole (λ m. nat_lt m (2 ^ conditions)) (number_at 4) bytes.now) }
{
    let (mask, rest) = u32_at(bytes)?;
    if !is_within(mask, conditions) {
        return Err(DecodeFault::Bad(StateFault::NotCanonical(place_of(whole, bytes))));
    }
    Ok((mask, rest))
}

/// The state of retention.
#[tactic(auto, unfolding(crate::specs::Reading::flag_at))]
pub(crate) fn retention_at(
    conditions: usize,
    whole: usize,
    bytes: &[u8],
) -> Result<(Tree, &[u8]), DecodeFault>
    ensures { Gives (λ x. (tree_of x.0, x.1.now)) result
        (made (or_empty (λ m. Word (pos m))) (flag_at whole (kept_at whole (λ m. nat_lt m (2 ^ conditions)) (number_at 4)) bytes.now)) }
{
    let (is_some, rest) = tag_of(whole, bytes)?;
    if !is_some {
        return Ok((Tree::Empty, rest));
    }
    let (mask, rest) = mask_at(conditions, whole, rest)?;
    Ok((Tree::Word(mask as i128), rest))
}
