//! The states of functions with suffixes at the front of the bytes.
ghost use Rattle.std.specs.Prelude.{◌≡◌, map, []};
ghost use Rattle.agg_terms.specs.Order as order;
ghost use Rattle.agg_terms.specs.Values.{keyed_tree, slots_tree};
ghost use Rattle.agg_values.specs.Peels.{peeled_types};
ghost use Rattle.value_types.specs.Folds.{chain_of, entry_of, tree_of, ty_of, value_of};
ghost use Rattle.state_codec.specs.Reading.{any_length, body_at, entry_at, items_at, kept_at, list_at, made, rises, value_at};
ghost use Rattle.state_codec.specs.Gives.{Gives};
ghost use Rattle.state_codec.specs.proving.Views.{behind, keys_of};

use crate::DecodeFault;
use crate::distinct::distinct_at;
use crate::leaves::{leaf_at, least_leaf_bytes};
use crate::source::{Source, place_of, u64_at};
use crate::values::{least_bytes, room, value_at, with_room};
use agg_values::{Peels, compare, first_type, front, intervals, state_args};
use scalar_texts::StateFault;
use std::alloc::Global;
use value_types::{Chain, KeyedTree, Seq, Tree, Ty, Value, map_key};

/// The fewest bytes of so many states, each of which has so many bytes or more.
fn least_of(count: u128, least: usize) -> usize {
    let most = usize::MAX;
    if count < most as u128 {
        least.saturating_mul(count as usize)
    } else {
        most
    }
}

/// The fewest bytes that the state of a chain has.
fn least_body_bytes(chain: &Chain) -> usize {
    match chain {
        Chain::Leaf(leaf) => least_leaf_bytes(leaf),
        Chain::MapOf(_) | Chain::ForEach(_) | Chain::Distinct(_) => 8,
        Chain::If(of) => least_body_bytes(of.get()),
        Chain::Array(of) => least_body_bytes(of.get()),
        Chain::OrNull(of) => least_body_bytes(of.get()),
        Chain::OrDefault(of) => least_body_bytes(of.get()),
        Chain::State(of) => least_body_bytes(of.get()),
        Chain::Merge(of) => least_body_bytes(of.get()),
        Chain::Resample(start, end, step, of) => {
            least_of(intervals(*start, *end, *step), least_body_bytes(of.get()))
        }
    }
}

/// The state of a chain, at a link where the types of the call are seen through the peels.
#[cycle(body)]
#[tactic(auto, using(crate::proofs::ReadLinks::link_laws))]
pub(crate) fn body_at<'b>(
    chain: &Chain,
    types: &[Ty],
    peels: &Peels<'_>,
    from: Source,
    bytes: &'b [u8],
) -> Result<(Tree, &'b [u8]), DecodeFault>
    ensures { Gives (λ x. (tree_of x.0, x.1.now)) result (body_at from.version from.whole (chain_of chain.now) (peeled_types peels.now types.now) bytes.now) }
{
    match chain {
        Chain::Leaf(leaf) => leaf_at(leaf, types, peels, from, bytes),
        Chain::If(of) => body_at(of.get(), front(types), peels, from, bytes),
        Chain::Array(of) => body_at(of.get(), types, &Peels::Element(&*peels), from, bytes),
        Chain::MapOf(of) => {
            let text = Ty::Str;
            let key = map_key(first_type(types, peels, &text));
            keyed_at(of.get(), key, types, &Peels::Item(&*peels), from, bytes)
        }
        Chain::ForEach(of) => slots_at(of.get(), types, &Peels::Element(&*peels), from, bytes),
        Chain::OrNull(of) => body_at(of.get(), types, peels, from, bytes),
        Chain::OrDefault(of) => body_at(of.get(), types, peels, from, bytes),
        Chain::Distinct(_) => distinct_at(types, peels, from.alloc, from.whole, bytes),
        Chain::Resample(start, end, step, of) => {
            let count = intervals(*start, *end, *step);
            places_at(of.get(), count, front(types), peels, from, bytes)
        }
        Chain::State(of) => body_at(of.get(), types, peels, from, bytes),
        Chain::Merge(of) => body_at(
            of.get(),
            state_args(types, peels),
            &Peels::Whole,
            from,
            bytes,
        ),
    }
}

/// A state for each place, behind their number.
#[cycle(body)]
#[tactic(auto, unfolding(crate::specs::Reading::list_at, crate::specs::Reading::kept_at))]
fn slots_at<'b>(
    chain: &Chain,
    types: &[Ty],
    peels: &Peels<'_>,
    from: Source,
    bytes: &'b [u8],
) -> Result<(Tree, &'b [u8]), DecodeFault>
    ensures { Gives (λ x. (tree_of x.0, x.1.now)) result
        (made slots_tree (list_at from.whole any_length (λ earlier. body_at from.version from.whole (chain_of chain.now) (peeled_types peels.now types.now)) bytes.now)) }
{
    let (count, rest) = u64_at(bytes)?;
    let (slots, rest) = bodies_at(chain, count as u128, types, peels, from, rest)?;
    Ok((Tree::Slots(slots), rest))
}

/// A state for each of so many intervals.
#[cycle(body)]
fn places_at<'b>(
    chain: &Chain,
    count: u128,
    types: &[Ty],
    peels: &Peels<'_>,
    from: Source,
    bytes: &'b [u8],
) -> Result<(Tree, &'b [u8]), DecodeFault>
    ensures { Gives (λ x. (tree_of x.0, x.1.now)) result
        (made slots_tree (items_at (λ earlier. body_at from.version from.whole (chain_of chain.now) (peeled_types peels.now types.now)) count [] bytes.now)) }
{
    let (slots, rest) = bodies_at(chain, count, types, peels, from, bytes)?;
    Ok((Tree::Slots(slots), rest))
}

/// So many states.
#[cycle(body)]
fn bodies_at<'b>(
    chain: &Chain,
    count: u128,
    types: &[Ty],
    peels: &Peels<'_>,
    from: Source,
    bytes: &'b [u8],
) -> Result<(Seq<Tree>, &'b [u8]), DecodeFault>
    ensures { Gives (λ x. (map tree_of x.0, x.1.now)) result
        (items_at (λ earlier. body_at from.version from.whole (chain_of chain.now) (peeled_types peels.now types.now)) count [] bytes.now) }
{
    let mut slots = with_room(from.alloc, room(count, bytes, least_body_bytes(chain)));
    let mut rest = bytes;
    for _ in 0..count {
        let (slot, after) = body_at(chain, types, peels, from, rest)?;
        slots.push(slot)?;
        rest = after;
    }
    Ok((slots, rest))
}

/// Whether the key is above the last of those before it.
#[tactic(auto, using(crate::proofs::Last::last_laws))]
fn is_above(earlier: &[KeyedTree], key: &Value) -> bool
    ensures { result ≡ rises order.compare (keys_of (behind (map entry_of earlier.now))) (value_of key.now) }
{
    match earlier.split_last() {
        Some((last, _)) => compare(&last.key, key).is_lt(),
        None => true,
    }
}

/// A key that is above the last of those before it.
#[tactic(auto, unfolding(crate::specs::Reading::kept_at))]
fn key_at<'b>(
    ty: &Ty,
    alloc: Global,
    earlier: &Seq<KeyedTree>,
    whole: usize,
    bytes: &'b [u8],
) -> Result<(Value, &'b [u8]), DecodeFault>
    ensures { Gives (λ x. (value_of x.0, x.1.now)) result
        (kept_at whole (rises order.compare (keys_of (behind (map entry_of earlier.now)))) (value_at whole (ty_of ty.now)) bytes.now) }
{
    let (key, rest) = value_at(ty, alloc, whole, bytes)?;
    if !is_above(earlier.as_slice(), &key) {
        return Err(DecodeFault::Bad(StateFault::NotCanonical(place_of(whole, bytes))));
    }
    Ok((key, rest))
}

/// A key and the state at it.
#[cycle(body)]
#[tactic(auto, unfolding(crate::specs::Reading::both_at))]
fn entry_at<'b>(
    chain: &Chain,
    key: &Ty,
    types: &[Ty],
    peels: &Peels<'_>,
    from: Source,
    earlier: &Seq<KeyedTree>,
    bytes: &'b [u8],
) -> Result<(KeyedTree, &'b [u8]), DecodeFault>
    ensures { Gives (λ x. (entry_of x.0, x.1.now)) result
        (entry_at from.whole (ty_of key.now) (body_at from.version from.whole (chain_of chain.now) (peeled_types peels.now types.now)) (behind (map entry_of earlier.now)) bytes.now) }
{
    let (key, rest) = key_at(key, from.alloc, earlier, from.whole, bytes)?;
    let (tree, rest) = body_at(chain, types, peels, from, rest)?;
    Ok((KeyedTree { key, tree }, rest))
}

/// So many keys with their states.
#[cycle(body)]
fn entries_at<'b>(
    chain: &Chain,
    count: u64,
    key: &Ty,
    types: &[Ty],
    peels: &Peels<'_>,
    from: Source,
    bytes: &'b [u8],
) -> Result<(Seq<KeyedTree>, &'b [u8]), DecodeFault>
    ensures { Gives (λ x. (map entry_of x.0, x.1.now)) result
        (items_at (entry_at from.whole (ty_of key.now) (body_at from.version from.whole (chain_of chain.now) (peeled_types peels.now types.now))) count [] bytes.now) }
{
    let least = least_bytes(key).saturating_add(least_body_bytes(chain));
    let mut entries = with_room(from.alloc, room(u128::from(count), bytes, least));
    let mut rest = bytes;
    for _ in 0..count {
        let (entry, after) = entry_at(chain, key, types, peels, from, &entries, rest)?;
        entries.push(entry)?;
        rest = after;
    }
    Ok((entries, rest))
}

/// A state for each key, behind their number.
#[cycle(body)]
#[tactic(auto, unfolding(crate::specs::Reading::list_at, crate::specs::Reading::kept_at))]
fn keyed_at<'b>(
    chain: &Chain,
    key: &Ty,
    types: &[Ty],
    peels: &Peels<'_>,
    from: Source,
    bytes: &'b [u8],
) -> Result<(Tree, &'b [u8]), DecodeFault>
    ensures { Gives (λ x. (tree_of x.0, x.1.now)) result
        (made keyed_tree (list_at from.whole any_length (entry_at from.whole (ty_of key.now) (body_at from.version from.whole (chain_of chain.now) (peeled_types peels.now types.now))) bytes.now)) }
{
    let (count, rest) = u64_at(bytes)?;
    let (entries, rest) = entries_at(chain, count, key, types, peels, from, rest)?;
    Ok((Tree::Keyed(entries), rest))
}
