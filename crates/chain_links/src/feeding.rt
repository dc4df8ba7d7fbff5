//! A row behind those that a state stands for.
ghost use Rattle.std.specs.Prelude.{◌≡◌, ◌≤◌, length, map, true, OnOk};
ghost use Rattle.agg_meaning.specs.Lawful.{IsSound};
ghost use Rattle.agg_typing.specs.Legal.{function_of};
ghost use Rattle.value_types.specs.Folds.{chain_of, ty_of};
ghost use Rattle.row_parts.specs.Rows.{arguments};
ghost use Rattle.running_states.specs.Served.{is_served};
ghost use Rattle.running_states.specs.Shapes.{IsState};
ghost use Rattle.running_states.specs.Words.{Feeds};

use crate::elements::feed_elements;
use crate::intervals::feed_interval;
use crate::keys::feed_keys;
use crate::places::feed_places;
use crate::stored_states::feed_stored;
use crate::when_met::feed_met;
use running_states::{Running, feed_first, feed_leaf};
use std::alloc::Global;
use typed_columns::Item;
use value_types::{Chain, OutOfMemory, Ty};

/// Adds a row to a state of a chain whose function has arguments of these types.
///
/// # Errors
///
/// [`OutOfMemory`] where there is no room; the state is then of unknown content.
#[cycle(feed)]
#[tactic(auto, using(value_types::proofs::FoldLaws::chain_laws, crate::proofs::Plain::feeds_laws))]
pub fn feed(
    chain: &Chain,
    alloc: Global,
    types: &[Ty],
    state: &mut Running,
    row: &[Item<'_>],
) -> Result<(), OutOfMemory>
    requires sound { IsSound (chain_of chain.now) }
    requires served { is_served (function_of (chain_of chain.now)) (map ty_of types.now) ≡ true }
    requires shape { IsState (chain_of chain.now) (map ty_of types.now) state.old }
    requires few { length row.now ≤ 64 }
    ensures shape { OnOk result (IsState (chain_of chain.now) (map ty_of types.now) state.new) }
    ensures row { OnOk result (Feeds (chain_of chain.now) (map ty_of types.now) (arguments row.now) state.old state.new) }
{
    match chain {
        Chain::Leaf(leaf) => feed_leaf(leaf, alloc, types, state, row),
        Chain::If(of) => feed_met(of.get(), alloc, types, state, row),
        Chain::Array(of) => feed_elements(of.get(), alloc, types, state, row),
        Chain::MapOf(of) => feed_keys(of.get(), alloc, types, state, row),
        Chain::ForEach(of) => feed_places(of.get(), alloc, types, state, row),
        Chain::OrNull(of) => feed(of.get(), alloc, types, state, row),
        Chain::OrDefault(of) => feed(of.get(), alloc, types, state, row),
        Chain::Distinct(of) => feed_first(of.get(), alloc, types, state, row),
        Chain::Resample(start, end, step, of) => {
            feed_interval(*start, *end, *step, of.get(), alloc, types, state, row)
        }
        Chain::State(of) => feed(of.get(), alloc, types, state, row),
        Chain::Merge(of) => feed_stored(of.get(), alloc, types, state, row),
    }
}
