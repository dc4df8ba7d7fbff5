//! The rows of a later state behind those that a state stands for.
ghost use Rattle.std.specs.Prelude.{◌≡◌, map, true, OnOk};
ghost use Rattle.agg_meaning.specs.Lawful.{IsSound};
ghost use Rattle.agg_typing.specs.Legal.{function_of};
ghost use Rattle.value_types.specs.Folds.{chain_of, ty_of};
ghost use Rattle.running_states.specs.Served.{is_served};
ghost use Rattle.running_states.specs.Shapes.{IsState};
ghost use Rattle.running_states.specs.Words.{JoinsAll};

use crate::intervals::merge_intervals;
use crate::keys::merge_keys;
use crate::places::merge_places;
use running_states::{Running, merge_first, merge_leaf};
use std::alloc::Global;
use value_types::{Chain, OutOfMemory, Ty};

/// Joins the rows of a later state of the same chain behind.
///
/// # Errors
///
/// [`OutOfMemory`] where there is no room; the state is then of unknown content.
#[cycle(merge)]
#[tactic(auto, using(value_types::proofs::FoldLaws::chain_laws, crate::proofs::Plain::joins_laws))]
pub fn merge(
    chain: &Chain,
    alloc: Global,
    types: &[Ty],
    state: &mut Running,
    later: &Running,
) -> Result<(), OutOfMemory>
    requires sound { IsSound (chain_of chain.now) }
    requires served { is_served (function_of (chain_of chain.now)) (map ty_of types.now) ≡ true }
    requires first { IsState (chain_of chain.now) (map ty_of types.now) state.old }
    requires later { IsState (chain_of chain.now) (map ty_of types.now) later.now }
    ensures shape { OnOk result (IsState (chain_of chain.now) (map ty_of types.now) state.new) }
    ensures rows { OnOk result (JoinsAll (chain_of chain.now) (map ty_of types.now) state.old later.now state.new) }
{
    match chain {
        Chain::Leaf(leaf) => merge_leaf(leaf, alloc, types, state, later),
        Chain::If(of) => merge(of.get(), alloc, types, state, later),
        Chain::Array(of) => merge(of.get(), alloc, types, state, later),
        Chain::MapOf(of) => merge_keys(of.get(), alloc, types, state, later),
        Chain::ForEach(of) => merge_places(of.get(), alloc, types, state, later),
        Chain::OrNull(of) => merge(of.get(), alloc, types, state, later),
        Chain::OrDefault(of) => merge(of.get(), alloc, types, state, later),
        Chain::Distinct(of) => merge_first(of.get(), alloc, types, state, later),
        Chain::Resample(start, end, step, of) => {
            merge_intervals(*start, *end, *step, of.get(), alloc, types, state, later)
        }
        Chain::State(of) => merge(of.get(), alloc, types, state, later),
        Chain::Merge(of) => merge(of.get(), alloc, types, state, later),
    }
}
