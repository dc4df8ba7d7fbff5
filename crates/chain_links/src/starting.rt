//! The state of no rows.
ghost use Rattle.std.specs.Prelude.{◌≡◌, IfOk, map, true};
ghost use Rattle.agg_meaning.specs.Lawful.{IsSound};
ghost use Rattle.agg_meaning.specs.Results.{blank};
ghost use Rattle.agg_typing.specs.Legal.{function_of};
ghost use Rattle.value_types.specs.Folds.{chain_of, ty_of};
ghost use Rattle.running_states.specs.Served.{is_served};
ghost use Rattle.running_states.specs.Shapes.{IsState};
ghost use Rattle.running_states.specs.Trees.{tree_in};

use crate::intervals::fresh_parts;
use row_parts::count_intervals;
use running_states::{Running, fresh_first, fresh_leaf};
use std::alloc::Global;
use value_types::{Chain, OutOfMemory, Ty};

/// The state of no rows of a chain whose function has arguments of these types.
///
/// # Errors
///
/// [`OutOfMemory`] where there is no room for it.
#[cycle(fresh)]
#[tactic(auto, using(value_types::proofs::FoldLaws::chain_laws, running_states::proofs::Layers::fresh_laws))]
pub fn fresh(chain: &Chain, alloc: Global, types: &[Ty]) -> Result<Running, OutOfMemory>
    requires sound { IsSound (chain_of chain.now) }
    requires served { is_served (function_of (chain_of chain.now)) (map ty_of types.now) ≡ true }
    ensures shape { IfOk result (λ s. IsState (chain_of chain.now) (map ty_of types.now) s) }
    ensures fresh { IfOk result (λ s. tree_in s ≡ blank (chain_of chain.now)) }
{
    match chain {
        Chain::Leaf(leaf) => fresh_leaf(alloc, leaf, types),
        Chain::If(of) => fresh(of.get(), alloc, types),
        Chain::Array(of) => fresh(of.get(), alloc, types),
        Chain::MapOf(_) => Ok(Running::Keyed(Vec::new(alloc))),
        Chain::ForEach(_) => Ok(Running::Slots(Vec::new(alloc))),
        Chain::OrNull(of) => fresh(of.get(), alloc, types),
        Chain::OrDefault(of) => fresh(of.get(), alloc, types),
        Chain::Distinct(_) => fresh_first(alloc),
        Chain::Resample(start, end, step, of) => {
            fresh_parts(of.get(), alloc, types, count_intervals(*start, *end, *step))
        }
        Chain::State(of) => fresh(of.get(), alloc, types),
        Chain::Merge(of) => fresh(of.get(), alloc, types),
    }
}
