//! -Distinct: the value of a state of the chain inside that takes the first rows now.
ghost use Rattle.std.specs.Prelude.{◌≡◌, map, IfOk};
ghost use Rattle.agg_terms.specs.Chains.{Distinct};
ghost use Rattle.agg_meaning.specs.States.{IsFedChain, MeansChain};
ghost use Rattle.agg_typing.specs.Promises.{IsLegalCall};
ghost use Rattle.link_types.specs.Links.{inner_types};
ghost use Rattle.value_types.specs.Folds.{chain_of, ty_of, value_of};
ghost use Rattle.running_states.specs.Shapes.{IsState};
ghost use Rattle.running_states.specs.Trees.{tree_in};

use crate::chains::{fed_over, value_over};
use crate::fitting::refed;
use running_states::Running;
use std::alloc::Global;
use value_types::{Chain, OutOfMemory, Ty, Value};

/// The value over the first rows.
#[cycle(value_over)]
#[tactic(auto, using(running_states::proofs::Layers::row_laws, crate::proofs::FirstValues::first_laws))]
pub fn value_of_first(
    of: &Chain,
    alloc: Global,
    types: &[Ty],
    function: &[Ty],
    state: &Running,
) -> Result<Value, OutOfMemory>
    requires legal { IsLegalCall (Distinct (chain_of of.now)) (map ty_of types.now) }
    requires function { map ty_of function.now ≡ inner_types (Distinct (chain_of of.now)) (map ty_of types.now) }
    requires shape { IsState (Distinct (chain_of of.now)) (map ty_of function.now) state.now }
    ensures { IfOk result (λ v. MeansChain (Distinct (chain_of of.now)) (map ty_of types.now) (tree_in state.now) (value_of v)) }
{
    match state {
        Running::Rows(rows) => {
            let inner = refed(of, alloc, types, function, rows)?;
            value_over(of, alloc, types, function, &inner)
        }
        _ => unreachable!(),
    }
}

/// Whether a first row reached the function.
#[cycle(fed_over)]
#[tactic(auto, using(running_states::proofs::Layers::row_laws, crate::proofs::FirstValues::first_laws))]
pub fn fed_first(
    of: &Chain,
    alloc: Global,
    types: &[Ty],
    function: &[Ty],
    state: &Running,
) -> Result<bool, OutOfMemory>
    requires legal { IsLegalCall (Distinct (chain_of of.now)) (map ty_of types.now) }
    requires function { map ty_of function.now ≡ inner_types (Distinct (chain_of of.now)) (map ty_of types.now) }
    requires shape { IsState (Distinct (chain_of of.now)) (map ty_of function.now) state.now }
    ensures { IfOk result (λ b. IsFedChain (Distinct (chain_of of.now)) (map ty_of types.now) (tree_in state.now) b) }
{
    match state {
        Running::Rows(rows) => {
            let inner = refed(of, alloc, types, function, rows)?;
            fed_over(of, alloc, types, function, &inner)
        }
        _ => unreachable!(),
    }
}
