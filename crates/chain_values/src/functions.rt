//! The value of a function's state.
ghost use Rattle.std.specs.Prelude.{◌≡◌, map, IfOk};
ghost use Rattle.agg_terms.specs.Chains.{Of};
ghost use Rattle.agg_meaning.specs.States.{IsFedChain, MeansChain};
ghost use Rattle.agg_typing.specs.Promises.{IsLegalCall};
ghost use Rattle.link_types.specs.Links.{inner_types};
ghost use Rattle.value_types.specs.Folds.{leaf_of, ty_of, value_of};
ghost use Rattle.running_states.specs.Shapes.{IsState};
ghost use Rattle.running_states.specs.Trees.{tree_in};

use running_states::Running;
use std::alloc::Global;
use value_types::{Leaf, OutOfMemory, Ty, Value};

/// The function's value.
#[tactic(auto, using(running_states::proofs::Layers::slot_laws, crate::proofs::FunctionValues::function_laws))]
pub fn value_of_function(
    leaf: &Leaf,
    alloc: Global,
    types: &[Ty],
    function: &[Ty],
    state: &Running,
) -> Result<Value, OutOfMemory>
    requires legal { IsLegalCall (Of (leaf_of leaf.now)) (map ty_of types.now) }
    requires function { map ty_of function.now ≡ inner_types (Of (leaf_of leaf.now)) (map ty_of types.now) }
    requires shape { IsState (Of (leaf_of leaf.now)) (map ty_of function.now) state.now }
    ensures { IfOk result (λ v. MeansChain (Of (leaf_of leaf.now)) (map ty_of types.now) (tree_in state.now) (value_of v)) }
{
    match state {
        Running::Int(of) => of.finish(alloc),
        Running::Boxed(of) => of.finish(alloc),
        _ => unreachable!(),
    }
}

/// Whether a row reached the function.
#[tactic(auto, using(running_states::proofs::Layers::slot_laws, crate::proofs::FunctionValues::function_laws))]
pub fn fed_function(
    leaf: &Leaf,
    types: &[Ty],
    function: &[Ty],
    state: &Running,
) -> Result<bool, OutOfMemory>
    requires legal { IsLegalCall (Of (leaf_of leaf.now)) (map ty_of types.now) }
    requires function { map ty_of function.now ≡ inner_types (Of (leaf_of leaf.now)) (map ty_of types.now) }
    requires shape { IsState (Of (leaf_of leaf.now)) (map ty_of function.now) state.now }
    ensures { IfOk result (λ b. IsFedChain (Of (leaf_of leaf.now)) (map ty_of types.now) (tree_in state.now) b) }
{
    match state {
        Running::Int(of) => Ok(of.is_fed()),
        Running::Boxed(of) => Ok(of.is_fed()),
        _ => unreachable!(),
    }
}
