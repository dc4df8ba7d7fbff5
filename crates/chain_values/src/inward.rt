//! -If, -Array and -Merge: what the state keeps is what the chain inside keeps, over the types that are handed inward.
ghost use Rattle.std.specs.Prelude.{◌≡◌, map, IfOk};
ghost use Rattle.agg_terms.specs.Chains.{Array, If, Merge};
ghost use Rattle.agg_terms.specs.Types.{inward};
ghost use Rattle.agg_meaning.specs.States.{IsFedChain, MeansChain};
ghost use Rattle.agg_typing.specs.Promises.{IsLegalCall};
ghost use Rattle.link_types.specs.Links.{inner_types};
ghost use Rattle.value_types.specs.Folds.{chain_of, ty_of, value_of};
ghost use Rattle.running_states.specs.Shapes.{IsState};
ghost use Rattle.running_states.specs.Trees.{tree_in};

use crate::chains::{fed_over, value_over};
use link_types::{element_types, front_types};
use running_states::Running;
use std::alloc::Global;
use value_types::{Chain, OutOfMemory, Ty, Value};

/// The value over the rows whose condition was met.
#[cycle(value_over)]
#[tactic(auto, using(crate::proofs::Passing::if_values))]
pub fn value_when_met(
    of: &Chain,
    alloc: Global,
    types: &[Ty],
    function: &[Ty],
    state: &Running,
) -> Result<Value, OutOfMemory>
    requires legal { IsLegalCall (If (chain_of of.now)) (map ty_of types.now) }
    requires function { map ty_of function.now ≡ inner_types (If (chain_of of.now)) (map ty_of types.now) }
    requires shape { IsState (If (chain_of of.now)) (map ty_of function.now) state.now }
    ensures { IfOk result (λ v. MeansChain (If (chain_of of.now)) (map ty_of types.now) (tree_in state.now) (value_of v)) }
{
    value_over(of, alloc, front_types(types), function, state)
}

/// The value over the elements.
#[cycle(value_over)]
#[tactic(auto, using(crate::proofs::Passing::array_values))]
pub fn value_of_elements(
    of: &Chain,
    alloc: Global,
    types: &[Ty],
    function: &[Ty],
    state: &Running,
) -> Result<Value, OutOfMemory>
    requires legal { IsLegalCall (Array (chain_of of.now)) (map ty_of types.now) }
    requires function { map ty_of function.now ≡ inner_types (Array (chain_of of.now)) (map ty_of types.now) }
    requires shape { IsState (Array (chain_of of.now)) (map ty_of function.now) state.now }
    ensures { IfOk result (λ v. MeansChain (Array (chain_of of.now)) (map ty_of types.now) (tree_in state.now) (value_of v)) }
{
    let inner = element_types(alloc, types)?;
    value_over(of, alloc, inner.as_slice(), function, state)
}

/// The value over the rows of the states, which were made over these types.
#[cycle(value_over)]
#[tactic(auto, using(crate::proofs::Passing::merge_values))]
pub fn value_of_states(
    of: &Chain,
    alloc: Global,
    types: &[Ty],
    inner: &[Ty],
    function: &[Ty],
    state: &Running,
) -> Result<Value, OutOfMemory>
    requires legal { IsLegalCall (Merge (chain_of of.now)) (map ty_of types.now) }
    requires inner { map ty_of inner.now ≡ inward (Merge (chain_of of.now)) (map ty_of types.now) }
    requires function { map ty_of function.now ≡ inner_types (Merge (chain_of of.now)) (map ty_of types.now) }
    requires shape { IsState (Merge (chain_of of.now)) (map ty_of function.now) state.now }
    ensures { IfOk result (λ v. MeansChain (Merge (chain_of of.now)) (map ty_of types.now) (tree_in state.now) (value_of v)) }
{
    value_over(of, alloc, inner, function, state)
}

/// Whether a row whose condition was met reached the function.
#[cycle(fed_over)]
#[tactic(auto, using(crate::proofs::Passing::if_tolds))]
pub fn fed_when_met(
    of: &Chain,
    alloc: Global,
    types: &[Ty],
    function: &[Ty],
    state: &Running,
) -> Result<bool, OutOfMemory>
    requires legal { IsLegalCall (If (chain_of of.now)) (map ty_of types.now) }
    requires function { map ty_of function.now ≡ inner_types (If (chain_of of.now)) (map ty_of types.now) }
    requires shape { IsState (If (chain_of of.now)) (map ty_of function.now) state.now }
    ensures { IfOk result (λ b. IsFedChain (If (chain_of of.now)) (map ty_of types.now) (tree_in state.now) b) }
{
    fed_over(of, alloc, front_types(types), function, state)
}

/// Whether an element reached the function.
#[cycle(fed_over)]
#[tactic(auto, using(crate::proofs::Passing::array_tolds))]
pub fn fed_elements(
    of: &Chain,
    alloc: Global,
    types: &[Ty],
    function: &[Ty],
    state: &Running,
) -> Result<bool, OutOfMemory>
    requires legal { IsLegalCall (Array (chain_of of.now)) (map ty_of types.now) }
    requires function { map ty_of function.now ≡ inner_types (Array (chain_of of.now)) (map ty_of types.now) }
    requires shape { IsState (Array (chain_of of.now)) (map ty_of function.now) state.now }
    ensures { IfOk result (λ b. IsFedChain (Array (chain_of of.now)) (map ty_of types.now) (tree_in state.now) b) }
{
    let inner = element_types(alloc, types)?;
    fed_over(of, alloc, inner.as_slice(), function, state)
}

/// Whether a row of the states, which were made over these types, reached the function.
#[cycle(fed_over)]
#[tactic(auto, using(crate::proofs::Passing::merge_tolds))]
pub fn fed_states(
    of: &Chain,
    alloc: Global,
    types: &[Ty],
    inner: &[Ty],
    function: &[Ty],
    state: &Running,
) -> Result<bool, OutOfMemory>
    requires legal { IsLegalCall (Merge (chain_of of.now)) (map ty_of types.now) }
    requires inner { map ty_of inner.now ≡ inward (Merge (chain_of of.now)) (map ty_of types.now) }
    requires function { map ty_of function.now ≡ inner_types (Merge (chain_of of.now)) (map ty_of types.now) }
    requires shape { IsState (Merge (chain_of of.now)) (map ty_of function.now) state.now }
    ensures { IfOk result (λ b. IsFedChain (Merge (chain_of of.now)) (map ty_of types.now) (tree_in state.now) b) }
{
    fed_over(of, alloc, inner, function, state)
}
