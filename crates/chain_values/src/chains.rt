//! The value of a state, and whether a row reached the function: along the chain, with the types at each link.
ghost use Rattle.std.specs.Prelude.{◌≡◌, ◌||◌, map, IfOk};
ghost use Rattle.agg_terms.specs.Chains.{OrDefault, OrNull, State};
ghost use Rattle.agg_meaning.specs.States.{IsFedChain, MeansChain};
ghost use Rattle.agg_typing.specs.Promises.{IsLegalCall};
ghost use Rattle.link_types.specs.Links.{inner_types};
ghost use Rattle.value_types.specs.Folds.{chain_of, ty_of, value_of};
ghost use Rattle.running_states.specs.Shapes.{IsState};
ghost use Rattle.running_states.specs.Trees.{tree_in};

use crate::first_rows::{fed_first, value_of_first};
use crate::functions::{fed_function, value_of_function};
use crate::inward::{
    fed_elements, fed_states, fed_when_met, value_of_elements, value_of_states, value_when_met,
};
use crate::keys::{fed_keys, value_at_keys};
use crate::slots::{fed_parts, fed_slots, value_of_parts, value_of_slots};
use chain_links::tree;
use link_types::{inward_types, result_default, result_takes_null};
use running_states::Running;
use std::alloc::Global;
use value_types::{Chain, OutOfMemory, Ty, Value};

/// The value of a state of a chain over these types: what the rows mean that it stands for.
#[cycle(value_over)]
#[tactic(auto, using(value_types::proofs::FoldLaws::chain_laws))]
pub fn value_over(
    chain: &Chain,
    alloc: Global,
    types: &[Ty],
    function: &[Ty],
    state: &Running,
) -> Result<Value, OutOfMemory>
    requires legal { IsLegalCall (chain_of chain.now) (map ty_of types.now) }
    requires function { map ty_of function.now ≡ inner_types (chain_of chain.now) (map ty_of types.now) }
    requires shape { IsState (chain_of chain.now) (map ty_of function.now) state.now }
    ensures { IfOk result (λ v. MeansChain (chain_of chain.now) (map ty_of types.now) (tree_in state.now) (value_of v)) }
{
    match chain {
        Chain::Leaf(leaf) => value_of_function(leaf, alloc, types, function, state),
        Chain::If(of) => value_when_met(of.get(), alloc, types, function, state),
        Chain::Array(of) => value_of_elements(of.get(), alloc, types, function, state),
        Chain::MapOf(of) => value_at_keys(of.get(), alloc, types, function, state),
        Chain::ForEach(of) => value_of_slots(of.get(), alloc, types, function, state),
        Chain::OrNull(of) => value_or_null(of.get(), alloc, types, function, state),
        Chain::OrDefault(of) => value_or_default(of.get(), alloc, types, function, state),
        Chain::Distinct(of) => value_of_first(of.get(), alloc, types, function, state),
        Chain::Resample(start, end, step, of) => {
            value_of_parts(*start, *end, *step, of.get(), alloc, types, function, state)
        }
        Chain::State(of) => state_value(of.get(), alloc, types, state),
        Chain::Merge(of) => {
            let inner = inward_types(alloc, chain, types)?;
            value_of_states(of.get(), alloc, types, inner.as_slice(), function, state)
        }
    }
}

/// The state itself, as its tree. ClickHouse manual: "Aggregate function combinators", -State.
#[tactic(auto, using(value_types::proofs::FoldLaws::value_laws, crate::proofs::Passing::state_laws))]
fn state_value(
    of: &Chain,
    alloc: Global,
    types: &[Ty],
    state: &Running,
) -> Result<Value, OutOfMemory>
    ensures { IfOk result (λ v. MeansChain (State (chain_of of.now)) (map ty_of types.now) (tree_in state.now) (value_of v)) }
{
    Ok(Value::Cell(tree(alloc, state)?))
}

/// NULL where no row reached the function and the result's type can be Nullable. ClickHouse manual: "Aggregate function
/// combinators", -OrNull.
#[cycle(value_over)]
#[tactic(auto, using(crate::proofs::Passing::null_laws))]
fn value_or_null(
    of: &Chain,
    alloc: Global,
    types: &[Ty],
    function: &[Ty],
    state: &Running,
) -> Result<Value, OutOfMemory>
    requires legal { IsLegalCall (OrNull (chain_of of.now)) (map ty_of types.now) }
    requires function { map ty_of function.now ≡ inner_types (OrNull (chain_of of.now)) (map ty_of types.now) }
    requires shape { IsState (OrNull (chain_of of.now)) (map ty_of function.now) state.now }
    ensures { IfOk result (λ v. MeansChain (OrNull (chain_of of.now)) (map ty_of types.now) (tree_in state.now) (value_of v)) }
{
    if fed_over(of, alloc, types, function, state)? {
        return value_over(of, alloc, types, function, state);
    }
    if result_takes_null(alloc, of, types)? {
        return Ok(Value::Nil);
    }
    value_over(of, alloc, types, function, state)
}

/// The default of the result's type where no row reached the function. ClickHouse manual: "Aggregate function
/// combinators", -OrDefault.
#[cycle(value_over)]
#[tactic(auto, using(crate::proofs::Passing::default_laws))]
fn value_or_default(
    of: &Chain,
    alloc: Global,
    types: &[Ty],
    function: &[Ty],
    state: &Running,
) -> Result<Value, OutOfMemory>
    requires legal { IsLegalCall (OrDefault (chain_of of.now)) (map ty_of types.now) }
    requires function { map ty_of function.now ≡ inner_types (OrDefault (chain_of of.now)) (map ty_of types.now) }
    requires shape { IsState (OrDefault (chain_of of.now)) (map ty_of function.now) state.now }
    ensures { IfOk result (λ v. MeansChain (OrDefault (chain_of of.now)) (map ty_of types.now) (tree_in state.now) (value_of v)) }
{
    if fed_over(of, alloc, types, function, state)? {
        value_over(of, alloc, types, function, state)
    } else {
        result_default(alloc, of, types)
    }
}

/// Whether the rows that a state stands for reached the function.
#[cycle(fed_over)]
#[tactic(auto, using(value_types::proofs::FoldLaws::chain_laws, crate::proofs::Passing::fed_laws))]
pub fn fed_over(
    chain: &Chain,
    alloc: Global,
    types: &[Ty],
    function: &[Ty],
    state: &Running,
) -> Result<bool, OutOfMemory>
    requires legal { IsLegalCall (chain_of chain.now) (map ty_of types.now) }
    requires function { map ty_of function.now ≡ inner_types (chain_of chain.now) (map ty_of types.now) }
    requires shape { IsState (chain_of chain.now) (map ty_of function.now) state.now }
    ensures { IfOk result (λ b. IsFedChain (chain_of chain.now) (map ty_of types.now) (tree_in state.now) b) }
{
    match chain {
        Chain::Leaf(leaf) => fed_function(leaf, types, function, state),
        Chain::If(of) => fed_when_met(of.get(), alloc, types, function, state),
        Chain::Array(of) => fed_elements(of.get(), alloc, types, function, state),
        Chain::MapOf(of) => fed_keys(of.get(), alloc, types, function, state),
        Chain::ForEach(of) => fed_slots(of.get(), alloc, types, function, state),
        Chain::OrNull(of) => fed_over(of.get(), alloc, types, function, state),
        Chain::OrDefault(of) => fed_over(of.get(), alloc, types, function, state),
        Chain::Distinct(of) => fed_first(of.get(), alloc, types, function, state),
        Chain::Resample(start, end, step, of) => {
            fed_parts(*start, *end, *step, of.get(), alloc, types, function, state)
        }
        Chain::State(of) => fed_over(of.get(), alloc, types, function, state),
        Chain::Merge(of) => {
            let inner = inward_types(alloc, chain, types)?;
            fed_states(of.get(), alloc, types, inner.as_slice(), function, state)
        }
    }
}

/// Whether one of both is.
#[inline]
pub fn either(first: bool, second: bool) -> bool
    ensures { result ≡ (first || second) }
{
    first || second
}
