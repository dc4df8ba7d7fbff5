//! -ForEach and -Resample: an array with the value of each slot.
ghost use Rattle.std.specs.Prelude.{◌≡◌, map, IfOk};
ghost use Rattle.agg_terms.specs.Chains.{ForEach, Resample};
ghost use Rattle.agg_terms.specs.Lists.{Each};
ghost use Rattle.agg_meaning.specs.States.{IsFedChain, MeansChain};
ghost use Rattle.agg_typing.specs.Promises.{IsLegalCall};
ghost use Rattle.link_types.specs.Links.{inner_types};
ghost use Rattle.value_types.specs.Folds.{chain_of, ty_of, value_of};
ghost use Rattle.running_states.specs.Shapes.{IsState};
ghost use Rattle.running_states.specs.Trees.{tree_in};
ghost use Rattle.chain_values.specs.proving.Finished.{AreFed, MeanSlots};

use crate::chains::{either, fed_over, value_over};
use link_types::{element_types, front_types};
use running_states::Running;
use std::alloc::Global;
use value_types::{Chain, OutOfMemory, Seq, Ty, Value};

/// The value of each slot.
#[cycle(value_over)]
#[tactic(auto, using(crate::proofs::Turns::value_turns))]
fn values_of(
    of: &Chain,
    alloc: Global,
    types: &[Ty],
    function: &[Ty],
    slots: &[Running],
) -> Result<Seq<Value>, OutOfMemory>
    requires legal { IsLegalCall (chain_of of.now) (map ty_of types.now) }
    requires function { map ty_of function.now ≡ inner_types (chain_of of.now) (map ty_of types.now) }
    requires shape { Each (IsState (chain_of of.now) (map ty_of function.now)) slots.now }
    ensures { IfOk result (λ values. MeanSlots (chain_of of.now) (map ty_of types.now) (map tree_in slots.now) (map value_of values)) }
{
    let mut values = Seq::new(alloc);
    values.reserve(slots.len())?;
    for i in 0..slots.len() {
        let value = value_over(of, alloc, types, function, &slots[i])?;
        values.push(value)?;
    }
    Ok(values)
}

/// Whether a row reached the function in some slot.
#[cycle(fed_over)]
#[tactic(auto, using(crate::proofs::Turns::fed_turns))]
fn some_fed(
    of: &Chain,
    alloc: Global,
    types: &[Ty],
    function: &[Ty],
    slots: &[Running],
) -> Result<bool, OutOfMemory>
    requires legal { IsLegalCall (chain_of of.now) (map ty_of types.now) }
    requires function { map ty_of function.now ≡ inner_types (chain_of of.now) (map ty_of types.now) }
    requires shape { Each (IsState (chain_of of.now) (map ty_of function.now)) slots.now }
    ensures { IfOk result (λ b. AreFed (chain_of of.now) (map ty_of types.now) (map tree_in slots.now) b) }
{
    let mut is_fed = false;
    for i in 0..slots.len() {
        let here = fed_over(of, alloc, types, function, &slots[i])?;
        is_fed = either(is_fed, here);
    }
    Ok(is_fed)
}

/// The array of the slots' values.
#[cycle(value_over)]
#[tactic(auto, using(running_states::proofs::Layers::slot_laws, crate::proofs::KeptParts::slot_values))]
pub fn value_of_slots(
    of: &Chain,
    alloc: Global,
    types: &[Ty],
    function: &[Ty],
    state: &Running,
) -> Result<Value, OutOfMemory>
    requires legal { IsLegalCall (ForEach (chain_of of.now)) (map ty_of types.now) }
    requires function { map ty_of function.now ≡ inner_types (ForEach (chain_of of.now)) (map ty_of types.now) }
    requires shape { IsState (ForEach (chain_of of.now)) (map ty_of function.now) state.now }
    ensures { IfOk result (λ v. MeansChain (ForEach (chain_of of.now)) (map ty_of types.now) (tree_in state.now) (value_of v)) }
{
    match state {
        Running::Slots(slots) => {
            let inner = element_types(alloc, types)?;
            let values = values_of(of, alloc, inner.as_slice(), function, slots.as_slice())?;
            Ok(Value::List(values))
        }
        _ => unreachable!(),
    }
}

/// Whether a row reached the function at some place.
#[cycle(fed_over)]
#[tactic(auto, using(running_states::proofs::Layers::slot_laws, crate::proofs::KeptParts::slot_tolds))]
pub fn fed_slots(
    of: &Chain,
    alloc: Global,
    types: &[Ty],
    function: &[Ty],
    state: &Running,
) -> Result<bool, OutOfMemory>
    requires legal { IsLegalCall (ForEach (chain_of of.now)) (map ty_of types.now) }
    requires function { map ty_of function.now ≡ inner_types (ForEach (chain_of of.now)) (map ty_of types.now) }
    requires shape { IsState (ForEach (chain_of of.now)) (map ty_of function.now) state.now }
    ensures { IfOk result (λ b. IsFedChain (ForEach (chain_of of.now)) (map ty_of types.now) (tree_in state.now) b) }
{
    match state {
        Running::Slots(slots) => {
            let inner = element_types(alloc, types)?;
            some_fed(of, alloc, inner.as_slice(), function, slots.as_slice())
        }
        _ => unreachable!(),
    }
}

/// The array of the intervals' values.
#[cycle(value_over)]
#[tactic(auto, using(running_states::proofs::Layers::slot_laws, crate::proofs::KeptParts::part_values))]
pub fn value_of_parts(
    start: i64,
    end: i64,
    step: u64,
    of: &Chain,
    alloc: Global,
    types: &[Ty],
    function: &[Ty],
    state: &Running,
) -> Result<Value, OutOfMemory>
    requires legal { IsLegalCall (Resample start end step (chain_of of.now)) (map ty_of types.now) }
    requires function { map ty_of function.now ≡ inner_types (Resample start end step (chain_of of.now)) (map ty_of types.now) }
    requires shape { IsState (Resample start end step (chain_of of.now)) (map ty_of function.now) state.now }
    ensures { IfOk result (λ v. MeansChain (Resample start end step (chain_of of.now)) (map ty_of types.now) (tree_in state.now) (value_of v)) }
{
    match state {
        Running::Slots(parts) => {
            let inner = front_types(types);
            let values = values_of(of, alloc, inner, function, parts.as_slice())?;
            Ok(Value::List(values))
        }
        _ => unreachable!(),
    }
}

/// Whether a row reached the function in some interval.
#[cycle(fed_over)]
#[tactic(auto, using(running_states::proofs::Layers::slot_laws, crate::proofs::KeptParts::part_tolds))]
pub fn fed_parts(
    start: i64,
    end: i64,
    step: u64,
    of: &Chain,
    alloc: Global,
    types: &[Ty],
    function: &[Ty],
    state: &Running,
) -> Result<bool, OutOfMemory>
    requires legal { IsLegalCall (Resample start end step (chain_of of.now)) (map ty_of types.now) }
    requires function { map ty_of function.now ≡ inner_types (Resample start end step (chain_of of.now)) (map ty_of types.now) }
    requires shape { IsState (Resample start end step (chain_of of.now)) (map ty_of function.now) state.now }
    ensures { IfOk result (λ b. IsFedChain (Resample start end step (chain_of of.now)) (map ty_of types.now) (tree_in state.now) b) }
{
    match state {
        Running::Slots(parts) => {
            some_fed(of, alloc, front_types(types), function, parts.as_slice())
        }
        _ => unreachable!(),
    }
}
