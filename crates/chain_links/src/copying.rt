//! An equal state.
ghost use Rattle.std.specs.Prelude.{◌≡◌, length, map, IfOk};
ghost use Rattle.agg_terms.specs.Lists.{Each};
ghost use Rattle.agg_terms.specs.Values.{keyed_tree, slots_tree};
ghost use Rattle.value_types.specs.Folds.{chain_of, ty_of};
ghost use Rattle.running_states.specs.Shapes.{AreEntries, AreKeyed, AreParts, IsState};
ghost use Rattle.running_states.specs.declared.running.Running.TheViews.{out-Running};
ghost use Rattle.running_states.specs.Trees.{tree_in};
ghost use Rattle.running_states.specs.Entries.{entries_in};

use running_states::{Running, copy_first, copy_leaf};
use std::alloc::Global;
use value_types::{Chain, OutOfMemory, Ty, Value};

/// A state with the same tree.
///
/// # Errors
///
/// [`OutOfMemory`] where there is no room for it.
#[cycle(copy)]
#[tactic(auto, using(value_types::proofs::FoldLaws::chain_laws, running_states::proofs::Layers::copy_laws))]
pub fn copy(
    chain: &Chain,
    alloc: Global,
    types: &[Ty],
    state: &Running,
) -> Result<Running, OutOfMemory>
    requires { IsState (chain_of chain.now) (map ty_of types.now) state.now }
    ensures shape { IfOk result (λ s. IsState (chain_of chain.now) (map ty_of types.now) s) }
    ensures tree { IfOk result (λ s. tree_in s ≡ tree_in state.now) }
{
    match chain {
        Chain::Leaf(leaf) => copy_leaf(leaf, alloc, types, state),
        Chain::If(of) => copy(of.get(), alloc, types, state),
        Chain::Array(of) => copy(of.get(), alloc, types, state),
        Chain::MapOf(of) => match state {
            Running::Keyed(entries) => copy_entries(of.get(), alloc, types, entries.as_slice()),
            _ => unreachable!(),
        },
        Chain::ForEach(of) => match state {
            Running::Slots(slots) => copy_slots(of.get(), alloc, types, slots.as_slice()),
            _ => unreachable!(),
        },
        Chain::OrNull(of) => copy(of.get(), alloc, types, state),
        Chain::OrDefault(of) => copy(of.get(), alloc, types, state),
        Chain::Distinct(_) => copy_first(alloc, state),
        Chain::Resample(_, _, _, of) => match state {
            Running::Slots(parts) => copy_slots(of.get(), alloc, types, parts.as_slice()),
            _ => unreachable!(),
        },
        Chain::State(of) => copy(of.get(), alloc, types, state),
        Chain::Merge(of) => copy(of.get(), alloc, types, state),
    }
}

/// A state with the same slots.
#[cycle(copy)]
#[tactic(auto, using(running_states::proofs::Layers::slot_laws))]
fn copy_slots(
    of: &Chain,
    alloc: Global,
    types: &[Ty],
    slots: &[Running],
) -> Result<Running, OutOfMemory>
    requires { Each (IsState (chain_of of.now) (map ty_of types.now)) slots.now }
    ensures shape { IfOk result (λ s. AreParts (length slots.now) (IsState (chain_of of.now) (map ty_of types.now)) (out-Running s)) }
    ensures tree { IfOk result (λ s. tree_in s ≡ slots_tree (map tree_in slots.now)) }
{
    let mut all = Vec::with_capacity(alloc, slots.len())?;
    for i in 0..slots.len() {
        all.push(copy(of, alloc, types, &slots[i])?)?;
    }
    Ok(Running::Slots(all))
}

/// A state with the same entries.
#[cycle(copy)]
#[tactic(auto, using(running_states::proofs::Layers::key_laws))]
fn copy_entries(
    of: &Chain,
    alloc: Global,
    types: &[Ty],
    entries: &[(Value, Running)],
) -> Result<Running, OutOfMemory>
    requires { AreEntries (IsState (chain_of of.now) (map ty_of types.now)) entries.now }
    ensures shape { IfOk result (λ s. AreKeyed (IsState (chain_of of.now) (map ty_of types.now)) (out-Running s)) }
    ensures tree { IfOk result (λ s. tree_in s ≡ keyed_tree (entries_in entries.now)) }
{
    let mut all = Vec::with_capacity(alloc, entries.len())?;
    for i in 0..entries.len() {
        let key = entries[i].0.copy(alloc)?;
        all.push((key, copy(of, alloc, types, &entries[i].1)?))?;
    }
    Ok(Running::Keyed(all))
}
