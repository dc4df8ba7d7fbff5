//! -Map: a map with the value of each key.
ghost use Rattle.std.specs.Prelude.{◌≡◌, map, IfOk};
ghost use Rattle.agg_terms.specs.Chains.{MapOf};
ghost use Rattle.agg_terms.specs.Lists.{Each};
ghost use Rattle.agg_meaning.specs.States.{IsFedChain, MeansChain};
ghost use Rattle.agg_typing.specs.Promises.{IsLegalCall};
ghost use Rattle.link_types.specs.Links.{inner_types};
ghost use Rattle.value_types.specs.Folds.{chain_of, ty_of, value_of};
ghost use Rattle.running_states.specs.Shapes.{IsState};
ghost use Rattle.running_states.specs.Trees.{tree_in};
ghost use Rattle.running_states.specs.Entries.{entries_in};
ghost use Rattle.row_parts.specs.Rows.{pair_value};
ghost use Rattle.chain_values.specs.proving.Finished.{AreKeysFed, MeanKeys};

use crate::chains::{either, fed_over, value_over};
use link_types::item_types;
use running_states::Running;
use std::alloc::Global;
use value_types::{Chain, OutOfMemory, Seq, Ty, Value};

/// Each key with its value.
#[cycle(value_over)]
#[tactic(auto, using(crate::proofs::Turns::value_turns))]
fn pairs_of(
    of: &Chain,
    alloc: Global,
    types: &[Ty],
    function: &[Ty],
    entries: &[(Value, Running)],
) -> Result<Seq<(Value, Value)>, OutOfMemory>
    requires legal { IsLegalCall (chain_of of.now) (map ty_of types.now) }
    requires function { map ty_of function.now ≡ inner_types (chain_of of.now) (map ty_of types.now) }
    requires shape { Each (λ e. IsState (chain_of of.now) (map ty_of function.now) e.1) entries.now }
    ensures { IfOk result (λ pairs. MeanKeys (chain_of of.now) (map ty_of types.now) (entries_in entries.now) (map pair_value pairs)) }
{
    let mut pairs = Seq::new(alloc);
    pairs.reserve(entries.len())?;
    for i in 0..entries.len() {
        let key = entries[i].0.copy(alloc)?;
        let value = value_over(of, alloc, types, function, &entries[i].1)?;
        pairs.push((key, value))?;
    }
    Ok(pairs)
}

/// Whether a row reached the function at some key.
#[cycle(fed_over)]
#[tactic(auto, using(crate::proofs::Turns::fed_turns))]
fn some_key_fed(
    of: &Chain,
    alloc: Global,
    types: &[Ty],
    function: &[Ty],
    entries: &[(Value, Running)],
) -> Result<bool, OutOfMemory>
    requires legal { IsLegalCall (chain_of of.now) (map ty_of types.now) }
    requires function { map ty_of function.now ≡ inner_types (chain_of of.now) (map ty_of types.now) }
    requires shape { Each (λ e. IsState (chain_of of.now) (map ty_of function.now) e.1) entries.now }
    ensures { IfOk result (λ b. AreKeysFed (chain_of of.now) (map ty_of types.now) (entries_in entries.now) b) }
{
    let mut is_fed = false;
    for i in 0..entries.len() {
        let here = fed_over(of, alloc, types, function, &entries[i].1)?;
        is_fed = either(is_fed, here);
    }
    Ok(is_fed)
}

/// The map of the keys' values.
#[cycle(value_over)]
#[tactic(auto, using(running_states::proofs::Layers::key_laws, crate::proofs::KeptParts::key_values))]
pub fn value_at_keys(
    of: &Chain,
    alloc: Global,
    types: &[Ty],
    function: &[Ty],
    state: &Running,
) -> Result<Value, OutOfMemory>
    requires legal { IsLegalCall (MapOf (chain_of of.now)) (map ty_of types.now) }
    requires function { map ty_of function.now ≡ inner_types (MapOf (chain_of of.now)) (map ty_of types.now) }
    requires shape { IsState (MapOf (chain_of of.now)) (map ty_of function.now) state.now }
    ensures { IfOk result (λ v. MeansChain (MapOf (chain_of of.now)) (map ty_of types.now) (tree_in state.now) (value_of v)) }
{
    match state {
        Running::Keyed(entries) => {
            let inner = item_types(alloc, types)?;
            let pairs = pairs_of(of, alloc, inner.as_slice(), function, entries.as_slice())?;
            Ok(Value::Pairs(pairs))
        }
        _ => unreachable!(),
    }
}

/// Whether a row reached the function at some key.
#[cycle(fed_over)]
#[tactic(auto, using(running_states::proofs::Layers::key_laws, crate::proofs::KeptParts::key_tolds))]
pub fn fed_keys(
    of: &Chain,
    alloc: Global,
    types: &[Ty],
    function: &[Ty],
    state: &Running,
) -> Result<bool, OutOfMemory>
    requires legal { IsLegalCall (MapOf (chain_of of.now)) (map ty_of types.now) }
    requires function { map ty_of function.now ≡ inner_types (MapOf (chain_of of.now)) (map ty_of types.now) }
    requires shape { IsState (MapOf (chain_of of.now)) (map ty_of function.now) state.now }
    ensures { IfOk result (λ b. IsFedChain (MapOf (chain_of of.now)) (map ty_of types.now) (tree_in state.now) b) }
{
    match state {
        Running::Keyed(entries) => {
            let inner = item_types(alloc, types)?;
            some_key_fed(of, alloc, inner.as_slice(), function, entries.as_slice())
        }
        _ => unreachable!(),
    }
}
