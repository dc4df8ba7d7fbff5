//! A plan made ready for tables.
ghost use Rattle.std.specs.Prelude.{◌≡◌, ◌<◌, All, get_or, length, map, IfOk};
ghost use Rattle.agg_defs.specs.Plans.{call_in};
ghost use Rattle.agg_typing.specs.Views.{IsViewOver};
ghost use Rattle.value_types.specs.Folds.{ty_of};
ghost use Rattle.value_types.specs.declared.ty.Ty.TheVariants as rust;
ghost use Rattle.group_tables.specs.Calls.{call_of, calls_of};

use agg_defs::{Call, GroupPlan};
use chain_states::ReadyCall;
use std::alloc::Global;
use std::collections::hash_map::RandomState;
use value_types::{OutOfMemory, Seq, Ty, copy_types};

/// A call made ready, and the numbers of its columns.
#[derive(Drop)]
pub struct GroupCall {
    pub(crate) ready: ReadyCall,
    pub(crate) columns: Seq<u32>,
}

/// A plan made ready for tables over batches of columns of some types. `hasher` has a seed of the process.
#[derive(Drop)]
pub struct Grouping {
    pub(crate) types: Seq<Ty>,
    pub(crate) calls: Seq<GroupCall>,
    pub(crate) keys: Seq<u32>,
    pub(crate) key_types: Seq<Ty>,
    pub(crate) hasher: RandomState,
}

impl Grouping {
    ghost use Rattle.agg_defs.specs.Plans.{view_in};
    ghost use Rattle.group_tables.specs.Groupings.{IsReady, view_of};

    /// A plan over columns of these types, made ready.
    ///
    /// # Errors
    ///
    /// [`OutOfMemory`] where there is no room for it.
    pub fn new(
        alloc: Global,
        plan: &GroupPlan,
        types: &[Ty],
        hasher: RandomState,
    ) -> Result<Grouping, OutOfMemory>
        requires { IsViewOver (map ty_of types.now) (view_in plan.now) }
        ensures view { IfOk result (λ g. view_of g ≡ view_in plan.now) }
        ensures types { IfOk result (λ g. g.types ≡ types.now) }
        ensures ready { IfOk result IsReady }
    {
        let plan_calls = plan.calls.as_slice();
        let plan_keys = plan.keys.as_slice();
        let calls = ready_calls(alloc, plan_calls)?;
        let key_types = types_at(alloc, types, plan_keys)?;
        let keys = Seq::from_slice(alloc, plan_keys)?;
        let types = copy_types(alloc, types)?;
        Ok(Grouping {
            types,
            calls,
            keys,
            key_types,
            hasher,
        })
    }
}

fn ready_calls(alloc: Global, calls: &[Call]) -> Result<Seq<GroupCall>, OutOfMemory>
    ensures { IfOk result (λ ready. calls_of ready ≡ map call_in calls.now) }
{
    let mut ready = Seq::new(alloc);
    ready.reserve(calls.len())?;
    for i in 0..calls.len() {
        ready.push(ready_call(alloc, &calls[i])?)?;
    }
    Ok(ready)
}

fn ready_call(alloc: Global, call: &Call) -> Result<GroupCall, OutOfMemory>
    ensures { IfOk result (λ ready. call_of ready ≡ call_in call.now) }
{
    Ok(GroupCall {
        ready: ReadyCall::new(alloc, &call.legal)?,
        columns: Seq::from_slice(alloc, call.columns.as_slice())?,
    })
}

/// The types of the columns of these numbers.
fn types_at(alloc: Global, types: &[Ty], keys: &[u32]) -> Result<Seq<Ty>, OutOfMemory>
    requires { All (λ k. k < length types.now) keys.now }
    ensures { IfOk result (λ at. at ≡ map (λ k. get_or types.now k rust.Str) keys.now) }
{
    let mut at = Seq::new(alloc);
    for i in 0..keys.len() {
        at.push(type_at(alloc, types, keys[i])?)?;
    }
    Ok(at)
}

fn type_at(alloc: Global, types: &[Ty], key: u32) -> Result<Ty, OutOfMemory>
    requires { key < length types.now }
    ensures { IfOk result (λ ty. ty ≡ get_or types.now key rust.Str) }
{
    types[key as usize].copy(alloc)
}
