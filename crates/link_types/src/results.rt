//! What the type of a chain's result says: its default, and whether it can be NULL.
ghost use Rattle.std.specs.Prelude.{◌≡◌, IfOk, map};
ghost use Rattle.agg_terms.specs.Types as types_in;
ghost use Rattle.agg_meaning.specs.Results as results;
ghost use Rattle.value_types.specs.Folds.{chain_of, leaf_of, ty_of, value_of};

use crate::inward::{element_types, front_types, state_types};
use plain_rows::{any_nullable, blank_of, first_type, nothing_of};
use std::alloc::Global;
use value_types::{Chain, Leaf, OutOfMemory, Seq, Ty, Value, bare};

/// Whether NULL is, or can be made, a value of a type.
fn takes_null(ty: &Ty) -> bool
    ensures { result ≡ results.can_be_null (ty_of ty.now) }
{
    match ty {
        Ty::Arr(_) => false,
        Ty::Map(_, _) => false,
        Ty::State(_, _) => false,
        _ => true,
    }
}

/// Whether the result of a function over its first argument's type can be NULL.
fn first_takes_null(types: &[Ty]) -> bool
    ensures { result ≡ results.can_be_null (results.nullable_if (types_in.any_null (map ty_of types.now)) (types_in.bare (types_in.first_type (map ty_of types.now)))) }
{
    let text = Ty::Str;
    any_nullable(types) || takes_null(bare(first_type(types, &text)))
}

/// Whether a function's result can be NULL.
#[tactic(auto, using(crate::proofs::ResultTypes::sum_takes_null))]
fn leaf_takes_null(leaf: &Leaf, types: &[Ty]) -> bool
    ensures { result ≡ results.can_be_null (results.leaf_result (leaf_of leaf.now) (map ty_of types.now)) }
{
    match leaf {
        Leaf::Count | Leaf::UniqExact | Leaf::Sum => true,
        Leaf::WindowFunnel(_, _) | Leaf::SequenceMatch(_) => true,
        Leaf::GroupArray(_) | Leaf::Retention => false,
        Leaf::Min | Leaf::Max | Leaf::ArgMin | Leaf::ArgMax => first_takes_null(types),
        Leaf::BitAnd | Leaf::BitOr | Leaf::BitXor => first_takes_null(types),
        Leaf::QuantileExact(_) => first_takes_null(types),
    }
}

/// Whether a chain's result can be NULL.
#[tactic(auto, using(crate::proofs::ResultTypes::null_laws))]
pub fn result_takes_null(alloc: Global, chain: &Chain, types: &[Ty]) -> Result<bool, OutOfMemory>
    ensures { IfOk result (λ takes. takes ≡ results.can_be_null (results.result (chain_of chain.now) (map ty_of types.now))) }
{
    match chain {
        Chain::Leaf(leaf) => Ok(leaf_takes_null(leaf, types)),
        Chain::If(of) => result_takes_null(alloc, of.get(), front_types(types)),
        Chain::Array(of) => {
            let inner = element_types(alloc, types)?;
            result_takes_null(alloc, of.get(), inner.as_slice())
        }
        Chain::OrNull(of) => result_takes_null(alloc, of.get(), types),
        Chain::OrDefault(of) => result_takes_null(alloc, of.get(), types),
        Chain::Distinct(of) => result_takes_null(alloc, of.get(), types),
        Chain::Merge(of) => result_takes_null(alloc, of.get(), state_types(types)),
        Chain::MapOf(_) => Ok(false),
        Chain::ForEach(_) => Ok(false),
        Chain::Resample(_, _, _, _) => Ok(false),
        Chain::State(_) => Ok(false),
    }
}

/// The default of the type of a chain's result.
#[tactic(auto, using(crate::proofs::ResultTypes::default_laws))]
pub fn result_default(alloc: Global, chain: &Chain, types: &[Ty]) -> Result<Value, OutOfMemory>
    ensures { IfOk result (λ value. value_of value ≡ results.default (results.result (chain_of chain.now) (map ty_of types.now))) }
{
    match chain {
        Chain::Leaf(leaf) => nothing_of(alloc, leaf, types),
        Chain::If(of) => result_default(alloc, of.get(), front_types(types)),
        Chain::Array(of) => {
            let inner = element_types(alloc, types)?;
            result_default(alloc, of.get(), inner.as_slice())
        }
        Chain::OrNull(of) => {
            if result_takes_null(alloc, of.get(), types)? {
                return Ok(Value::Nil);
            }
            result_default(alloc, of.get(), types)
        }
        Chain::OrDefault(of) => result_default(alloc, of.get(), types),
        Chain::Distinct(of) => result_default(alloc, of.get(), types),
        Chain::Merge(of) => result_default(alloc, of.get(), state_types(types)),
        Chain::MapOf(_) => Ok(Value::Pairs(Seq::new(alloc))),
        Chain::ForEach(_) => Ok(Value::List(Seq::new(alloc))),
        Chain::Resample(_, _, _, _) => Ok(Value::List(Seq::new(alloc))),
        Chain::State(of) => Ok(Value::Cell(blank_of(alloc, of.get())?)),
    }
}
