//! The types of results and states.
ghost use Rattle.std.specs.Prelude.{◌≡◌, cond, map, IfOk};
ghost use mir.Syntax.{w64};
ghost use Rattle.agg_terms.specs.Chains.{Arr, MapTy, Signed, Whole};
ghost use Rattle.agg_terms.specs.Types as types;
ghost use Rattle.agg_meaning.specs.Results as meaning;
ghost use Rattle.agg_defs.specs.proving.Reached.{reached_types};
ghost use Rattle.value_types.specs.Folds.{chain_of, leaf_of, ty_of};

use crate::reached::{Passed, Reached, all_reached, front, within};
use std::alloc::Global;
use value_types::{
    Boxed, Chain, Leaf, OutOfMemory, Seq, Ty, bare, is_nullable, is_signed, map_key,
};

fn any_null(args: &[Reached<'_>]) -> bool
    ensures { result ≡ types.any_null (reached_types args.now) }
{
    match args {
        [] => false,
        [first, rest @ ..] => is_nullable(first.ty) || any_null(rest),
    }
}

fn nullable_if(alloc: Global, nullable: bool, ty: Ty) -> Result<Ty, OutOfMemory>
    ensures { IfOk result (λ t. ty_of t ≡ meaning.nullable_if nullable (ty_of ty)) }
{
    if nullable {
        Ok(Ty::Nullable(Boxed::new(alloc, ty)?))
    } else {
        Ok(ty)
    }
}

/// Whether an `OrNull` makes a type Nullable.
fn gains_null(ty: &Ty) -> bool
    ensures { meaning.with_null (ty_of ty.now) ≡ meaning.nullable_if result (ty_of ty.now) }
{
    match ty {
        Ty::U8 | Ty::U16 | Ty::U32 | Ty::U64 | Ty::Str => true,
        Ty::I8 | Ty::I16 | Ty::I32 | Ty::I64 => true,
        Ty::Arr(_) | Ty::Map(_, _) | Ty::Nullable(_) | Ty::State(_, _) => false,
    }
}

/// The type of an `OrNull`: a number or String becomes Nullable, another type stays.
fn with_null(alloc: Global, ty: Ty) -> Result<Ty, OutOfMemory>
    ensures { IfOk result (λ t. ty_of t ≡ meaning.with_null (ty_of ty)) }
{
    let nullable = gains_null(&ty);
    nullable_if(alloc, nullable, ty)
}

/// The type of lists of a type.
fn list_of(alloc: Global, item: Ty) -> Result<Ty, OutOfMemory>
    ensures { IfOk result (λ t. ty_of t ≡ Arr (ty_of item)) }
{
    Ok(Ty::Arr(Boxed::new(alloc, item)?))
}

/// The first type without Nullable; String where there is none, as the definitions have it.
fn bare_first(alloc: Global, args: &[Reached<'_>]) -> Result<Ty, OutOfMemory>
    ensures { IfOk result (λ t. ty_of t ≡ types.bare (types.first_type (reached_types args.now))) }
{
    match args {
        [] => Ok(Ty::Str),
        [first, ..] => bare(first.ty).copy(alloc),
    }
}

fn first_is_signed(args: &[Reached<'_>]) -> bool
    ensures { result ≡ types.is_signed (types.first_type (reached_types args.now)) }
{
    match args {
        [] => false,
        [first, ..] => is_signed(first.ty),
    }
}

fn first_key(alloc: Global, args: &[Reached<'_>]) -> Result<Ty, OutOfMemory>
    ensures { IfOk result (λ t. ty_of t ≡ types.key_type (types.first_type (reached_types args.now))) }
{
    match args {
        [] => Ok(Ty::Str),
        [first, ..] => map_key(first.ty).copy(alloc),
    }
}

/// The type of maps from the first type's keys.
fn map_to(alloc: Global, args: &[Reached<'_>], item: Ty) -> Result<Ty, OutOfMemory>
    ensures { IfOk result (λ t. ty_of t ≡ MapTy (types.key_type (types.first_type (reached_types args.now))) (ty_of item)) }
{
    let item = Boxed::new(alloc, item)?;
    Ok(Ty::Map(Boxed::new(alloc, first_key(alloc, args)?)?, item))
}

/// The type of a sum: the widest number of the first type's sign.
fn sum_type(args: &[Reached<'_>]) -> Ty
    ensures { ty_of result ≡ cond (types.is_signed (types.first_type (reached_types args.now))) (Signed w64) (Whole 64) }
{
    if first_is_signed(args) {
        Ty::I64
    } else {
        Ty::U64
    }
}

/// The first type without Nullable, and Nullable where an argument may be NULL.
fn first_or_null(alloc: Global, args: &[Reached<'_>]) -> Result<Ty, OutOfMemory>
    ensures { IfOk result (λ t. ty_of t ≡ meaning.nullable_if (types.any_null (reached_types args.now)) (types.bare (types.first_type (reached_types args.now)))) }
{
    let first = bare_first(alloc, args)?;
    nullable_if(alloc, any_null(args), first)
}

fn leaf_result(alloc: Global, leaf: &Leaf, args: &[Reached<'_>]) -> Result<Ty, OutOfMemory>
    ensures { IfOk result (λ t. ty_of t ≡ meaning.leaf_result (leaf_of leaf.now) (reached_types args.now)) }
{
    match leaf {
        Leaf::Count | Leaf::UniqExact => Ok(Ty::U64),
        Leaf::WindowFunnel(_, _) | Leaf::SequenceMatch(_) => Ok(Ty::U8),
        Leaf::Retention => list_of(alloc, Ty::U8),
        Leaf::GroupArray(_) => list_of(alloc, bare_first(alloc, args)?),
        Leaf::Sum => nullable_if(alloc, any_null(args), sum_type(args)),
        Leaf::Min | Leaf::Max | Leaf::ArgMin | Leaf::ArgMax => first_or_null(alloc, args),
        Leaf::BitAnd | Leaf::BitOr | Leaf::BitXor => first_or_null(alloc, args),
        Leaf::QuantileExact(_) => first_or_null(alloc, args),
    }
}

/// The types in a state type, none in another type.
#[tactic(auto, using(crate::proofs::Back::tys_back))]
fn held_types<'a>(alloc: Global, ty: &'a Ty) -> Result<Vec<Reached<'a>>, OutOfMemory>
    ensures { IfOk result (λ all. reached_types all.items ≡ types.state_args (ty_of ty.now)) }
{
    match ty {
        Ty::State(_, types) => {
            let all = all_reached(alloc, types.as_slice())?;
            Ok(all)
        }
        _ => Ok(Vec::new(alloc)),
    }
}

/// The types in the state type that a `Merge` takes.
fn state_args<'a>(alloc: Global, args: &[Reached<'a>]) -> Result<Vec<Reached<'a>>, OutOfMemory>
    ensures { IfOk result (λ all. reached_types all.items ≡ types.state_args (types.first_type (reached_types args.now))) }
{
    match args {
        [] => Ok(Vec::new(alloc)),
        [first, ..] => held_types(alloc, first.ty),
    }
}

fn copy_reached(alloc: Global, args: &[Reached<'_>]) -> Result<Seq<Ty>, OutOfMemory>
    ensures { IfOk result (λ all. map ty_of all ≡ reached_types args.now) }
{
    let mut all = Seq::new(alloc);
    for arg in args {
        all.push(arg.ty.copy(alloc)?)?;
    }
    Ok(all)
}

/// The type of a chain's states over the types that reach it.
fn state_type(alloc: Global, chain: &Chain, args: &[Reached<'_>]) -> Result<Ty, OutOfMemory>
    ensures { IfOk result (λ t. ty_of t ≡ meaning.state_type (chain_of chain.now) (reached_types args.now)) }
{
    match chain {
        Chain::State(of) => state_type(alloc, of.get(), args),
        Chain::Merge(of) => {
            let inner = state_args(alloc, args)?;
            state_type(alloc, of.get(), inner.as_slice())
        }
        other => {
            let of = Boxed::new(alloc, other.copy(alloc)?)?;
            Ok(Ty::State(of, copy_reached(alloc, args)?))
        }
    }
}

/// The type of a chain's result over the types that reach it.
fn result_type(alloc: Global, chain: &Chain, args: &[Reached<'_>]) -> Result<Ty, OutOfMemory>
    ensures { IfOk result (λ t. ty_of t ≡ meaning.result (chain_of chain.now) (reached_types args.now)) }
{
    match chain {
        Chain::Leaf(leaf) => leaf_result(alloc, leaf, args),
        Chain::If(of) => result_type(alloc, of.get(), front(args)),
        Chain::Resample(_, _, _, of) => {
            let one = result_type(alloc, of.get(), front(args))?;
            list_of(alloc, one)
        }
        Chain::Array(of) => {
            let inner = within(alloc, Passed::Element, args)?;
            result_type(alloc, of.get(), inner.as_slice())
        }
        Chain::ForEach(of) => {
            let inner = within(alloc, Passed::Element, args)?;
            let one = result_type(alloc, of.get(), inner.as_slice())?;
            list_of(alloc, one)
        }
        Chain::MapOf(of) => {
            let inner = within(alloc, Passed::MapValue, args)?;
            let one = result_type(alloc, of.get(), inner.as_slice())?;
            map_to(alloc, args, one)
        }
        Chain::OrNull(of) => with_null(alloc, result_type(alloc, of.get(), args)?),
        Chain::OrDefault(of) => result_type(alloc, of.get(), args),
        Chain::Distinct(of) => result_type(alloc, of.get(), args),
        Chain::State(of) => state_type(alloc, of.get(), args),
        Chain::Merge(of) => {
            let inner = state_args(alloc, args)?;
            result_type(alloc, of.get(), inner.as_slice())
        }
    }
}

/// The type of a chain's states over these argument types.
pub fn state_over(alloc: Global, chain: &Chain, args: &[Ty]) -> Result<Ty, OutOfMemory>
    ensures { IfOk result (λ t. ty_of t ≡ meaning.state_type (chain_of chain.now) (map ty_of args.now)) }
{
    let reached = all_reached(alloc, args)?;
    state_type(alloc, chain, reached.as_slice())
}

/// The type of a chain's result over these argument types.
pub fn result_over(alloc: Global, chain: &Chain, args: &[Ty]) -> Result<Ty, OutOfMemory>
    ensures { IfOk result (λ t. ty_of t ≡ meaning.result (chain_of chain.now) (map ty_of args.now)) }
{
    let reached = all_reached(alloc, args)?;
    result_type(alloc, chain, reached.as_slice())
}
