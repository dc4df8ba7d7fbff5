//! Which types a link takes, and which it passes inward.
ghost use Rattle.agg_terms.specs.Lists as lists;
ghost use Rattle.agg_typing.specs.Faults.{no_breach};
ghost use Rattle.agg_typing.specs.Kinds as rules;
ghost use Rattle.chain_params.specs.Faults.{Gives};
ghost use Rattle.chain_types.specs.proving.Args.{arg_of, has, part_of};
ghost use Rattle.std.specs.Prelude.{◌≡◌, map, IfOk};
ghost use Rattle.value_types.specs.Folds.{chain_of, leaf_of, ty_of};

use crate::kinds::Kind;
use chain_params::ChainFault;
use std::alloc::Global;
use value_types::{Chain, Leaf, OutOfMemory, Ty, element, map_item};

/// A type that reaches a link, and the number of the argument that it came from.
#[derive(Clone, Copy, Debug)]
pub struct Arg<'a> {
    pub number: u32,
    pub ty: &'a Ty,
}

/// What of an argument's type a suffix passes inward.
#[derive(Clone, Copy, Debug, PartialEq, Eq)]
pub enum Part {
    Element,
    MapValue,
}

impl Part {
    fn of<'a>(self, ty: &'a Ty) -> &'a Ty
        ensures { ty_of result.now ≡ part_of self (ty_of ty.now) }
    {
        match self {
            Part::Element => element(ty),
            Part::MapValue => map_item(ty),
        }
    }
}

/// The part of each that a suffix passes inward.
pub fn within<'a>(alloc: Global, part: Part, args: &[Arg<'a>]) -> Result<Vec<Arg<'a>>, OutOfMemory>
    ensures { IfOk result (λ all. map arg_of all.items ≡ rules.with_parts (part_of part) (map arg_of args.now)) }
{
    let mut all = Vec::new(alloc);
    for arg in args {
        all.push(Arg {
            number: arg.number,
            ty: part.of(arg.ty),
        })?;
    }
    Ok(all)
}

/// All but the last.
pub fn front<'b, 'a>(args: &'b [Arg<'a>]) -> &'b [Arg<'a>]
    ensures { map arg_of result.now ≡ lists.front (map arg_of args.now) }
{
    match args {
        [] => args,
        [inner @ .., _] => inner,
    }
}

/// Whether all are of a kind, with the first that isn't.
fn each_is(kind: Kind, args: &[Arg<'_>]) -> Result<(), ChainFault>
    ensures { Gives (λ x. x) result (no_breach (rules.each_is (has kind) (map arg_of args.now))) }
{
    match args {
        [] => Ok(()),
        [first, rest @ ..] => {
            if kind.has(first.ty) {
                each_is(kind, rest)
            } else {
                Err(ChainFault::ArgType(first.number))
            }
        }
    }
}

/// Whether the last is of a kind.
fn last_is(kind: Kind, args: &[Arg<'_>]) -> Result<(), ChainFault>
    ensures { Gives (λ x. x) result (no_breach (rules.last_is (has kind) (map arg_of args.now))) }
{
    match args {
        [] => Ok(()),
        [only] => {
            if kind.has(only.ty) {
                Ok(())
            } else {
                Err(ChainFault::ArgType(only.number))
            }
        }
        [_, rest @ ..] => last_is(kind, rest),
    }
}

/// A timestamp first, and conditions behind it.
fn time_and_conditions(args: &[Arg<'_>]) -> Result<(), ChainFault>
    ensures { Gives (λ x. x) result (no_breach (rules.time_and_conditions (map arg_of args.now))) }
{
    match args {
        [] => Ok(()),
        [first, rest @ ..] => {
            if Kind::Time.has(first.ty) {
                each_is(Kind::Condition, rest)
            } else {
                Err(ChainFault::ArgType(first.number))
            }
        }
    }
}

/// What a function takes (manual: the page of each function).
fn leaf_types(leaf: &Leaf, args: &[Arg<'_>]) -> Result<(), ChainFault>
    ensures { Gives (λ x. x) result (no_breach (rules.leaf_types (leaf_of leaf.now) (map arg_of args.now))) }
{
    match leaf {
        Leaf::Count => Ok(()),
        Leaf::Sum | Leaf::BitAnd | Leaf::BitOr | Leaf::BitXor | Leaf::QuantileExact(_) => {
            each_is(Kind::Number, args)
        }
        Leaf::Min | Leaf::Max | Leaf::ArgMin | Leaf::ArgMax => each_is(Kind::NumberOrText, args),
        Leaf::GroupArray(_) | Leaf::UniqExact => each_is(Kind::Stateless, args),
        Leaf::WindowFunnel(_, _) | Leaf::SequenceMatch(_) => time_and_conditions(args),
        Leaf::Retention => each_is(Kind::Condition, args),
    }
}

/// Whether each link takes the types that reach it, with the first that it doesn't, from the outermost link inward.
pub fn arg_types(alloc: Global, chain: &Chain, args: &[Arg<'_>]) -> Result<(), ChainFault>
    ensures { Gives (λ x. x) result (no_breach (rules.arg_types (chain_of chain.now) (map arg_of args.now))) }
{
    match chain {
        Chain::Leaf(leaf) => leaf_types(leaf, args),
        Chain::If(of) => {
            last_is(Kind::Condition, args)?;
            arg_types(alloc, of.get(), front(args))
        }
        Chain::Resample(_, _, _, of) => {
            last_is(Kind::Number, args)?;
            arg_types(alloc, of.get(), front(args))
        }
        Chain::Array(of) => {
            each_is(Kind::Array, args)?;
            let inner = within(alloc, Part::Element, args)?;
            arg_types(alloc, of.get(), inner.as_slice())
        }
        Chain::ForEach(of) => {
            each_is(Kind::Array, args)?;
            let inner = within(alloc, Part::Element, args)?;
            arg_types(alloc, of.get(), inner.as_slice())
        }
        Chain::MapOf(of) => {
            each_is(Kind::Map, args)?;
            let inner = within(alloc, Part::MapValue, args)?;
            arg_types(alloc, of.get(), inner.as_slice())
        }
        Chain::Distinct(of) => {
            each_is(Kind::Stateless, args)?;
            arg_types(alloc, of.get(), args)
        }
        Chain::OrNull(of) => arg_types(alloc, of.get(), args),
        Chain::OrDefault(of) => arg_types(alloc, of.get(), args),
        Chain::State(of) => arg_types(alloc, of.get(), args),
        Chain::Merge(_) => Ok(()),
    }
}
