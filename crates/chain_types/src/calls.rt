//! The rules in their order.
ghost use Rattle.agg_terms.specs.Lists.{numbered};
ghost use Rattle.agg_typing.specs.Legal.{are_legal_types};
ghost use Rattle.agg_typing.specs.Typing as rules;
ghost use Rattle.chain_params.specs.Faults.{Gives};
ghost use Rattle.chain_params.specs.Literals.{literal_of};
ghost use Rattle.chain_types.specs.proving.Args.{arg_of};
ghost use Rattle.chain_types.specs.Calls.{call_seen};
ghost use Rattle.pattern_texts.specs.Machine.{pattern_reader};
ghost use Rattle.std.specs.Prelude.{◌≡◌, ◌<◌, ◌≤◌, ◌^◌, true, length, map, IfOk};
ghost use Rattle.type_names.specs.Reads.{shape_of};
ghost use Rattle.value_types.specs.Folds.{chain_of, ty_of};

use crate::arg_count::arg_count;
use crate::arg_types::{Arg, arg_types};
use crate::wrong_state::{is_state_or_merge, wrong_state};
use agg_defs::Legal;
use chain_params::{ChainFault, has_array_outside_if, read_chain, takes_param_count};
use std::alloc::Global;
use type_names::{NameFault, NameShape, read_chain_name};
use value_types::{Boxed, Chain, Literal, OutOfMemory, Seq, Ty, copy_types};

/// The types of a call with the numbers of their arguments, from 1.
fn numbered_args<'a>(alloc: Global, args: &'a [Ty]) -> Result<Vec<Arg<'a>>, OutOfMemory>
    requires { length args.now < 2 ^ 32 }
    ensures { IfOk result (λ all. map arg_of all.items ≡ numbered 1 (map ty_of args.now)) }
{
    let mut all = Vec::new(alloc);
    for i in 0..args.len() {
        all.push(Arg {
            number: i as u32 + 1,
            ty: &args[i],
        })?;
    }
    Ok(all)
}

/// The rules behind a name.
fn allowed_shape(
    alloc: Global,
    shape: &NameShape,
    params: &[Literal],
    args: &[Ty],
) -> Result<Chain, ChainFault>
    requires suffixes { length shape.now.suffixes ≤ 8 }
    requires params { length params.now < 2 ^ 32 }
    requires args { length args.now < 2 ^ 32 }
    ensures { Gives chain_of result (rules.allowed_shape pattern_reader (shape_of shape.now) (map literal_of params.now) (map ty_of args.now)) }
{
    let suffixes = shape.suffixes.as_slice();
    if has_array_outside_if(suffixes) {
        return Err(ChainFault::ArrayOutsideIf);
    }
    if !takes_param_count(shape.leaf, suffixes, params.len()) {
        return Err(ChainFault::ParamCount);
    }
    let chain = read_chain(alloc, shape.leaf, suffixes, params, args.len())?;
    arg_count(&chain, args.len() as u32)?;
    let all = numbered_args(alloc, args)?;
    arg_types(alloc, &chain, all.as_slice())?;
    wrong_state(alloc, &chain, all.as_slice())?;
    Ok(chain)
}

/// The chain of a call that breaks no rule, otherwise the first that it breaks.
fn allowed(alloc: Global, name: &[u8], params: &[Literal], args: &[Ty]) -> Result<Chain, ChainFault>
    requires params { length params.now < 2 ^ 32 }
    requires args { length args.now < 2 ^ 32 }
    ensures { Gives chain_of result (rules.allowed pattern_reader name.now (map literal_of params.now) (map ty_of args.now)) }
{
    match read_chain_name(alloc, name) {
        Ok(shape) => allowed_shape(alloc, &shape, params, args),
        Err(NameFault::Unknown(_)) => Err(ChainFault::UnknownName),
        Err(NameFault::TooManySuffixes) => Err(ChainFault::TooManySuffixes),
        Err(NameFault::OutOfMemory) => Err(ChainFault::OutOfMemory),
    }
}

/// What a call stands for: the chain that the name spells with these parameters, over arguments of these types, with the
/// types of its result and of its states (manual: "Aggregate function combinators", "Parametric aggregate functions", and
/// the page of each function).
///
/// # Errors
///
/// The first rule that is broken. The rules are tried in the order of the variants of [`ChainFault`]; within one rule the
/// outermost link comes first, and within one link what stands further left (this project's own choice).
/// [`ChainFault::OutOfMemory`] where there is no room for the answer.
pub fn resolve(
    alloc: Global,
    name: &[u8],
    params: &[Literal],
    args: &[Ty],
) -> Result<Legal, ChainFault>
    requires params { length params.now < 2 ^ 32 }
    requires args { length args.now < 2 ^ 32 }
    requires types { are_legal_types (map ty_of args.now) ≡ true }
    ensures { Gives call_seen result (rules.resolved pattern_reader name.now (map literal_of params.now) (map ty_of args.now)) }
{
    let chain = allowed(alloc, name, params, args)?;
    let args = copy_types(alloc, args)?;
    let legal = Legal::of_chain(alloc, chain, args)?;
    // That its two other types follow is known where one of its parts is lent.
    let _typed = legal.chain();
    Ok(legal)
}

/// The state type that a name with its parameters and types stands for, as in `AggregateFunction(sumIf, UInt8, UInt8)`
/// (manual: "AggregateFunction").
///
/// # Errors
///
/// The first rule that the chain breaks, as in [`resolve`]. Behind them [`ChainFault::WrongState`] of 0, where the
/// outermost suffix is `State` or `Merge` (this project's own choice). [`ChainFault::OutOfMemory`] where there is no room
/// for the type.
pub fn resolve_state(
    alloc: Global,
    name: &[u8],
    params: &[Literal],
    args: Seq<Ty>,
) -> Result<Ty, ChainFault>
    requires params { length params.now < 2 ^ 32 }
    requires args { length args < 2 ^ 32 }
    ensures { Gives ty_of result (rules.resolved_state pattern_reader name.now (map literal_of params.now) (map ty_of args)) }
{
    let chain = allowed(alloc, name, params, args.as_slice())?;
    if is_state_or_merge(&chain) {
        return Err(ChainFault::WrongState(0));
    }
    Ok(Ty::State(Boxed::new(alloc, chain)?, args))
}
