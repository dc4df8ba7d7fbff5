//! Which states a `Merge` takes.
ghost use Rattle.agg_typing.specs.Faults.{no_breach};
ghost use Rattle.agg_typing.specs.States as rules;
ghost use Rattle.chain_params.specs.Faults.{Gives};
ghost use Rattle.chain_types.specs.proving.Args.{arg_of};
ghost use Rattle.std.specs.Prelude.{◌≡◌, map};
ghost use Rattle.value_types.specs.Folds.{chain_of, ty_of};

use crate::arg_types::{Arg, Part, front, within};
use crate::same_chain::same_chain;
use chain_params::ChainFault;
use std::alloc::Global;
use value_types::{Chain, Ty};

/// Whether the outermost link is a `State` or a `Merge`: such a chain has the states of its inner chain, and no state
/// type names it.
pub fn is_state_or_merge(chain: &Chain) -> bool
    ensures { result ≡ rules.is_state_or_merge (chain_of chain.now) }
{
    matches!(chain, Chain::State(_) | Chain::Merge(_))
}

/// Whether a type is that of the states of exactly this chain, and the chain has such a type.
fn is_state_of(chain: &Chain, ty: &Ty) -> bool
    ensures { result ≡ rules.is_state_of (chain_of chain.now) (ty_of ty.now) }
{
    match ty {
        Ty::State(of, _) => { same_chain(chain, of.get()) && !is_state_or_merge(chain) }
        _ => false,
    }
}

/// Whether all are states of the chain, with the first that isn't.
fn each_state(chain: &Chain, args: &[Arg<'_>]) -> Result<(), ChainFault>
    ensures { Gives (λ x. x) result (no_breach (rules.each_state (chain_of chain.now) (map arg_of args.now))) }
{
    match args {
        [] => Ok(()),
        [first, rest @ ..] => {
            if is_state_of(chain, first.ty) {
                each_state(chain, rest)
            } else {
                Err(ChainFault::WrongState(first.number))
            }
        }
    }
}

/// Whether a `Merge` takes states of its inner chain (manual: "Aggregate function combinators", -Merge), with the
/// first argument that isn't one.
pub fn wrong_state(alloc: Global, chain: &Chain, args: &[Arg<'_>]) -> Result<(), ChainFault>
    ensures { Gives (λ x. x) result (no_breach (rules.wrong_state (chain_of chain.now) (map arg_of args.now))) }
{
    match chain {
        Chain::Leaf(_) => Ok(()),
        Chain::If(of) => wrong_state(alloc, of.get(), front(args)),
        Chain::Resample(_, _, _, of) => wrong_state(alloc, of.get(), front(args)),
        Chain::Array(of) => {
            let inner = within(alloc, Part::Element, args)?;
            wrong_state(alloc, of.get(), inner.as_slice())
        }
        Chain::ForEach(of) => {
            let inner = within(alloc, Part::Element, args)?;
            wrong_state(alloc, of.get(), inner.as_slice())
        }
        Chain::MapOf(of) => {
            let inner = within(alloc, Part::MapValue, args)?;
            wrong_state(alloc, of.get(), inner.as_slice())
        }
        Chain::Distinct(of) => wrong_state(alloc, of.get(), args),
        Chain::OrNull(of) => wrong_state(alloc, of.get(), args),
        Chain::OrDefault(of) => wrong_state(alloc, of.get(), args),
        Chain::State(of) => wrong_state(alloc, of.get(), args),
        Chain::Merge(of) => each_state(of.get(), args),
    }
}
