//! A legal call made ready for its states.
ghost use Rattle.std.specs.Prelude.{◌≡◌, true, IfOk, map};
ghost use Rattle.agg_meaning.specs.Lawful.{IsSound};
ghost use Rattle.agg_typing.specs.Legal.{function_of};
ghost use Rattle.agg_typing.specs.Promises.{IsLegalCall};
ghost use Rattle.link_types.specs.Links.{inner_types};
ghost use Rattle.value_types.specs.Folds.{chain_of, ty_of};
ghost use Rattle.running_states.specs.Served.{is_served};

use agg_defs::Legal;
use link_types::function_types;
use std::alloc::Global;
use std::marker::Model;
use value_types::{Chain, OutOfMemory, Seq, Ty};

/// A legal call with the argument types of its chain's function, which every call on a state asks for. It is made once.
#[derive(Drop)]
pub struct ReadyCall {
    legal: Legal,
    types: Seq<Ty>,
}

impl Model for ReadyCall {
    ghost use Rattle.chain_states.specs.Ready.{Call, IsReady, call_code};

    ghost Value = { Call };

    ghost coded = { call_code };

    ghost view = { λ k. record { legal = k.legal; types = k.types } };

    ghost invariant = { λ k. IsReady (record { legal = k.legal; types = k.types }) };
}

impl ReadyCall {
    /// The call, ready.
    ///
    /// # Errors
    ///
    /// [`OutOfMemory`] where there is no room for it.
    pub fn new(alloc: Global, legal: &Legal) -> Result<ReadyCall, OutOfMemory>
        ensures { IfOk result (λ call. call.legal ≡ legal.now) }
    {
        let types = function_types(alloc, legal.chain(), legal.args())?;
        Ok(ReadyCall {
            legal: legal.copy(alloc)?,
            types,
        })
    }

    /// The legal call.
    pub fn legal(&self) -> &Legal
        ensures { result.now ≡ self.now.legal }
    {
        &self.legal
    }

    /// The chain. It breaks no rule, and its function has a state.
    #[inline]
    #[tactic(auto, using(chain_values::proofs::ReadyLaws::ready_laws))]
    pub(crate) fn chain(&self) -> &Chain
        ensures lent { result.now ≡ self.now.legal.chain }
        ensures legal { IsLegalCall (chain_of self.now.legal.chain) (map ty_of self.now.legal.args) }
        ensures sound { IsSound (chain_of self.now.legal.chain) }
        ensures served { is_served (function_of (chain_of self.now.legal.chain)) (map ty_of self.now.types) ≡ true }
        ensures function { map ty_of self.now.types ≡ inner_types (chain_of self.now.legal.chain) (map ty_of self.now.legal.args) }
    {
        self.legal.chain()
    }

    /// The types of the arguments.
    #[inline]
    pub(crate) fn args(&self) -> &[Ty]
        ensures { result.now ≡ self.now.legal.args }
    {
        self.legal.args()
    }

    /// The argument types of the function.
    #[inline]
    pub(crate) fn types(&self) -> &[Ty]
        ensures { result.now ≡ self.now.types }
    {
        self.types.as_slice()
    }
}
