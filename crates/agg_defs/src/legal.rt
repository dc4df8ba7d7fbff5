//! A legal chain with its types.
ghost use Rattle.std.specs.Prelude.{◌≡◌, true, map, IfOk};
ghost use Rattle.agg_terms.specs.Chains.{StateOf, tys};
ghost use Rattle.agg_meaning.specs.Results as meaning;
ghost use Rattle.agg_typing.specs.Promises.{IsLegalCall};
ghost use Rattle.value_types.specs.Folds.{chain_of, ty_of};
ghost use Rattle.agg_defs.specs.Parts.{IsTypedCall, IsStateType};

use crate::results::{result_over, state_over};
use std::alloc::Global;
use std::marker::Model;
use value_types::{Chain, OutOfMemory, Seq, Ty, copy_types};

/// A chain that breaks no rule over its argument types, with the types of its result and of its states.
///
/// It always is what the typing definitions say: the chain is legal over legal types, and the other two types follow
/// from them. Contracts see its four parts.
#[derive(Drop)]
pub struct Legal {
    chain: Chain,
    args: Seq<Ty>,
    result: Ty,
    state: Ty,
}

impl Model for Legal {
    ghost use Rattle.agg_defs.specs.Parts.{Parts, parts_code, IsTypedCall};

    ghost Value = { Parts };

    ghost coded = { parts_code };

    ghost view = { λ l. record { chain = l.chain; args = l.args; result = l.result; state_type = l.state } };

    ghost invariant = { λ l. IsTypedCall (record { chain = l.chain; args = l.args; result = l.result; state_type = l.state }) };
}

impl Legal {
    /// A chain with its argument types, the type of its result and that of its states.
    pub fn make(chain: Chain, args: Seq<Ty>, result_ty: Ty, state_ty: Ty) -> Legal
        requires legal { IsLegalCall (chain_of chain) (map ty_of args) }
        requires gives { ty_of result_ty ≡ meaning.result (chain_of chain) (map ty_of args) }
        requires keeps { ty_of state_ty ≡ meaning.state_type (chain_of chain) (map ty_of args) }
        ensures chain { result.chain ≡ chain }
        ensures args { result.args ≡ args }
        ensures gives { result.result ≡ result_ty }
        ensures keeps { result.state_type ≡ state_ty }
    {
        Legal {
            chain,
            args,
            result: result_ty,
            state: state_ty,
        }
    }

    /// The function under its suffixes.
    pub fn chain(&self) -> &Chain
        ensures lent { result.now ≡ self.now.chain }
        ensures typed { IsTypedCall self.now }
    {
        &self.chain
    }

    /// The types of the arguments, in their order.
    pub fn args(&self) -> &[Ty]
        ensures lent { result.now ≡ self.now.args }
        ensures typed { IsTypedCall self.now }
    {
        self.args.as_slice()
    }

    /// The type of the result.
    pub fn result(&self) -> &Ty
        ensures lent { result.now ≡ self.now.result }
        ensures typed { IsTypedCall self.now }
    {
        &self.result
    }

    /// The type of the states, which a `State` suffix gives and a `Merge` suffix takes.
    pub fn state_type(&self) -> &Ty
        ensures lent { result.now ≡ self.now.state_type }
        ensures typed { IsTypedCall self.now }
        ensures of_states { IsStateType self.now.state_type }
    {
        &self.state
    }
}

impl Legal {
    /// A legal chain over its argument types; the types of its result and of its states follow.
    ///
    /// # Errors
    ///
    /// [`OutOfMemory`] where there is no room for the two types.
    pub fn of_chain(alloc: Global, chain: Chain, args: Seq<Ty>) -> Result<Legal, OutOfMemory>
        requires { IsLegalCall (chain_of chain) (map ty_of args) }
        ensures chain { IfOk result (λ legal. legal.chain ≡ chain) }
        ensures args { IfOk result (λ legal. legal.args ≡ args) }
    {
        let result_ty = result_over(alloc, &chain, args.as_slice())?;
        let state_ty = state_over(alloc, &chain, args.as_slice())?;
        Ok(Legal::make(chain, args, result_ty, state_ty))
    }

    /// The chain and the types that a state type names, with that type as the type of its states.
    ///
    /// # Errors
    ///
    /// [`OutOfMemory`] where there is no room for it.
    pub fn of_state(alloc: Global, ty: &Ty) -> Result<Legal, OutOfMemory>
        requires { IsStateType ty.now }
        ensures named { IfOk result (λ legal. ty_of ty.now ≡ StateOf (chain_of legal.chain) (tys (map ty_of legal.args))) }
        ensures state { IfOk result (λ legal. legal.state_type ≡ ty.now) }
    {
        match ty {
            Ty::State(chain, args) => {
                let chain = chain.get().copy(alloc)?;
                let args = copy_types(alloc, args.as_slice())?;
                let result_ty = result_over(alloc, &chain, args.as_slice())?;
                let state_ty = ty.copy(alloc)?;
                Ok(Legal::make(chain, args, result_ty, state_ty))
            }
            _ => unreachable!(),
        }
    }

    /// An equal chain with equal types.
    ///
    /// # Errors
    ///
    /// [`OutOfMemory`] where there is no room for it.
    pub fn copy(&self, alloc: Global) -> Result<Legal, OutOfMemory>
        ensures { IfOk result (λ legal. legal ≡ self.now) }
    {
        Ok(Legal {
            chain: self.chain.copy(alloc)?,
            args: copy_types(alloc, self.args.as_slice())?,
            result: self.result.copy(alloc)?,
            state: self.state.copy(alloc)?,
        })
    }
}
