//! The state of a call, and its calls.
ghost use Rattle.std.specs.Prelude.{◌≡◌, ◌≤◌, [], ◌∷◌, length, map, IfOk, OnOk};
ghost use Rattle.agg_terms.specs.Trees.{IsTree};
ghost use Rattle.agg_meaning.specs.States.{IsFedChain, Joins, MeansChain};
ghost use Rattle.agg_meaning.specs.Suffixes.{normal};
ghost use Rattle.int_leaves.specs.Rows.{argument};
ghost use Rattle.value_types.specs.Folds.{tree_of, value_of};
ghost use Rattle.chain_states.specs.Calls.{IsStateOf, StateTakes, chain_in, tree_in, types_in};

use crate::ready::ReadyCall;
use chain_values::{fed_over, value_over};
use running_states::Running;
use std::alloc::Global;
use typed_columns::{Args, Item};
use value_types::{OutOfMemory, Tree, Value};

/// The running state of a call, 32 bytes. ClickHouse manual: "Aggregate function combinators", and "AggregateFunction".
#[derive(Drop)]
pub struct State {
    pub(crate) running: Running,
}

const _: () = prove!(size_of::<State>() == 32);

impl State {
    /// The state of no rows.
    ///
    /// # Errors
    ///
    /// [`OutOfMemory`] where there is no room for it.
    #[tactic(auto, using(crate::proofs::Said::state_laws))]
    pub fn fresh(alloc: Global, call: &ReadyCall) -> Result<State, OutOfMemory>
        ensures shape { IfOk result (λ s. IsStateOf call.now s) }
        ensures fresh { IfOk result (λ s. tree_in s ≡ normal (chain_in call.now) (types_in call.now) []) }
    {
        let chain = call.chain();
        let running = chain_links::fresh(chain, alloc, call.types())?;
        Ok(State { running })
    }

    /// Adds a row: an argument of each of the call's types.
    ///
    /// # Errors
    ///
    /// [`OutOfMemory`] where there is no room; the state is then of unknown content.
    #[inline]
    #[tactic(auto, using(crate::proofs::Said::row_laws))]
    pub fn feed(
        &mut self,
        alloc: Global,
        call: &ReadyCall,
        row: &Args<'_>,
    ) -> Result<(), OutOfMemory>
        requires { IsStateOf call.now self.old }
        ensures shape { OnOk result (IsStateOf call.now self.new) }
        ensures row { OnOk result (StateTakes call.now (map value_of row.now ∷ []) self.old self.new) }
    {
        let _count = row.len();
        self.feed_items(alloc, call, row.as_slice())
    }

    /// Adds a row, given as its items: [`feed`](State::feed) over a slice of at most 64.
    ///
    /// # Errors
    ///
    /// [`OutOfMemory`] where there is no room; the state is then of unknown content.
    #[inline]
    #[tactic(auto, using(crate::proofs::Said::state_laws))]
    pub fn feed_items(
        &mut self,
        alloc: Global,
        call: &ReadyCall,
        row: &[Item<'_>],
    ) -> Result<(), OutOfMemory>
        requires shape { IsStateOf call.now self.old }
        requires few { length row.now ≤ 64 }
        ensures shape { OnOk result (IsStateOf call.now self.new) }
        ensures row { OnOk result (StateTakes call.now (map argument row.now ∷ []) self.old self.new) }
    {
        let chain = call.chain();
        chain_links::feed(chain, alloc, call.types(), &mut self.running, row)
    }

    /// Joins the rows of a later state of the call behind.
    ///
    /// # Errors
    ///
    /// [`OutOfMemory`] where there is no room; the state is then of unknown content.
    #[tactic(auto, using(crate::proofs::Said::state_laws))]
    pub fn merge(
        &mut self,
        alloc: Global,
        call: &ReadyCall,
        later: &State,
    ) -> Result<(), OutOfMemory>
        requires first { IsStateOf call.now self.old }
        requires later { IsStateOf call.now later.now }
        ensures shape { OnOk result (IsStateOf call.now self.new) }
        ensures rows { OnOk result (Joins (chain_in call.now) (types_in call.now) (tree_in self.old) (tree_in later.now) (tree_in self.new)) }
    {
        let chain = call.chain();
        chain_links::merge(
            chain,
            alloc,
            call.types(),
            &mut self.running,
            &later.running,
        )
    }

    /// The value of the state: what its rows mean to the chain.
    ///
    /// # Errors
    ///
    /// [`OutOfMemory`] where there is no room for it.
    pub fn finish(&self, alloc: Global, call: &ReadyCall) -> Result<Value, OutOfMemory>
        requires { IsStateOf call.now self.now }
        ensures { IfOk result (λ v. MeansChain (chain_in call.now) (types_in call.now) (tree_in self.now) (value_of v)) }
    {
        let chain = call.chain();
        value_over(chain, alloc, call.args(), call.types(), &self.running)
    }

    /// Whether a row reached the function. -Distinct feeds a state of the chain inside to tell.
    ///
    /// # Errors
    ///
    /// [`OutOfMemory`] where there is no room to tell.
    pub fn is_fed(&self, alloc: Global, call: &ReadyCall) -> Result<bool, OutOfMemory>
        requires { IsStateOf call.now self.now }
        ensures { IfOk result (λ b. IsFedChain (chain_in call.now) (types_in call.now) (tree_in self.now) b) }
    {
        let chain = call.chain();
        fed_over(chain, alloc, call.args(), call.types(), &self.running)
    }

    /// A state of the same rows.
    ///
    /// # Errors
    ///
    /// [`OutOfMemory`] where there is no room for it.
    pub fn copy(&self, alloc: Global, call: &ReadyCall) -> Result<State, OutOfMemory>
        requires { IsStateOf call.now self.now }
        ensures shape { IfOk result (λ s. IsStateOf call.now s) }
        ensures copy { IfOk result (λ s. tree_in s ≡ tree_in self.now) }
    {
        let chain = call.chain();
        let running = chain_links::copy(chain, alloc, call.types(), &self.running)?;
        Ok(State { running })
    }

    /// The state's tree, which is stored.
    ///
    /// # Errors
    ///
    /// [`OutOfMemory`] where there is no room for it.
    pub fn tree(&self, alloc: Global) -> Result<Tree, OutOfMemory>
        ensures { IfOk result (λ t. tree_of t ≡ tree_in self.now) }
    {
        chain_links::tree(alloc, &self.running)
    }

    /// The state with this tree, where it is one of the call.
    ///
    /// # Errors
    ///
    /// [`OutOfMemory`] where there is no room for it.
    #[tactic(auto, using(crate::proofs::Said::state_laws))]
    pub fn from_tree(alloc: Global, call: &ReadyCall, tree: &Tree) -> Result<State, OutOfMemory>
        ensures shape { IfOk result (λ s. IsStateOf call.now s) }
        ensures tree { IfOk result (λ s. IsTree (chain_in call.now) (types_in call.now) (tree_of tree.now) → tree_in s ≡ tree_of tree.now) }
    {
        let chain = call.chain();
        let running = chain_links::from_tree(chain, alloc, call.types(), tree)?;
        Ok(State { running })
    }
}
