//! A column of states.
ghost use Rattle.std.specs.Prelude.{◌≡◌, ◌<◌, ◌≤◌, ◌-◌, ◌++◌, ◌∷◌, [], All, get_or, length, map, replicate, IfOk, OnOk};
ghost use Rattle.agg_meaning.specs.States.{MeansChain};
ghost use Rattle.agg_terms.specs.Lists.{Each};
ghost use Rattle.agg_terms.specs.Trees.{IsTree};
ghost use Rattle.agg_terms.specs.Values.{Empty};
ghost use Rattle.chain_states.specs.Calls.{IsStateOf, argument_rows, chain_in, tree_in, types_in};
ghost use Rattle.chain_states.specs.declared.ready.ReadyCall.{ReadyCall as Ready};
ghost use Rattle.state_columns.specs.Trees.{IsColumnOf, JoinAt, TakeAt, blank_in, trees_in};
ghost use Rattle.value_types.specs.Folds.{tree_of, value_of};

use chain_states::{ReadyCall, State, add_fresh, feed_places};
use std::alloc::Global;
use typed_columns::Column;
use value_types::{OutOfMemory, Tree, Value};

/// The states of one call, a state for each group of a table.
#[derive(Drop)]
pub struct StateColumn {
    states: Vec<State>,
}

impl StateColumn {
    /// No states: a column of any call. It takes no memory.
    pub fn new(alloc: Global) -> StateColumn
        ensures trees { trees_in result ≡ [] }
        ensures shape { (call : Ready) → IsColumnOf call result }
    {
        StateColumn {
            states: Vec::new(alloc),
        }
    }

    /// How many groups there are.
    pub fn len(&self) -> usize
        ensures { result ≡ length (trees_in self.now) }
    {
        self.states.len()
    }

    /// Adds states of no rows, this many, behind the others.
    ///
    /// # Errors
    ///
    /// [`OutOfMemory`] where there is no room; the states are then of unknown content.
    pub fn widen(
        &mut self,
        alloc: Global,
        call: &ReadyCall,
        count: usize,
    ) -> Result<(), OutOfMemory>
        requires { IsColumnOf call.now self.old }
        ensures shape { OnOk result (IsColumnOf call.now self.new) }
        ensures trees { OnOk result (trees_in self.new ≡ trees_in self.old ++ replicate count (blank_in call.now)) }
    {
        add_fresh(call, alloc, &mut self.states, count)
    }

    /// Feeds each row from `from` on and below `to` to the state at its place. `arguments` are the numbers of the call's
    /// columns among these.
    ///
    /// # Errors
    ///
    /// [`OutOfMemory`] where there is no room; the states are then of unknown content.
    pub fn feed(
        &mut self,
        alloc: Global,
        call: &ReadyCall,
        places: &[u32],
        columns: &[Column],
        arguments: &[u32],
        from: usize,
        to: usize,
    ) -> Result<(), OutOfMemory>
        requires shape { IsColumnOf call.now self.old }
        requires places { All (λ p. p < length (trees_in self.old)) places.now }
        requires order { from ≤ to }
        requires count { length places.now ≡ to - from }
        requires few { length arguments.now ≤ 64 }
        requires columns { All (λ a. a < length columns.now) arguments.now }
        requires within { All (λ c. to ≤ length c.values) columns.now }
        ensures shape { OnOk result (IsColumnOf call.now self.new) }
        ensures rows { OnOk result (TakeAt call.now places.now (argument_rows columns.now arguments.now from (to - from)) (trees_in self.old) (trees_in self.new)) }
    {
        feed_places(
            call,
            alloc,
            &mut self.states,
            places,
            columns,
            arguments,
            from,
            to,
        )
    }

    /// Joins each state of a later column behind the state at its place.
    ///
    /// # Errors
    ///
    /// [`OutOfMemory`] where there is no room; the states are then of unknown content.
    pub fn merge(
        &mut self,
        alloc: Global,
        call: &ReadyCall,
        later: &StateColumn,
        places: &[u32],
    ) -> Result<(), OutOfMemory>
        requires shape { IsColumnOf call.now self.old }
        requires later { IsColumnOf call.now later.now }
        requires places { All (λ p. p < length (trees_in self.old)) places.now }
        requires count { length places.now ≡ length (trees_in later.now) }
        ensures shape { OnOk result (IsColumnOf call.now self.new) }
        ensures rows { OnOk result (JoinAt call.now places.now (trees_in later.now) (trees_in self.old) (trees_in self.new)) }
    {
        merge_states(alloc, call, &mut self.states, &later.states, places)
    }

    /// Joins the state with this tree behind the state at a place.
    ///
    /// # Errors
    ///
    /// [`OutOfMemory`] where there is no room; the states are then of unknown content.
    pub fn add_tree(
        &mut self,
        alloc: Global,
        call: &ReadyCall,
        place: u32,
        tree: &Tree,
    ) -> Result<(), OutOfMemory>
        requires shape { IsColumnOf call.now self.old }
        requires place { place < length (trees_in self.old) }
        requires tree { IsTree (chain_in call.now) (types_in call.now) (tree_of tree.now) }
        ensures shape { OnOk result (IsColumnOf call.now self.new) }
        ensures rows { OnOk result (JoinAt call.now (place ∷ []) (tree_of tree.now ∷ []) (trees_in self.old) (trees_in self.new)) }
    {
        let later = State::from_tree(alloc, call, tree)?;
        self.states[place as usize].merge(alloc, call, &later)
    }

    /// The tree of the state at a place.
    ///
    /// # Errors
    ///
    /// [`OutOfMemory`] where there is no room for it.
    pub fn tree(&self, alloc: Global, place: usize) -> Result<Tree, OutOfMemory>
        requires { place < length (trees_in self.now) }
        ensures { IfOk result (λ tree. tree_of tree ≡ get_or (trees_in self.now) place Empty) }
    {
        self.states[place].tree(alloc)
    }

    /// The value of the state at a place: what its rows mean to the call.
    ///
    /// # Errors
    ///
    /// [`OutOfMemory`] where there is no room for it.
    pub fn value(&self, alloc: Global, call: &ReadyCall, place: usize) -> Result<Value, OutOfMemory>
        requires shape { IsColumnOf call.now self.now }
        requires place { place < length (trees_in self.now) }
        ensures { IfOk result (λ value. MeansChain (chain_in call.now) (types_in call.now) (get_or (trees_in self.now) place Empty) (value_of value)) }
    {
        self.states[place].finish(alloc, call)
    }

    /// A column of equal states.
    ///
    /// # Errors
    ///
    /// [`OutOfMemory`] where there is no room for it.
    pub fn copy(&self, alloc: Global, call: &ReadyCall) -> Result<StateColumn, OutOfMemory>
        requires { IsColumnOf call.now self.now }
        ensures shape { IfOk result (λ column. IsColumnOf call.now column) }
        ensures trees { IfOk result (λ column. trees_in column ≡ trees_in self.now) }
    {
        let states = copy_states(alloc, call, &self.states)?;
        Ok(StateColumn { states })
    }
}

/// Joins each later state behind the state at its place.
fn merge_states(
    alloc: Global,
    call: &ReadyCall,
    states: &mut Vec<State>,
    later: &[State],
    places: &[u32],
) -> Result<(), OutOfMemory>
    requires shape { Each (IsStateOf call.now) states.old.items }
    requires later { Each (IsStateOf call.now) later.now }
    requires places { All (λ p. p < length states.old.items) places.now }
    requires count { length places.now ≡ length later.now }
    ensures shape { OnOk result (Each (IsStateOf call.now) states.new.items) }
    ensures rows { OnOk result (JoinAt call.now places.now (map tree_in later.now) (map tree_in states.old.items) (map tree_in states.new.items)) }
{
    for i in 0..places.len() {
        states[places[i] as usize].merge(alloc, call, &later[i])?;
    }
    Ok(())
}

/// States of the same rows.
fn copy_states(alloc: Global, call: &ReadyCall, states: &[State]) -> Result<Vec<State>, OutOfMemory>
    requires { Each (IsStateOf call.now) states.now }
    ensures shape { IfOk result (λ copied. Each (IsStateOf call.now) copied.items) }
    ensures trees { IfOk result (λ copied. map tree_in copied.items ≡ map tree_in states.now) }
{
    let mut copied = Vec::with_capacity(alloc, states.len())?;
    for i in 0..states.len() {
        copied.push(states[i].copy(alloc, call)?)?;
    }
    Ok(copied)
}
