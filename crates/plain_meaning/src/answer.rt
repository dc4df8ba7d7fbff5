//! What is found out of a chain over rows.
ghost use Rattle.std.specs.Prelude.{◌≡◌, [], ◌∷◌, ◌++◌, ◌||◌, false, IfOk, map};
ghost use Rattle.agg_terms.specs.Values.{list_value, map_value, keyed_tree, slots_tree};
ghost use Rattle.value_types.specs.Folds.{entry_of, tree_of, value_of};
ghost use Rattle.plain_meaning.specs.proving.Images.{image_of};

use agg_values::{KeyedTree, OutOfMemory, Seq, Tree, Value};
use std::alloc::Global;

/// What a chain means over rows, whether a row reached its function, and the state of the rows.
#[derive(Drop)]
pub struct Answer {
    pub value: Value,
    pub is_fed: bool,
    pub state: Tree,
}

/// The answers over several lists of rows, in their order: whether any of them was fed.
#[derive(Drop)]
pub struct Gathered {
    pub values: Seq<Value>,
    pub is_fed: bool,
    pub states: Seq<Tree>,
}

impl Gathered {
    /// No answers.
    pub fn new(alloc: Global) -> Gathered
        ensures values { result.values ≡ [] }
        ensures is_fed { result.is_fed ≡ false }
        ensures states { result.states ≡ [] }
    {
        Gathered {
            values: Seq::new(alloc),
            is_fed: false,
            states: Seq::new(alloc),
        }
    }

    /// These answers and one more.
    ///
    /// # Errors
    ///
    /// [`OutOfMemory`] where there is no room for it.
    pub fn add(self, answer: Answer) -> Result<Gathered, OutOfMemory>
        ensures values { IfOk result (λ g. g.values ≡ self.values ++ answer.value ∷ []) }
        ensures is_fed { IfOk result (λ g. g.is_fed ≡ (self.is_fed || answer.is_fed)) }
        ensures states { IfOk result (λ g. g.states ≡ self.states ++ answer.state ∷ []) }
    {
        let Gathered {
            mut values,
            is_fed,
            mut states,
        } = self;
        let Answer {
            value,
            is_fed: is_answer_fed,
            state,
        } = answer;
        values.push(value)?;
        states.push(state)?;
        Ok(Gathered {
            values,
            is_fed: is_fed || is_answer_fed,
            states,
        })
    }

    /// The answers as the answer of a link with a place for each.
    pub fn listed(self) -> Answer
        ensures value { value_of result.value ≡ list_value (map value_of self.values) }
        ensures is_fed { result.is_fed ≡ self.is_fed }
        ensures state { tree_of result.state ≡ slots_tree (map tree_of self.states) }
    {
        let Gathered {
            values,
            is_fed,
            states,
        } = self;
        Answer {
            value: Value::List(values),
            is_fed,
            state: Tree::Slots(states),
        }
    }
}

/// The answers at several keys, in their order: whether any of them was fed.
#[derive(Drop)]
pub struct Keyed {
    pub pairs: Seq<(Value, Value)>,
    pub is_fed: bool,
    pub entries: Seq<KeyedTree>,
}

impl Keyed {
    /// No answers.
    pub fn new(alloc: Global) -> Keyed
        ensures pairs { result.pairs ≡ [] }
        ensures is_fed { result.is_fed ≡ false }
        ensures entries { result.entries ≡ [] }
    {
        Keyed {
            pairs: Seq::new(alloc),
            is_fed: false,
            entries: Seq::new(alloc),
        }
    }

    /// These answers and one more, at a key.
    ///
    /// # Errors
    ///
    /// [`OutOfMemory`] where there is no room for it.
    pub fn add(self, alloc: Global, key: &Value, answer: Answer) -> Result<Keyed, OutOfMemory>
        ensures pairs { IfOk result (λ k. map image_of k.pairs ≡ map image_of self.pairs ++ (value_of key.now, value_of answer.value) ∷ []) }
        ensures is_fed { IfOk result (λ k. k.is_fed ≡ (self.is_fed || answer.is_fed)) }
        ensures entries { IfOk result (λ k. map entry_of k.entries ≡ map entry_of self.entries ++ (value_of key.now, tree_of answer.state) ∷ []) }
    {
        let Keyed {
            mut pairs,
            is_fed,
            mut entries,
        } = self;
        let Answer {
            value,
            is_fed: is_answer_fed,
            state,
        } = answer;
        pairs.push((key.copy(alloc)?, value))?;
        entries.push(KeyedTree {
            key: key.copy(alloc)?,
            tree: state,
        })?;
        Ok(Keyed {
            pairs,
            is_fed: is_fed || is_answer_fed,
            entries,
        })
    }

    /// The answers as the answer of a link with a key for each.
    pub fn mapped(self) -> Answer
        ensures value { value_of result.value ≡ map_value (map image_of self.pairs) }
        ensures is_fed { result.is_fed ≡ self.is_fed }
        ensures state { tree_of result.state ≡ keyed_tree (map entry_of self.entries) }
    {
        let Keyed {
            pairs,
            is_fed,
            entries,
        } = self;
        Answer {
            value: Value::Pairs(pairs),
            is_fed,
            state: Tree::Keyed(entries),
        }
    }
}
