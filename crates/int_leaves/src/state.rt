//! The state of a function of numbers: one word, so that a feed or a merge is one step on bits and takes no memory.
ghost use Rattle.std.specs.Prelude.{◌≡◌, [], IfOk, IsOk, Option, map, true};
ghost use Rattle.agg_terms.specs.Chains.{Of};
ghost use Rattle.agg_terms.specs.Trees.{IsTree};
ghost use Rattle.agg_meaning.specs.States.{IsFedBy, Means, Stands, TakesRow, TakesState, made_for};
ghost use Rattle.value_types.specs.Folds.{leaf_of, tree_of, ty_of, value_of};
ghost use Rattle.int_leaves.specs.Parts.{IsKept, Parts, held};
ghost use Rattle.int_leaves.specs.Rows.{argument};
ghost use Rattle.int_leaves.specs.Served.{is_served};

use crate::join::{both, word_number};
use crate::made::Made;
use crate::number::from_bits;
use crate::row::{row_word, word_in};
use crate::value::word_means;
use std::alloc::Global;
use std::marker::Model;
use typed_columns::{Args, Item};
use value_types::{Leaf, OutOfMemory, Tree, Ty, Value};

/// The running state of count, sum, min or max of numbers, groupBitAnd, groupBitOr, groupBitXor or retention.
///
/// Counts and sums are taken modulo 2^64 (this project's own choice). ClickHouse manual: "Aggregate functions
/// reference", a page for each of them, and "Parametric aggregate functions", retention.
#[derive(Drop)]
pub struct IntState {
    made: Made,
    word: Option<u64>,
}

impl Model for IntState {
    ghost Value = { Parts };

    ghost view = { λ a. record { made = a.made; word = a.word } };

    ghost invariant = { λ a. IsKept (record { made = a.made; word = a.word }) };
}

impl IntState {
    /// The state of no rows. Takes no memory.
    #[tactic(auto, using(crate::proofs::Serving::served, crate::proofs::Parts::fresh_stands))]
    pub fn fresh(leaf: &Leaf, args: &[Ty]) -> IntState
        requires { is_served (leaf_of leaf.now) (map ty_of args.now) ≡ true }
        ensures { Stands (leaf_of leaf.now) (map ty_of args.now) [] (held result) }
    {
        IntState {
            made: Made::new(leaf, args),
            word: None,
        }
    }

    /// Adds one live row: a row without NULL among its arguments, which have the types of the state. Takes no memory.
    #[inline]
    pub fn feed(&mut self, row: &Args<'_>)
        ensures row { TakesRow (held self.old) (map value_of row.now) (held self.new) }
        ensures made { (held self.new).made ≡ (held self.old).made }
    {
        self.feed_items(row.as_slice());
    }

    /// Adds one live row, given as its items: [`feed`](IntState::feed) over a slice. Takes no memory.
    #[inline]
    pub fn feed_items(&mut self, row: &[Item<'_>])
        ensures row { TakesRow (held self.old) (map argument row.now) (held self.new) }
        ensures made { (held self.new).made ≡ (held self.old).made }
    {
        let made = self.made;
        let word = row_word(made.function, made.number, made.arguments, row);
        self.word = both(made.function, made.number, self.word, Some(word));
    }

    /// Joins the rows of a later state, one of the same function and types, behind. Takes no memory.
    pub fn merge(&mut self, later: &IntState)
        requires same { (held self.old).made ≡ (held later.now).made }
        ensures rows { TakesState (held self.old) (held later.now) (held self.new) }
        ensures made { (held self.new).made ≡ (held self.old).made }
    {
        self.word = both(self.made.function, self.made.number, self.word, later.word);
    }

    /// The function's value: a number, NULL over no rows where an argument is Nullable, or retention's list.
    ///
    /// # Errors
    ///
    /// [`OutOfMemory`] where there is no room for it.
    pub fn finish(&self, alloc: Global) -> Result<Value, OutOfMemory>
        ensures { IfOk result (λ v. Means (held self.now) (value_of v)) }
    {
        word_means(alloc, self.made, self.word)
    }

    /// Whether a row reached the function.
    pub fn is_fed(&self) -> bool
        ensures { IsFedBy (held self.now) result }
    {
        self.word.is_some()
    }

    /// The state's tree.
    ///
    /// # Errors
    ///
    /// None here: a word takes no room.
    pub fn tree(&self, _alloc: Global) -> Result<Tree, OutOfMemory>
        ensures always { IsOk result }
        ensures tree { IfOk result (λ tree. tree_of tree ≡ (held self.now).tree) }
    {
        match self.word {
            None => Ok(Tree::Empty),
            Some(bits) => {
                let number = word_number(self.made.function, self.made.number);
                Ok(Tree::Word(from_bits(number, bits)))
            }
        }
    }

    /// An equal state.
    ///
    /// # Errors
    ///
    /// None here: a word takes no room.
    pub fn copy(&self, _alloc: Global) -> Result<IntState, OutOfMemory>
        ensures always { IsOk result }
        ensures copy { IfOk result (λ copied. copied ≡ self.now) }
    {
        Ok(IntState {
            made: self.made,
            word: self.word,
        })
    }

    /// The state with this tree, where it is a tree of the function over these types.
    ///
    /// # Errors
    ///
    /// None here: a word takes no room.
    #[tactic(auto, using(crate::proofs::Serving::served))]
    pub fn from_tree(
        _alloc: Global,
        leaf: &Leaf,
        args: &[Ty],
        tree: &Tree,
    ) -> Result<IntState, OutOfMemory>
        requires { is_served (leaf_of leaf.now) (map ty_of args.now) ≡ true }
        ensures always { IsOk result }
        ensures made { IfOk result (λ state. (held state).made ≡ made_for (leaf_of leaf.now) (map ty_of args.now)) }
        ensures tree { IfOk result (λ state. IsTree (Of (leaf_of leaf.now)) (map ty_of args.now) (tree_of tree.now) → (held state).tree ≡ tree_of tree.now) }
    {
        let made = Made::new(leaf, args);
        let number = word_number(made.function, made.number);
        Ok(IntState {
            made,
            word: word_in(number, tree),
        })
    }
}
