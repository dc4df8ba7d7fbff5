//! What a set of tuples keeps of one: a number, the bytes of a text, or its values.
ghost use Rattle.std.specs.Prelude.{◌≡◌, List, [], ◌∷◌, map, IfOk};
ghost use Rattle.agg_terms.specs.Order.{compare_rows};
ghost use Rattle.agg_terms.specs.Values as family;
ghost use Rattle.value_types.specs.Folds.{value_of};
ghost use Rattle.set_leaves.specs.Tuples.{number_tuple, text_tuple};
ghost use Rattle.set_leaves.specs.proving.Orders.{number_ranks, text_ranks};

use std::alloc::Global;
use std::hash::Hash;
use value_types::{OutOfMemory, Seq, Value};

/// What a set keeps of a tuple.
pub trait Key: Ord + Hash + Drop {
    // The tuple that it is kept of.
    ghost tuple: { Self → List family.Value };

    /// What is kept of the same tuple.
    ///
    /// # Errors
    ///
    /// [`OutOfMemory`] where there is no room for it.
    fn copy(&self, alloc: Global) -> Result<Self, OutOfMemory>
        ensures { IfOk result (λ key. tuple key ≡ tuple self.now) };

    /// The tuple's values.
    ///
    /// # Errors
    ///
    /// [`OutOfMemory`] where there is no room for them.
    fn values(&self, alloc: Global) -> Result<Seq<Value>, OutOfMemory>
        ensures { IfOk result (λ values. map value_of values ≡ tuple self.now) };

    // Keys stand to one another as their tuples do.
    ghost ranks: { (a b : Self) → Self.cmp a b ≡ compare_rows (tuple a) (tuple b) };
}

/// A list of one value.
fn alone(alloc: Global, value: Value) -> Result<Seq<Value>, OutOfMemory>
    ensures { IfOk result (λ values. map value_of values ≡ value_of value ∷ []) }
{
    let mut values = Seq::new(alloc);
    values.push(value)?;
    Ok(values)
}

impl Key for i128 {
    ghost tuple = { number_tuple };

    ghost ranks = { number_ranks };

    fn copy(&self, _alloc: Global) -> Result<i128, OutOfMemory> {
        Ok(*self)
    }

    #[tactic(auto, using(value_types::proofs::FoldLaws::value_laws))]
    fn values(&self, alloc: Global) -> Result<Seq<Value>, OutOfMemory> {
        alone(alloc, Value::Num(*self))
    }
}

impl Key for Vec<u8> {
    ghost tuple = { λ text. text_tuple text.items };

    ghost ranks = { λ a b. text_ranks a.items b.items };

    fn copy(&self, alloc: Global) -> Result<Vec<u8>, OutOfMemory> {
        Ok(Vec::from_slice(alloc, self.as_slice())?)
    }

    #[tactic(auto, using(value_types::proofs::FoldLaws::value_laws))]
    fn values(&self, alloc: Global) -> Result<Seq<Value>, OutOfMemory> {
        alone(
            alloc,
            Value::Bytes(Seq::from_slice(alloc, self.as_slice())?),
        )
    }
}
