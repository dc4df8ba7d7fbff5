//! What a row is made of: items lent from columns, or values.
ghost use Rattle.std.specs.Prelude.{◌≡◌, IfOk, IfSome};
ghost use Rattle.agg_terms.specs.Values as family;
ghost use Rattle.agg_terms.specs.Values.{Bytes, Num};
ghost use Rattle.value_types.specs.Folds.{value_of};
ghost use Rattle.set_leaves.specs.Tuples.{argument};

use std::alloc::Global;
use typed_columns::Item;
use value_types::{OutOfMemory, Value};

/// An argument of a row.
pub trait Part {
    // The value that it is.
    ghost part: { Self → family.Value };

    /// The number that it is, if it is one.
    fn number(&self) -> Option<i128>
        ensures { IfSome result (λ n. part self.now ≡ Num n) };

    /// The bytes of the text that it is, if it is one.
    fn text(&self) -> Option<&[u8]>
        ensures { IfSome result (λ bytes. part self.now ≡ Bytes bytes.now) };

    /// The value, as one of its own.
    ///
    /// # Errors
    ///
    /// [`OutOfMemory`] where there is no room for it.
    fn own(&self, alloc: Global) -> Result<Value, OutOfMemory>
        ensures { IfOk result (λ value. value_of value ≡ part self.now) };
}

impl<'a> Part for Item<'a> {
    ghost part = { argument };

    #[inline]
    #[tactic(auto, using(value_types::proofs::FoldLaws::value_laws))]
    fn number(&self) -> Option<i128> {
        match self {
            Item::Num(number) => Some(*number),
            _ => None,
        }
    }

    #[inline]
    #[tactic(auto, using(value_types::proofs::FoldLaws::value_laws))]
    fn text(&self) -> Option<&[u8]> {
        match self {
            Item::Bytes(bytes) => Some(bytes),
            _ => None,
        }
    }

    fn own(&self, alloc: Global) -> Result<Value, OutOfMemory> {
        self.to_value(alloc)
    }
}

impl Part for Value {
    ghost part = { value_of };

    #[tactic(auto, using(value_types::proofs::FoldLaws::value_laws))]
    fn number(&self) -> Option<i128> {
        match self {
            Value::Num(number) => Some(*number),
            _ => None,
        }
    }

    #[tactic(auto, using(value_types::proofs::FoldLaws::value_laws))]
    fn text(&self) -> Option<&[u8]> {
        match self {
            Value::Bytes(bytes) => Some(bytes.as_slice()),
            _ => None,
        }
    }

    fn own(&self, alloc: Global) -> Result<Value, OutOfMemory> {
        self.copy(alloc)
    }
}
