//! Values of their own, equal to what a column lends.
ghost use Rattle.std.specs.Prelude.{◌≡◌, IfOk};
ghost use Rattle.typed_columns.specs.Items.{item_value, span_values, pair_span_values};

use crate::{Item, PairSpan, Span};
use std::alloc::Global;
use value_types::{OutOfMemory, Seq, Value};

impl<'a> Item<'a> {
    /// The value that stands there, as one of its own.
    ///
    /// # Errors
    ///
    /// [`OutOfMemory`] where there is no room for it.
    #[cycle(own)]
    #[tactic(auto, using(crate::proofs::ValueHeights::height_laws))]
    pub fn to_value(&self, alloc: Global) -> Result<Value, OutOfMemory>
        ensures { IfOk result (λ value. value ≡ item_value self.now) }
    {
        match self {
            Item::Num(number) => Ok(Value::Num(*number)),
            Item::Bytes(bytes) => Ok(Value::Bytes(Seq::from_slice(alloc, bytes)?)),
            Item::Nil => Ok(Value::Nil),
            Item::List(elements) => Ok(Value::List(elements.to_values(alloc)?)),
            Item::Pairs(entries) => Ok(Value::Pairs(entries.to_pairs(alloc)?)),
            Item::Cell(tree) => Ok(Value::Cell(tree.copy(alloc)?)),
        }
    }
}

impl<'a> Span<'a> {
    #[cycle(own)]
    #[tactic(auto, using(crate::proofs::ValueHeights::height_laws))]
    fn to_values(&self, alloc: Global) -> Result<Seq<Value>, OutOfMemory>
        ensures { IfOk result (λ values. values ≡ span_values self.now) }
    {
        let mut values = Seq::new(alloc);
        values.reserve(self.len())?;
        for place in 0..self.len() {
            let element = self.at(place);
            values.push(element.to_value(alloc)?)?;
        }
        Ok(values)
    }
}

impl<'a> PairSpan<'a> {
    #[cycle(own)]
    #[tactic(auto, using(crate::proofs::ValueHeights::height_laws))]
    fn to_pairs(&self, alloc: Global) -> Result<Seq<(Value, Value)>, OutOfMemory>
        ensures { IfOk result (λ pairs. pairs ≡ pair_span_values self.now) }
    {
        let mut pairs = Seq::new(alloc);
        pairs.reserve(self.len())?;
        for place in 0..self.len() {
            let key = self.key(place);
            let value = self.value(place);
            let owned_key = key.to_value(alloc)?;
            pairs.push((owned_key, value.to_value(alloc)?))?;
        }
        Ok(pairs)
    }
}
