//! Values in order: as long as all are numbers, they take no place of their own.
ghost use Rattle.std.specs.Prelude.{◌≡◌, ◌≤◌, ◌++◌, [], ◌∷◌, length, map, take, IfOk, OnErr, OnOk};
ghost use Rattle.typed_columns.specs.Items.{item_value};
ghost use Rattle.value_types.specs.declared.value.Value.TheVariants as form;
ghost use Rattle.list_leaves.specs.Kept.{kept_values};

use crate::number_values::values_of;
use std::alloc::Global;
use typed_columns::Item;
use value_types::{OutOfMemory, Seq, Value, copy_values};

/// A list of values: of numbers alone, or of any.
#[derive(Drop)]
pub enum Kept {
    Numbers(Seq<i128>),
    Values(Seq<Value>),
}

impl Kept {
    /// No values. Takes no memory.
    pub fn new(alloc: Global) -> Kept
        ensures { kept_values result ≡ [] }
    {
        Kept::Numbers(Seq::new(alloc))
    }

    /// These values.
    ///
    /// # Errors
    ///
    /// [`OutOfMemory`] where there is no room for them.
    pub fn from_values(alloc: Global, values: &[Value]) -> Result<Kept, OutOfMemory>
        ensures { IfOk result (λ kept. kept_values kept ≡ values.now) }
    {
        let mut kept = Kept::new(alloc);
        for value in values {
            kept.push_copy(alloc, value)?;
        }
        Ok(kept)
    }

    /// How many values there are.
    #[tactic(auto, using(crate::proofs::KeptLaws::kept_laws))]
    pub fn len(&self) -> usize
        ensures { result ≡ length (kept_values self.now) }
    {
        match self {
            Kept::Numbers(numbers) => numbers.len(),
            Kept::Values(values) => values.len(),
        }
    }

    /// Adds the value of an item at the end.
    ///
    /// # Errors
    ///
    /// [`OutOfMemory`] where there is no room; the list is as before.
    pub fn push(&mut self, alloc: Global, item: &Item<'_>) -> Result<(), OutOfMemory>
        ensures ok { OnOk result (kept_values self.new ≡ kept_values self.old ++ item_value item.now ∷ []) }
        ensures err { OnErr result (self.new ≡ self.old) }
    {
        match item {
            Item::Num(number) => return self.push_number(*number),
            _ => {
                let value = item.to_value(alloc)?;
                return self.push_value(alloc, value);
            }
        }
    }

    #[tactic(auto, using(crate::proofs::KeptLaws::kept_laws))]
    fn push_number(&mut self, number: i128) -> Result<(), OutOfMemory>
        ensures ok { OnOk result (kept_values self.new ≡ kept_values self.old ++ form.Num number ∷ []) }
        ensures err { OnErr result (self.new ≡ self.old) }
    {
        match self {
            Kept::Numbers(numbers) => return numbers.push(number),
            Kept::Values(values) => return values.push(Value::Num(number)),
        }
    }

    fn push_copy(&mut self, alloc: Global, value: &Value) -> Result<(), OutOfMemory>
        ensures ok { OnOk result (kept_values self.new ≡ kept_values self.old ++ value.now ∷ []) }
        ensures err { OnErr result (self.new ≡ self.old) }
    {
        match value {
            Value::Num(number) => return self.push_number(*number),
            _ => {
                let copied = value.copy(alloc)?;
                return self.push_value(alloc, copied);
            }
        }
    }

    fn push_value(&mut self, alloc: Global, value: Value) -> Result<(), OutOfMemory>
        ensures ok { OnOk result (kept_values self.new ≡ kept_values self.old ++ value ∷ []) }
        ensures err { OnErr result (self.new ≡ self.old) }
    {
        if let Kept::Values(values) = self {
            return values.push(value);
        }
        let mut values = self.to_values(alloc)?;
        values.push(value)?;
        *self = Kept::Values(values);
        Ok(())
    }

    /// Adds the first `count` values of a later list at the end.
    ///
    /// # Errors
    ///
    /// [`OutOfMemory`] where there is no room; the list is as before.
    #[tactic(auto, using(crate::proofs::KeptLaws::kept_laws))]
    pub fn extend(&mut self, alloc: Global, later: &Kept, count: usize) -> Result<(), OutOfMemory>
        requires { count ≤ length (kept_values later.now) }
        ensures ok { OnOk result (kept_values self.new ≡ kept_values self.old ++ take count (kept_values later.now)) }
        ensures err { OnErr result (self.new ≡ self.old) }
    {
        match later {
            Kept::Numbers(more) => return self.extend_numbers(&more.as_slice()[..count]),
            Kept::Values(more) => return self.extend_values(alloc, &more.as_slice()[..count]),
        }
    }

    #[tactic(auto, using(crate::proofs::KeptLaws::kept_laws))]
    fn extend_numbers(&mut self, more: &[i128]) -> Result<(), OutOfMemory>
        ensures ok { OnOk result (kept_values self.new ≡ kept_values self.old ++ map form.Num more.now) }
        ensures err { OnErr result (self.new ≡ self.old) }
    {
        match self {
            Kept::Numbers(numbers) => return numbers.extend_from_slice(more),
            Kept::Values(values) => return push_numbers(values, more),
        }
    }

    fn extend_values(&mut self, alloc: Global, more: &[Value]) -> Result<(), OutOfMemory>
        ensures ok { OnOk result (kept_values self.new ≡ kept_values self.old ++ more.now) }
        ensures err { OnErr result (self.new ≡ self.old) }
    {
        if let Kept::Values(values) = self {
            return push_copies(values, alloc, more);
        }
        let mut values = self.to_values(alloc)?;
        push_copies(&mut values, alloc, more)?;
        *self = Kept::Values(values);
        Ok(())
    }

    /// Copies of the values.
    ///
    /// # Errors
    ///
    /// [`OutOfMemory`] where there is no room for them.
    pub fn to_values(&self, alloc: Global) -> Result<Seq<Value>, OutOfMemory>
        ensures { IfOk result (λ values. values ≡ kept_values self.now) }
    {
        match self {
            Kept::Numbers(numbers) => values_of(alloc, numbers.as_slice()),
            Kept::Values(values) => copy_values(alloc, values.as_slice()),
        }
    }

    /// An equal list.
    ///
    /// # Errors
    ///
    /// [`OutOfMemory`] where there is no room for it.
    pub fn copy(&self, alloc: Global) -> Result<Kept, OutOfMemory>
        ensures { IfOk result (λ copied. copied ≡ self.now) }
    {
        match self {
            Kept::Numbers(numbers) => {
                let numbers = Seq::from_slice(alloc, numbers.as_slice())?;
                Ok(Kept::Numbers(numbers))
            }
            Kept::Values(values) => {
                let values = copy_values(alloc, values.as_slice())?;
                Ok(Kept::Values(values))
            }
        }
    }
}

/// Adds these numbers, all or none.
fn push_numbers(values: &mut Seq<Value>, more: &[i128]) -> Result<(), OutOfMemory>
    ensures ok { OnOk result (values.new ≡ values.old ++ map form.Num more.now) }
    ensures err { OnErr result (values.new ≡ values.old) }
{
    let before = values.len();
    for i in 0..more.len() {
        if let Err(error) = values.push(Value::Num(more[i])) {
            values.truncate(before);
            return Err(error);
        }
    }
    Ok(())
}

/// Adds copies of these values, all or none.
fn push_copies(values: &mut Seq<Value>, alloc: Global, more: &[Value]) -> Result<(), OutOfMemory>
    ensures ok { OnOk result (values.new ≡ values.old ++ more.now) }
    ensures err { OnErr result (values.new ≡ values.old) }
{
    let before = values.len();
    for i in 0..more.len() {
        if let Err(error) = push_copy(values, alloc, &more[i]) {
            values.truncate(before);
            return Err(error);
        }
    }
    Ok(())
}

fn push_copy(values: &mut Seq<Value>, alloc: Global, value: &Value) -> Result<(), OutOfMemory>
    ensures ok { OnOk result (values.new ≡ values.old ++ value.now ∷ []) }
    ensures err { OnErr result (values.new ≡ values.old) }
{
    let copied = value.copy(alloc)?;
    values.push(copied)
}
