//! Numbers, texts and NULL added without a value around them, for loops over many fields.
ghost use Rattle.std.specs.Prelude.{◌≡◌, ◌∷◌, ◌++◌, [], length, OnErr, OnOk};
ghost use Rattle.typed_columns.specs.Growth.{Fits, with_value};
ghost use Rattle.typed_columns.specs.Masks.{masked};
ghost use Rattle.value_types.specs.declared.ty.Ty.TheVariants as ty;
ghost use Rattle.value_types.specs.declared.value.Value.TheVariants as form;

use crate::Column;
use crate::column::Kind;
use std::alloc::Global;
use value_types::{OutOfMemory, Value};

impl Column {
    /// Adds a number of the column's type, which is one of numbers or Nullable of one.
    ///
    /// # Errors
    ///
    /// [`OutOfMemory`] where there is no room; the column is as before.
    #[tactic(auto, using(column_parts::proofs::Cuts::cut_laws))]
    pub fn push_number(&mut self, alloc: Global, number: i128) -> Result<(), OutOfMemory>
        requires { Fits self.old.ty (form.Num number) }
        ensures ok { OnOk result (self.new ≡ with_value self.old (form.Num number)) }
        ensures err { OnErr result (self.new ≡ self.old) }
    {
        if let Kind::Numbers(numbers) = &mut self.kind {
            return numbers.push(number);
        }
        let value = Value::Num(number);
        self.push(alloc, &value)
    }

    /// Adds a text to a column of the type String, or Nullable of it.
    ///
    /// # Errors
    ///
    /// [`OutOfMemory`] where there is no room; the column is as before.
    #[cycle(push_text)]
    #[tactic(auto, using(column_parts::proofs::Cuts::cut_laws, crate::proofs::Masks::mask_laws, crate::proofs::Entries::entry_laws))]
    pub fn push_text(&mut self, text: &[u8]) -> Result<(), OutOfMemory>
        requires { Fits self.old.ty (form.Bytes text.now) }
        ensures ok { OnOk result (self.new ≡ with_value self.old (form.Bytes text.now)) }
        ensures err { OnErr result (self.new ≡ self.old) }
    {
        match &mut self.kind {
            Kind::Texts(texts) => return texts.push(text),
            Kind::Nullable(mask, values) => return push_text_to(mask, values, text),
            _ => unreachable!(),
        }
    }

    /// Adds NULL to a column of a Nullable type.
    ///
    /// # Errors
    ///
    /// [`OutOfMemory`] where there is no room; the column is as before.
    pub fn push_null(&mut self, alloc: Global) -> Result<(), OutOfMemory>
        requires { Fits self.old.ty form.Nil }
        ensures ok { OnOk result (self.new ≡ with_value self.old form.Nil) }
        ensures err { OnErr result (self.new ≡ self.old) }
    {
        let none = Value::Nil;
        self.push(alloc, &none)
    }
}

#[cycle(push_text)]
fn push_text_to(mask: &mut Vec<bool>, values: &mut Column, text: &[u8]) -> Result<(), OutOfMemory>
    requires fits { Fits (ty.Nullable values.old.ty) (form.Bytes text.now) }
    requires alike { length mask.old.items ≡ length values.old.values }
    ensures alike { length mask.new.items ≡ length values.new.values }
    ensures ok { OnOk result (masked mask.new.items values.new.values ≡ masked mask.old.items values.old.values ++ form.Bytes text.now ∷ []) }
    ensures err { OnErr result (masked mask.new.items values.new.values ≡ masked mask.old.items values.old.values) }
    ensures ty { values.new.ty ≡ values.old.ty }
{
    mask.reserve(1)?;
    values.push_text(text)?;
    mask.push(false)?;
    Ok(())
}
