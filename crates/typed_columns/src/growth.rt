//! Columns with more values. Each call adds all that it is given, or takes back what it had added.
ghost use Rattle.std.specs.Prelude.{◌≡◌, ◌∷◌, ◌++◌, [], length, map, OnErr, OnOk};
ghost use Rattle.std.specs.List.{zip};
ghost use Rattle.column_parts.specs.Cuts.{cuts, IsCut};
ghost use Rattle.typed_columns.specs.Growth.{AllFit, EntriesFit, Fits, KeysFit, with_value, with_values};
ghost use Rattle.typed_columns.specs.Masks.{masked};
ghost use Rattle.value_types.specs.declared.ty.Ty.TheVariants as ty;

use crate::Column;
use crate::column::Kind;
use crate::growth_blank::push_null_to;
use crate::growth_parts::{elements_in, entries_in, is_null, number_in, text_in, tree_in};
use std::alloc::Global;
use value_types::{OutOfMemory, Tree, Value};

impl Column {
    /// Adds a value of the column's type, as `agg_values::fits` tells it.
    ///
    /// # Errors
    ///
    /// [`OutOfMemory`] where there is no room; the column is as before.
    #[cycle(push)]
    #[tactic(auto, using(column_parts::proofs::Cuts::cut_laws, crate::proofs::Masks::mask_laws, crate::proofs::Entries::entry_laws))]
    pub fn push(&mut self, alloc: Global, value: &Value) -> Result<(), OutOfMemory>
        requires { Fits self.old.ty value.now }
        ensures ok { OnOk result (self.new ≡ with_value self.old value.now) }
        ensures err { OnErr result (self.new ≡ self.old) }
    {
        match &mut self.kind {
            Kind::Numbers(numbers) => return numbers.push(number_in(value)),
            Kind::Texts(texts) => return texts.push(text_in(value)),
            Kind::Nullable(mask, values) => return push_nullable(mask, values, alloc, value),
            Kind::Lists(starts, elements) => return push_list(
                starts,
                elements,
                alloc,
                elements_in(value),
            ),
            Kind::Maps(starts, keys, values) => {
                return push_map(starts, keys, values, alloc, entries_in(value));
            }
            Kind::Cells(_, _, trees) => return push_tree(trees, alloc, tree_in(value)),
        }
    }

    /// Adds these values, all or none.
    ///
    /// # Errors
    ///
    /// [`OutOfMemory`] where there is no room; the column is as before.
    #[cycle(push)]
    pub fn push_all(&mut self, alloc: Global, values: &[Value]) -> Result<(), OutOfMemory>
        requires { AllFit self.old.ty values.now }
        ensures ok { OnOk result (self.new ≡ with_values self.old values.now) }
        ensures err { OnErr result (self.new ≡ self.old) }
    {
        let before = self.len();
        for i in 0..values.len() {
            if let Err(error) = self.push(alloc, &values[i]) {
                self.truncate(before);
                return Err(error);
            }
        }
        Ok(())
    }
}

#[cycle(push)]
fn push_nullable(
    mask: &mut Vec<bool>,
    values: &mut Column,
    alloc: Global,
    value: &Value,
) -> Result<(), OutOfMemory>
    requires fits { Fits (ty.Nullable values.old.ty) value.now }
    requires alike { length mask.old.items ≡ length values.old.values }
    ensures alike { length mask.new.items ≡ length values.new.values }
    ensures ok { OnOk result (masked mask.new.items values.new.values ≡ masked mask.old.items values.old.values ++ value.now ∷ []) }
    ensures err { OnErr result (masked mask.new.items values.new.values ≡ masked mask.old.items values.old.values) }
    ensures ty { values.new.ty ≡ values.old.ty }
{
    if is_null(value) {
        return push_null_to(mask, values);
    }
    mask.reserve(1)?;
    values.push(alloc, value)?;
    mask.push(false)?;
    Ok(())
}

#[cycle(push)]
fn push_list(
    starts: &mut Vec<usize>,
    elements: &mut Column,
    alloc: Global,
    more: &[Value],
) -> Result<(), OutOfMemory>
    requires fit { AllFit elements.old.ty more.now }
    requires cut { IsCut starts.old.items (length elements.old.values) }
    ensures cut { IsCut starts.new.items (length elements.new.values) }
    ensures ok { OnOk result (cuts starts.new.items elements.new.values ≡ cuts starts.old.items elements.old.values ++ more.now ∷ []) }
    ensures err { OnErr result (cuts starts.new.items elements.new.values ≡ cuts starts.old.items elements.old.values) }
    ensures ty { elements.new.ty ≡ elements.old.ty }
{
    starts.reserve(1)?;
    elements.push_all(alloc, more)?;
    starts.push(elements.len())?;
    Ok(())
}

#[cycle(push)]
fn push_map(
    starts: &mut Vec<usize>,
    keys: &mut Column,
    values: &mut Column,
    alloc: Global,
    more: &[(Value, Value)],
) -> Result<(), OutOfMemory>
    requires keys { KeysFit keys.old.ty more.now }
    requires values { EntriesFit values.old.ty more.now }
    requires cut { IsCut starts.old.items (length keys.old.values) }
    requires alike { length keys.old.values ≡ length values.old.values }
    ensures cut { IsCut starts.new.items (length keys.new.values) }
    ensures alike { length keys.new.values ≡ length values.new.values }
    ensures ok { OnOk result (cuts starts.new.items (zip keys.new.values values.new.values)
        ≡ cuts starts.old.items (zip keys.old.values values.old.values) ++ more.now ∷ []) }
    ensures err { OnErr result (cuts starts.new.items (zip keys.new.values values.new.values)
        ≡ cuts starts.old.items (zip keys.old.values values.old.values)) }
    ensures key_ty { keys.new.ty ≡ keys.old.ty }
    ensures ty { values.new.ty ≡ values.old.ty }
{
    starts.reserve(1)?;
    push_entries(keys, values, alloc, more)?;
    starts.push(keys.len())?;
    Ok(())
}

#[cycle(push)]
fn push_entries(
    keys: &mut Column,
    values: &mut Column,
    alloc: Global,
    more: &[(Value, Value)],
) -> Result<(), OutOfMemory>
    requires keys { KeysFit keys.old.ty more.now }
    requires values { EntriesFit values.old.ty more.now }
    ensures keys { OnOk result (keys.new ≡ with_values keys.old (map (λ e. e.0) more.now)) }
    ensures values { OnOk result (values.new ≡ with_values values.old (map (λ e. e.1) more.now)) }
    ensures no_keys { OnErr result (keys.new ≡ keys.old) }
    ensures no_values { OnErr result (values.new ≡ values.old) }
{
    let (key_count, value_count) = (keys.len(), values.len());
    for i in 0..more.len() {
        if let Err(error) = push_entry(keys, values, alloc, &more[i]) {
            keys.truncate(key_count);
            values.truncate(value_count);
            return Err(error);
        }
    }
    Ok(())
}

#[cycle(push)]
fn push_entry(
    keys: &mut Column,
    values: &mut Column,
    alloc: Global,
    entry: &(Value, Value),
) -> Result<(), OutOfMemory>
    requires key { Fits keys.old.ty entry.now.0 }
    requires value { Fits values.old.ty entry.now.1 }
    ensures key { OnOk result (keys.new ≡ with_value keys.old entry.now.0) }
    ensures value { OnOk result (values.new ≡ with_value values.old entry.now.1) }
    ensures no_key { OnErr result (keys.new ≡ keys.old) }
    ensures no_value { OnErr result (values.new ≡ values.old) }
{
    let count = keys.len();
    keys.push(alloc, &entry.0)?;
    if let Err(error) = values.push(alloc, &entry.1) {
        keys.truncate(count);
        return Err(error);
    }
    Ok(())
}

pub(crate) fn push_tree(
    trees: &mut Vec<Tree>,
    alloc: Global,
    tree: &Tree,
) -> Result<(), OutOfMemory>
    ensures ok { OnOk result (trees.new.items ≡ trees.old.items ++ tree.now ∷ []) }
    ensures err { OnErr result (trees.new.items ≡ trees.old.items) }
{
    trees.push(tree.copy(alloc)?)?;
    Ok(())
}
