//! The values of a second column behind those of the first, store by store: no value is made on the way.
ghost use Rattle.std.specs.Prelude.{◌≡◌, ◌++◌, length, OnErr, OnOk};
ghost use Rattle.std.specs.List.{zip};
ghost use Rattle.column_parts.specs.Cuts.{cuts, IsCut};
ghost use Rattle.typed_columns.specs.Growth.{with_values};
ghost use Rattle.typed_columns.specs.Masks.{masked};

use crate::Column;
use crate::column::Kind;
use crate::growth::push_tree;
use column_parts::append_places;
use std::alloc::Global;
use value_types::{OutOfMemory, Tree};

impl Column {
    /// Adds copies of the values of a second column of the same type, all or none.
    ///
    /// # Errors
    ///
    /// [`OutOfMemory`] where there is no room; the column is as before.
    #[cycle(append)]
    pub fn append(&mut self, alloc: Global, other: &Column) -> Result<(), OutOfMemory>
        requires { self.old.ty ≡ other.now.ty }
        ensures ok { OnOk result (self.new ≡ with_values self.old other.now.values) }
        ensures err { OnErr result (self.new ≡ self.old) }
    {
        match &mut self.kind {
            Kind::Numbers(numbers) => match &other.kind {
                Kind::Numbers(more) => return numbers.append(more),
                _ => unreachable!(),
            },
            Kind::Texts(texts) => match &other.kind {
                Kind::Texts(more) => return texts.append(more),
                _ => unreachable!(),
            },
            Kind::Nullable(mask, values) => match &other.kind {
                Kind::Nullable(marks, more) => {
                    return append_nullable(mask, values, alloc, marks, more);
                }
                _ => unreachable!(),
            },
            Kind::Lists(starts, elements) => match &other.kind {
                Kind::Lists(places, more) => {
                    return append_lists(starts, elements, alloc, places, more);
                }
                _ => unreachable!(),
            },
            Kind::Maps(starts, keys, values) => match &other.kind {
                Kind::Maps(places, more_keys, more) => {
                    return append_maps(starts, keys, values, alloc, places, more_keys, more);
                }
                _ => unreachable!(),
            },
            Kind::Cells(_, _, trees) => match &other.kind {
                Kind::Cells(_, _, more) => return append_trees(trees, alloc, more),
                _ => unreachable!(),
            },
        }
    }
}

#[cycle(append)]
fn append_nullable(
    mask: &mut Vec<bool>,
    values: &mut Column,
    alloc: Global,
    marks: &[bool],
    more: &Column,
) -> Result<(), OutOfMemory>
    requires ty { values.old.ty ≡ more.now.ty }
    requires alike { length mask.old.items ≡ length values.old.values }
    requires more_alike { length marks.now ≡ length more.now.values }
    ensures alike { length mask.new.items ≡ length values.new.values }
    ensures ok { OnOk result (masked mask.new.items values.new.values ≡ masked mask.old.items values.old.values ++ masked marks.now more.now.values) }
    ensures err { OnErr result (masked mask.new.items values.new.values ≡ masked mask.old.items values.old.values) }
    ensures ty { values.new.ty ≡ values.old.ty }
{
    mask.reserve(marks.len())?;
    values.append(alloc, more)?;
    mask.extend_from_slice(marks)?;
    Ok(())
}

#[cycle(append)]
fn append_lists(
    starts: &mut Vec<usize>,
    elements: &mut Column,
    alloc: Global,
    places: &[usize],
    more: &Column,
) -> Result<(), OutOfMemory>
    requires ty { elements.old.ty ≡ more.now.ty }
    requires cut { IsCut starts.old.items (length elements.old.values) }
    requires more_cut { IsCut places.now (length more.now.values) }
    ensures cut { IsCut starts.new.items (length elements.new.values) }
    ensures ok { OnOk result (cuts starts.new.items elements.new.values ≡ cuts starts.old.items elements.old.values ++ cuts places.now more.now.values) }
    ensures err { OnErr result (cuts starts.new.items elements.new.values ≡ cuts starts.old.items elements.old.values) }
    ensures ty { elements.new.ty ≡ elements.old.ty }
{
    let base = elements.len();
    elements.append(alloc, more)?;
    let added = elements.len() - base;
    match append_places(starts, base, places, added) {
        Ok(()) => Ok(()),
        Err(error) => {
            elements.truncate(base);
            Err(error)
        }
    }
}

#[cycle(append)]
fn append_maps(
    starts: &mut Vec<usize>,
    keys: &mut Column,
    values: &mut Column,
    alloc: Global,
    places: &[usize],
    more_keys: &Column,
    more: &Column,
) -> Result<(), OutOfMemory>
    requires key_ty { keys.old.ty ≡ more_keys.now.ty }
    requires ty { values.old.ty ≡ more.now.ty }
    requires cut { IsCut starts.old.items (length keys.old.values) }
    requires alike { length keys.old.values ≡ length values.old.values }
    requires more_cut { IsCut places.now (length more_keys.now.values) }
    requires more_alike { length more_keys.now.values ≡ length more.now.values }
    ensures cut { IsCut starts.new.items (length keys.new.values) }
    ensures alike { length keys.new.values ≡ length values.new.values }
    ensures ok { OnOk result (cuts starts.new.items (zip keys.new.values values.new.values)
        ≡ cuts starts.old.items (zip keys.old.values values.old.values) ++ cuts places.now (zip more_keys.now.values more.now.values)) }
    ensures err { OnErr result (cuts starts.new.items (zip keys.new.values values.new.values)
        ≡ cuts starts.old.items (zip keys.old.values values.old.values)) }
    ensures key_ty { keys.new.ty ≡ keys.old.ty }
    ensures ty { values.new.ty ≡ values.old.ty }
{
    let base = keys.len();
    append_entries(keys, values, alloc, more_keys, more)?;
    let added = keys.len() - base;
    match append_places(starts, base, places, added) {
        Ok(()) => Ok(()),
        Err(error) => {
            keys.truncate(base);
            values.truncate(base);
            Err(error)
        }
    }
}

#[cycle(append)]
fn append_entries(
    keys: &mut Column,
    values: &mut Column,
    alloc: Global,
    more_keys: &Column,
    more: &Column,
) -> Result<(), OutOfMemory>
    requires key_ty { keys.old.ty ≡ more_keys.now.ty }
    requires ty { values.old.ty ≡ more.now.ty }
    ensures keys { OnOk result (keys.new ≡ with_values keys.old more_keys.now.values) }
    ensures values { OnOk result (values.new ≡ with_values values.old more.now.values) }
    ensures no_keys { OnErr result (keys.new ≡ keys.old) }
    ensures no_values { OnErr result (values.new ≡ values.old) }
{
    let count = keys.len();
    keys.append(alloc, more_keys)?;
    if let Err(error) = values.append(alloc, more) {
        keys.truncate(count);
        return Err(error);
    }
    Ok(())
}

fn append_trees(trees: &mut Vec<Tree>, alloc: Global, more: &[Tree]) -> Result<(), OutOfMemory>
    ensures ok { OnOk result (trees.new.items ≡ trees.old.items ++ more.now) }
    ensures err { OnErr result (trees.new.items ≡ trees.old.items) }
{
    let before = trees.len();
    trees.reserve(more.len())?;
    for i in 0..more.len() {
        if let Err(error) = push_tree(trees, alloc, &more[i]) {
            trees.truncate(before);
            return Err(error);
        }
    }
    Ok(())
}
