//! Columns with fewer values, or less room. Nothing here takes memory, so what was added can always be
//! taken back.
ghost use Rattle.std.specs.Prelude.{◌≡◌, ◌<◌, ◌≤◌, length, take};
ghost use Rattle.std.specs.List.{zip};
ghost use Rattle.column_parts.specs.Cuts.{cuts, IsCut};
ghost use Rattle.typed_columns.specs.Growth.{trim};
ghost use Rattle.typed_columns.specs.Masks.{masked};

use crate::Column;
use crate::column::Kind;

impl Column {
    /// Drops all values from place `count` on.
    #[cycle(truncate)]
    #[tactic(auto, using(column_parts::proofs::Cuts::cut_laws, crate::proofs::Masks::mask_laws, crate::proofs::Entries::entry_laws))]
    pub fn truncate(&mut self, count: usize)
        requires { count ≤ length self.old.values }
        ensures { self.new ≡ trim count self.old }
    {
        match &mut self.kind {
            Kind::Numbers(numbers) => {
                numbers.truncate(count);
                return;
            }
            Kind::Texts(texts) => {
                texts.truncate(count);
                return;
            }
            Kind::Nullable(mask, values) => {
                truncate_nullable(mask, values, count);
                return;
            }
            Kind::Lists(starts, elements) => {
                truncate_lists(starts, elements, count);
                return;
            }
            Kind::Maps(starts, keys, values) => {
                truncate_maps(starts, keys, values, count);
                return;
            }
            Kind::Cells(_, _, trees) => {
                trees.truncate(count);
                return;
            }
        }
    }
}

impl Column {
    /// Gives back the room that no value stands in.
    pub fn shrink_to_fit(&mut self)
        ensures { self.new ≡ self.old }
    {
        match &mut self.kind {
            Kind::Numbers(numbers) => {
                numbers.shrink_to_fit();
                return;
            }
            Kind::Texts(texts) => {
                texts.shrink_to_fit();
                return;
            }
            Kind::Nullable(mask, values) => {
                mask.shrink_to_fit();
                values.shrink_to_fit();
                return;
            }
            Kind::Lists(starts, elements) => {
                starts.shrink_to_fit();
                elements.shrink_to_fit();
                return;
            }
            Kind::Maps(starts, keys, values) => {
                starts.shrink_to_fit();
                keys.shrink_to_fit();
                values.shrink_to_fit();
                return;
            }
            Kind::Cells(_, _, trees) => {
                trees.shrink_to_fit();
                return;
            }
        }
    }
}

#[cycle(truncate)]
fn truncate_nullable(mask: &mut Vec<bool>, values: &mut Column, count: usize)
    requires alike { length mask.old.items ≡ length values.old.values }
    requires within { count ≤ length mask.old.items }
    ensures alike { length mask.new.items ≡ length values.new.values }
    ensures after { masked mask.new.items values.new.values ≡ take count (masked mask.old.items values.old.values) }
    ensures ty { values.new.ty ≡ values.old.ty }
{
    values.truncate(count);
    mask.truncate(count);
}

#[cycle(truncate)]
fn truncate_lists(starts: &mut Vec<usize>, elements: &mut Column, count: usize)
    requires cut { IsCut starts.old.items (length elements.old.values) }
    requires within { count < length starts.old.items }
    ensures cut { IsCut starts.new.items (length elements.new.values) }
    ensures after { cuts starts.new.items elements.new.values ≡ take count (cuts starts.old.items elements.old.values) }
    ensures ty { elements.new.ty ≡ elements.old.ty }
{
    elements.truncate(starts[count]);
    starts.truncate(count + 1);
}

#[cycle(truncate)]
fn truncate_maps(starts: &mut Vec<usize>, keys: &mut Column, values: &mut Column, count: usize)
    requires cut { IsCut starts.old.items (length keys.old.values) }
    requires alike { length keys.old.values ≡ length values.old.values }
    requires within { count < length starts.old.items }
    ensures cut { IsCut starts.new.items (length keys.new.values) }
    ensures alike { length keys.new.values ≡ length values.new.values }
    ensures after { cuts starts.new.items (zip keys.new.values values.new.values)
        ≡ take count (cuts starts.old.items (zip keys.old.values values.old.values)) }
    ensures key_ty { keys.new.ty ≡ keys.old.ty }
    ensures ty { values.new.ty ≡ values.old.ty }
{
    let end = starts[count];
    keys.truncate(end);
    values.truncate(end);
    starts.truncate(count + 1);
}
