//! NULL in a column, and what stands in its place among the values.
ghost use Rattle.std.specs.Prelude.{◌≡◌, ◌∷◌, ◌++◌, [], length, OnErr, OnOk};
ghost use Rattle.typed_columns.specs.Growth.{blank, with_value};
ghost use Rattle.typed_columns.specs.Masks.{masked};
ghost use Rattle.value_types.specs.Folds.{ty_of};
ghost use Rattle.value_types.specs.declared.value.Value.TheVariants as form;

use crate::Column;
use crate::column::Kind;
use value_types::{OutOfMemory, Tree};

impl Column {
    #[cycle(blank)]
    #[tactic(auto, using(column_parts::proofs::Cuts::cut_laws, crate::proofs::Growing::blank_laws))]
    fn push_blank(&mut self) -> Result<(), OutOfMemory>
        ensures ok { OnOk result (self.new ≡ with_value self.old (blank (ty_of self.old.ty))) }
        ensures err { OnErr result (self.new ≡ self.old) }
    {
        match &mut self.kind {
            Kind::Numbers(numbers) => return numbers.push(0),
            Kind::Texts(texts) => return texts.push(&[]),
            Kind::Nullable(mask, values) => return push_null_to(mask, values),
            Kind::Lists(starts, elements) => {
                starts.push(elements.len())?;
                return Ok(());
            }
            Kind::Maps(starts, keys, _) => {
                starts.push(keys.len())?;
                return Ok(());
            }
            Kind::Cells(_, _, trees) => {
                trees.push(Tree::Empty)?;
                return Ok(());
            }
        }
    }
}

/// Adds NULL to the values of a column and to the marks that tell which are NULL.
#[cycle(blank)]
pub(crate) fn push_null_to(mask: &mut Vec<bool>, values: &mut Column) -> Result<(), OutOfMemory>
    requires alike { length mask.old.items ≡ length values.old.values }
    ensures alike { length mask.new.items ≡ length values.new.values }
    ensures ok { OnOk result (masked mask.new.items values.new.values ≡ masked mask.old.items values.old.values ++ form.Nil ∷ []) }
    ensures err { OnErr result (masked mask.new.items values.new.values ≡ masked mask.old.items values.old.values) }
    ensures ty { values.new.ty ≡ values.old.ty }
{
    mask.reserve(1)?;
    values.push_blank()?;
    mask.push(true)?;
    Ok(())
}
