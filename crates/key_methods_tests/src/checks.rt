//! What a case has to be before it is packed.
ghost use Rattle.std.specs.Prelude.{◌≡◌, IsTrue, map, true};
ghost use Rattle.agg_meaning.specs.Feeds.{AreValues};
ghost use Rattle.agg_terms.specs.Trees.{IsValue};
ghost use Rattle.agg_typing.specs.Kinds.{is_number_or_text};
ghost use Rattle.key_methods.specs.Kinds.{AreKeyTypes};
ghost use Rattle.value_types.specs.Folds.{ty_of, value_of};

use agg_terms::law_trees;
use agg_values::fits;
use value_types::{Ty, Value};

#[tactic(auto, using(value_types::proofs::FoldLaws::ty_laws))]
fn is_key_type(ty: &Ty) -> bool
    ensures { IsTrue result → is_number_or_text (ty_of ty.now) ≡ true }
{
    match ty {
        Ty::U8 | Ty::U16 | Ty::U32 | Ty::U64 => true,
        Ty::I8 | Ty::I16 | Ty::I32 | Ty::I64 => true,
        Ty::Str => true,
        Ty::Nullable(of) => is_key_type(of.get()),
        _ => false,
    }
}

/// Whether each is a type of key columns.
pub fn are_key_types(types: &[Ty]) -> bool
    ensures { IsTrue result → AreKeyTypes types.now }
{
    for ty in types {
        if !is_key_type(ty) {
            return false;
        }
    }
    true
}

fn is_value(ty: &Ty, value: &Value) -> bool
    ensures { IsTrue result → IsValue (ty_of ty.now) (value_of value.now) }
{
    law_trees();
    fits(value, ty)
}

/// Whether there is one value of each type.
pub fn are_values(types: &[Ty], values: &[Value]) -> bool
    ensures { IsTrue result → AreValues (map ty_of types.now) (map value_of values.now) }
{
    match types {
        [] => match values {
            [] => true,
            [_, ..] => false,
        },
        [ty, types @ ..] => match values {
            [] => false,
            [value, values @ ..] => is_value(ty, value) && are_values(types, values),
        },
    }
}
