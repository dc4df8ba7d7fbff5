//! The rules on keys.
ghost use Rattle.agg_typing.specs.Kinds.{is_number_or_text};
ghost use Rattle.line_forms.specs.Views.{name_of};
ghost use Rattle.request_rules.specs.Answers.{Says};
ghost use Rattle.request_rules.specs.Selects as rules;
ghost use Rattle.request_rules.specs.Views as views;
ghost use Rattle.std.specs.List.{list_any};
ghost use Rattle.std.specs.Prelude.{◌≡◌, ◌==◌, ◌≤◌, length, map};
ghost use Rattle.value_types.specs.Folds.{ty_of};

use crate::known::known;
use crate::refusal::Refusal;
use agg_defs::Column;
use line_forms::WrittenName;
use refusals::Why;
use std::alloc::Global;
use value_types::{Seq, Ty};

/// Whether groups can be told by values of this type: a number, a String or a Nullable of one.
fn is_key_type(ty: &Ty) -> bool
    ensures { result ≡ is_number_or_text (ty_of ty.now) }
{
    match ty {
        Ty::U8 | Ty::U16 | Ty::U32 | Ty::U64 | Ty::I8 | Ty::I16 | Ty::I32 | Ty::I64 | Ty::Str => {
            true
        }
        Ty::Nullable(of) => is_key_type(of.get()),
        _ => false,
    }
}

fn is_among(places: &[u32], place: u32) -> bool
    ensures { result ≡ list_any (λ other. other == place) places.now }
{
    places.iter().any(|other| *other == place)
}

/// A key that stands to the right of these.
fn judge_key(columns: &[Column], before: &[u32], key: &WrittenName) -> Result<u32, Refusal>
    requires { length columns.now ≤ 64 }
    ensures { Says (λ place. place) result (rules.judged_key (map views.column_of columns.now) before.now (name_of key.now)) }
{
    let found = known(columns, key)?;
    if is_among(before, found.place) {
        return Err(Refusal::Broken(Why::Repeated(key.at)));
    }
    if !is_key_type(found.ty) {
        return Err(Refusal::Broken(Why::KeyType(key.at)));
    }
    Ok(found.place)
}

/// The keys of a request, from left to right.
pub(crate) fn judge_keys(
    alloc: Global,
    columns: &[Column],
    keys: &[WrittenName],
) -> Result<Seq<u32>, Refusal>
    requires { length columns.now ≤ 64 }
    ensures { Says (λ places. places) result (rules.judged_keys (map views.column_of columns.now) (map name_of keys.now)) }
{
    let mut judged = Seq::new(alloc);
    for key in keys {
        let place = judge_key(columns, judged.as_slice(), key)?;
        judged.push(place)?;
    }
    Ok(judged)
}
