//! The columns that names stand for.
ghost use Rattle.line_forms.specs.Views.{name_of};
ghost use Rattle.request_rules.specs.Answers.{Says};
ghost use Rattle.request_rules.specs.Selects as rules;
ghost use Rattle.request_rules.specs.Tables as tables;
ghost use Rattle.request_rules.specs.Turns.{in_turn};
ghost use Rattle.request_rules.specs.Views as views;
ghost use Rattle.std.specs.List.{list_any};
ghost use Rattle.std.specs.Option.{option_map};
ghost use Rattle.std.specs.Prelude.{◌≡◌, ◌≤◌, ◌<◌, ◌^◌, [], length, map, IfOk};
ghost use Rattle.std.specs.Str.{bytes_eq};
ghost use Rattle.value_types.specs.Folds.{ty_of};

use crate::refusal::Refusal;
use agg_defs::Column;
use line_forms::WrittenName;
use refusals::Why;
use std::alloc::Global;
use value_types::{OutOfMemory, Seq, Ty};

/// A column that a name stands for: its place in the table, from 0, and its type.
#[derive(Clone, Copy, Debug)]
pub(crate) struct Named<'a> {
    pub(crate) place: u32,
    pub(crate) ty: &'a Ty,
}

fn has_name(columns: &[Column], name: &[u8]) -> bool
    ensures { result ≡ list_any (λ column. bytes_eq column.name name.now) columns.now }
{
    columns.iter().any(|column| column.name.as_slice() == name)
}

/// Whether a column has this name.
pub(crate) fn is_among(columns: &[Column], name: &[u8]) -> bool
    ensures { result ≡ tables.is_among (map views.column_of columns.now) name.now }
{
    has_name(columns, name)
}

/// The column of a name, if there is one.
fn find<'a>(columns: &'a [Column], name: &[u8]) -> Option<Named<'a>>
    requires { length columns.now ≤ 64 }
    ensures { option_map views.named_of result ≡ rules.named_from 0 (map views.column_of columns.now) name.now }
{
    for (place, column) in columns.iter().enumerate() {
        if column.name.as_slice() == name {
            return Some(Named {
                place: place as u32,
                ty: &column.ty,
            });
        }
    }
    None
}

/// The column that a name of a line stands for.
pub(crate) fn known<'a>(columns: &'a [Column], name: &WrittenName) -> Result<Named<'a>, Refusal>
    requires { length columns.now ≤ 64 }
    ensures { Says views.named_of result (rules.known (map views.column_of columns.now) (name_of name.now)) }
{
    match find(columns, name.name.as_slice()) {
        Some(found) => Ok(found),
        None => Err(Refusal::Broken(Why::UnknownColumn(name.at))),
    }
}

/// The columns that the names stand for, in their order.
pub(crate) fn all_known<'a>(
    alloc: Global,
    columns: &'a [Column],
    names: &[WrittenName],
) -> Result<Vec<Named<'a>>, Refusal>
    requires { length columns.now ≤ 64 }
    ensures known { Says (λ found. map views.named_of found.items) result (rules.all_known (map views.column_of columns.now) (map name_of names.now)) }
    ensures many { IfOk result (λ found. length found.items ≡ length names.now) }
{
    let mut found = Vec::new(alloc);
    for name in names {
        let column = known(columns, name)?;
        if found.push(column).is_err() {
            return Err(Refusal::OutOfMemory);
        }
    }
    Ok(found)
}

/// Their places.
pub(crate) fn places_of(alloc: Global, found: &[Named<'_>]) -> Result<Seq<u32>, OutOfMemory>
    ensures { IfOk result (λ places. places ≡ rules.places_of (map views.named_of found.now)) }
{
    let mut places = Seq::new(alloc);
    for column in found {
        places.push(column.place)?;
    }
    Ok(places)
}

/// Copies of their types.
pub(crate) fn types_of(alloc: Global, found: &[Named<'_>]) -> Result<Seq<Ty>, OutOfMemory>
    ensures { IfOk result (λ types. map ty_of types ≡ rules.named_types (map views.named_of found.now)) }
{
    let mut types = Seq::new(alloc);
    for column in found {
        types.push(column.ty.copy(alloc)?)?;
    }
    Ok(types)
}
