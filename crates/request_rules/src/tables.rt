//! The rules on a table.
ghost use Rattle.line_forms.specs.Tables as written;
ghost use Rattle.line_forms.specs.Views.{columns_of, column_of};
ghost use Rattle.request_rules.specs.Answers.{Says};
ghost use Rattle.request_rules.specs.Tables as rules;
ghost use Rattle.request_rules.specs.Turns.{in_turn};
ghost use Rattle.request_rules.specs.Views as views;
ghost use Rattle.shape_types.specs.Countable.{IsCountable};
ghost use Rattle.std.specs.List.{list_all};
ghost use Rattle.std.specs.Option.{option_map};
ghost use Rattle.std.specs.Prelude.{◌≡◌, ◌<◌, ◌≤◌, [], length, map, is_some, IfOk};
ghost use Rattle.type_shapes.specs.Folds.{shape_of};
ghost use Rattle.value_types.specs.Folds.{ty_of};

use crate::known::is_among;
use crate::refusal::{Refusal, part_refusal};
use agg_defs::{Column, Schema};
use line_forms::{WrittenColumn, WrittenTable};
use refusals::{LimitName, Why};
use shape_types::type_of;
use std::alloc::Global;
use type_shapes::TypeShape;
use value_types::{Seq, Ty};

/// How many columns a table may have (this project's own choice).
const MOST_COLUMNS: usize = 64;

/// The type of the column of a number, counted from 1.
fn column_type(alloc: Global, number: u32, shape: &Option<TypeShape>) -> Result<Ty, Refusal>
    requires { rules.IsCountableShape (option_map shape_of shape.now) }
    ensures { Says ty_of result (rules.column_type number (option_map shape_of shape.now)) }
{
    match shape {
        Some(shape) => match type_of(alloc, shape) {
            Ok(ty) => Ok(ty),
            Err(fault) => Err(part_refusal(number, fault)),
        },
        None => Err(Refusal::Broken(Why::Limit(LimitName::Depth))),
    }
}

/// A column that stands to the right of these.
fn judge_column(alloc: Global, before: &[Column], column: &WrittenColumn) -> Result<Column, Refusal>
    requires countable { rules.IsCountableShape (column_of column.now).shape }
    requires few { length before.now < 64 }
    ensures { Says views.column_of result (rules.judged_column (map views.column_of before.now) (column_of column.now)) }
{
    if is_among(before, column.name.name.as_slice()) {
        return Err(Refusal::Broken(Why::Repeated(column.name.at)));
    }
    let ty = column_type(alloc, before.len() as u32 + 1, &column.shape)?;
    Ok(Column {
        name: Seq::from_slice(alloc, column.name.name.as_slice())?,
        ty,
    })
}

fn judge_columns(alloc: Global, columns: &[WrittenColumn]) -> Result<Seq<Column>, Refusal>
    requires countable { rules.AreCountableShapes (map column_of columns.now) }
    requires few { length columns.now ≤ 64 }
    ensures judged { Says (map views.column_of) result (in_turn rules.judged_column [] (map column_of columns.now)) }
    ensures few { IfOk result (λ judged. length judged ≤ 64) }
{
    let mut judged = Seq::new(alloc);
    for written in columns {
        let column = judge_column(alloc, judged.as_slice(), written)?;
        judged.push(column)?;
    }
    Ok(judged)
}

fn have_shapes(columns: &[WrittenColumn]) -> bool
    ensures { result ≡ list_all (λ column. is_some column.shape) columns.now }
{
    columns.iter().all(|column| column.shape.is_some())
}

fn are_within_depth(columns: &[WrittenColumn]) -> bool
    ensures { result ≡ rules.are_within_depth (map column_of columns.now) }
{
    have_shapes(columns)
}

/// The columns of a table, by their rules in their order: at most 64 columns, types at most 16 deep in one another; then
/// for each column from left to right, a name that none to its left has, and a type without a refused state type. The
/// order is this project's own choice.
///
/// # Errors
///
/// The first rule that is broken, or [`Refusal::OutOfMemory`] where there is no room for the columns.
pub fn judge_table(alloc: Global, table: &WrittenTable) -> Result<Schema, Refusal>
    requires { rules.AreCountableShapes (columns_of table.now) }
    ensures judged { Says views.schema_of result (rules.judged_table (columns_of table.now)) }
    ensures few { IfOk result (λ schema. length schema.columns ≤ 64) }
{
    let columns = table.columns.as_slice();
    if columns.len() > MOST_COLUMNS {
        return Err(Refusal::Broken(Why::Limit(LimitName::Columns)));
    }
    if !are_within_depth(columns) {
        return Err(Refusal::Broken(Why::Limit(LimitName::Depth)));
    }
    Ok(Schema {
        columns: judge_columns(alloc, columns)?,
    })
}
