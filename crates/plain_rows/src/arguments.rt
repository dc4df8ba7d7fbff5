//! Rows, and the arguments of a row.
ghost use Rattle.std.specs.Prelude.{◌≡◌, ◌++◌, filter, IfOk, map, not, OnErr, OnOk};
ghost use Rattle.agg_terms.specs.Values.{Nil};
ghost use Rattle.agg_meaning.specs.Feeds.{no_null};
ghost use Rattle.agg_meaning.specs.Functions as terms;
ghost use Rattle.value_lists.specs.Fronts.{HoldsFront};
ghost use Rattle.value_types.specs.Folds.{value_of};
ghost use Rattle.plain_rows.specs.Rows.{first_number, row_of, rows_of};

use std::alloc::Global;
use value_types::{OutOfMemory, Seq, Value, copy_values, is_nil};

/// The argument at a place, counted from 0; `nil`, which is NULL, past the last one.
pub fn arg<'a>(row: &'a [Value], place: usize, nil: &'a Value) -> &'a Value
    requires { value_of nil.now ≡ Nil }
    ensures { value_of result.now ≡ terms.arg place (row_of row.now) }
{
    if place < row.len() { &row[place] } else { nil }
}

/// A copy of the argument at a place, NULL past the last one.
///
/// # Errors
///
/// [`OutOfMemory`] where there is no room for it.
pub fn arg_copy(alloc: Global, row: &[Value], place: usize) -> Result<Value, OutOfMemory>
    ensures { IfOk result (λ value. value_of value ≡ terms.arg place (row_of row.now)) }
{
    if place < row.len() {
        row[place].copy(alloc)
    } else {
        Ok(Value::Nil)
    }
}

/// The number that a row's first argument is, 0 where it is none.
pub fn number(row: &[Value]) -> i128
    ensures { result ≡ first_number (row_of row.now) }
{
    match row {
        [Value::Num(number), ..] => *number,
        _ => 0,
    }
}

/// A row of the same values.
///
/// # Errors
///
/// [`OutOfMemory`] where there is no room for it.
pub fn copy_row(alloc: Global, row: &[Value]) -> Result<Seq<Value>, OutOfMemory>
    ensures { IfOk result (λ copied. copied ≡ row.now) }
{
    copy_values(alloc, row)
}

/// Whether no argument is NULL.
pub fn is_live(row: &[Value]) -> bool
    ensures { result ≡ no_null (row_of row.now) }
{
    match row {
        [] => true,
        [first, rest @ ..] => !is_nil(first) && is_live(rest),
    }
}

/// The rows that count: those without NULL among their arguments.
///
/// # Errors
///
/// [`OutOfMemory`] where there is no room for them.
pub fn live_rows(alloc: Global, rows: &[Seq<Value>]) -> Result<Seq<Seq<Value>>, OutOfMemory>
    ensures { IfOk result (λ live. rows_of live ≡ filter no_null (rows_of rows.now)) }
{
    let mut live = Seq::new(alloc);
    for row in rows {
        if is_live(row.as_slice()) {
            live.push(copy_row(alloc, row.as_slice())?)?;
        }
    }
    Ok(live)
}

/// Adds copies of these values at the end of a list.
///
/// # Errors
///
/// [`OutOfMemory`] where there is no room; behind what stood there stand copies of the first values then.
pub fn push_values(
    alloc: Global,
    values: &[Value],
    into: &mut Seq<Value>,
) -> Result<(), OutOfMemory>
    ensures ok { OnOk result (into.new ≡ into.old ++ values.now) }
    ensures err { OnErr result (HoldsFront into.old values.now into.new) }
{
    for value in values {
        into.push(value.copy(alloc)?)?;
    }
    Ok(())
}

/// Adds copies of these rows at the end of a list.
///
/// # Errors
///
/// [`OutOfMemory`] where there is no room; behind what stood there stand copies of the first rows then.
pub fn push_rows(
    alloc: Global,
    rows: &[Seq<Value>],
    into: &mut Seq<Seq<Value>>,
) -> Result<(), OutOfMemory>
    ensures ok { OnOk result (into.new ≡ into.old ++ rows.now) }
    ensures err { OnErr result (HoldsFront into.old rows.now into.new) }
{
    for row in rows {
        into.push(copy_row(alloc, row.as_slice())?)?;
    }
    Ok(())
}

/// The first argument of each row.
pub fn first_args(alloc: Global, rows: &[Seq<Value>]) -> Result<Seq<Value>, OutOfMemory>
    ensures { IfOk result (λ values. map value_of values ≡ map terms.the_arg (rows_of rows.now)) }
{
    let mut values = Seq::new(alloc);
    for row in rows {
        values.push(arg_copy(alloc, row.as_slice(), 0)?)?;
    }
    Ok(values)
}
