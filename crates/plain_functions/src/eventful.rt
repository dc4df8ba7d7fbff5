//! Functions over events: the level of a funnel, whether a pattern matches, and retention.
ghost use Rattle.std.specs.Prelude.{◌≡◌, ◌≤◌, IfOk, length, map, pos};
ghost use Rattle.agg_terms.specs.Lists.{NotFalling};
ghost use Rattle.agg_terms.specs.Trees.{by_time};
ghost use Rattle.agg_terms.specs.Types as types_in;
ghost use Rattle.agg_terms.specs.Values.{Num, list_value};
ghost use Rattle.agg_meaning.specs.Events as terms;
ghost use Rattle.value_types.specs.Folds.{event_of, pattern_of, ty_of, value_of};
ghost use Rattle.plain_rows.specs.Rows.{rows_of};
ghost use Rattle.plain_rows.specs.Served.{AreEvents, IsSearched};
ghost use Rattle.window_funnel.specs.Conditions.{cut_to};

use agg_values::{Event, OutOfMemory, Pattern, Seq, Ty, Value};
use plain_rows::{events_of, flag, met_set, retained};
use sequence_pattern::matches;
use std::alloc::Global;
use window_funnel::level;

/// The events of the rows, of arguments of these types.
pub fn typed_events(
    alloc: Global,
    types: &[Ty],
    rows: &[Seq<Value>],
) -> Result<Seq<Event>, OutOfMemory>
    requires { AreEvents (map ty_of types.now) (rows_of rows.now) }
    ensures { IfOk result (λ all. map event_of all ≡ terms.events (types_in.conditions (map ty_of types.now)) (rows_of rows.now)) }
{
    events_of(alloc, types.len().saturating_sub(1), rows)
}

/// How many conditions stand behind the time.
fn condition_count(types: &[Ty]) -> u32
    requires { types_in.conditions (map ty_of types.now) ≤ 32 }
    ensures { result ≡ types_in.conditions (map ty_of types.now) }
{
    types.len().saturating_sub(1) as u32
}

/// How far the funnel goes over events.
fn reached(window: u64, strict: bool, conditions: u32, events: &[Event]) -> Value
    requires some { 1 ≤ conditions }
    requires most { conditions ≤ 32 }
    requires ordered { NotFalling by_time (map event_of events.now) }
    ensures { value_of result ≡ Num (pos (terms.funnel_level window strict (map (cut_to conditions) (map event_of events.now)))) }
{
    Value::Num(i128::from(level(window, strict, conditions, events)))
}

/// How far the funnel goes.
pub fn funnel(
    alloc: Global,
    window: u64,
    strict: bool,
    types: &[Ty],
    rows: &[Seq<Value>],
) -> Result<Value, OutOfMemory>
    requires { AreEvents (map ty_of types.now) (rows_of rows.now) }
    ensures { IfOk result (λ value. value_of value ≡ Num (pos (terms.funnel_level window strict (terms.events (types_in.conditions (map ty_of types.now)) (rows_of rows.now))))) }
{
    let events = typed_events(alloc, types, rows)?;
    let conditions = condition_count(types);
    Ok(reached(window, strict, conditions, events.as_slice()))
}

/// Whether the pattern matches.
pub fn matched(
    alloc: Global,
    pattern: &Pattern,
    types: &[Ty],
    rows: &[Seq<Value>],
) -> Result<Value, OutOfMemory>
    requires events { AreEvents (map ty_of types.now) (rows_of rows.now) }
    requires pattern { IsSearched (pattern_of pattern.now) }
    ensures { IfOk result (λ value. value_of value ≡ Num (pos (terms.bit (terms.is_matched (pattern_of pattern.now) (terms.events (types_in.conditions (map ty_of types.now)) (rows_of rows.now)))))) }
{
    let events = typed_events(alloc, types, rows)?;
    Ok(flag(matches(pattern, events.as_slice())))
}

/// The conditions that were met where condition 1 was.
pub fn retention(
    alloc: Global,
    conditions: usize,
    rows: &[Seq<Value>],
) -> Result<Value, OutOfMemory>
    ensures { IfOk result (λ value. value_of value ≡ list_value (terms.retained (terms.met_set conditions (rows_of rows.now)))) }
{
    let set = met_set(alloc, conditions, rows)?;
    Ok(Value::List(retained(alloc, set.as_slice())?))
}
