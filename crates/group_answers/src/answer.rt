//! The lines of an answer, one group after another.
ghost use Rattle.std.specs.Prelude.{◌≡◌, [], ◌∷◌, map, OnOk};
ghost use Rattle.agg_terms.specs.Lists.{Each};
ghost use Rattle.group_answers.specs.Answers.{AddsAnswer};
ghost use Rattle.group_answers.specs.proving.Lines.{AddsLines};
ghost use Rattle.group_tables.specs.Groupings.{IsReady, answer_types, view_of};
ghost use Rattle.group_tables.specs.Reading.{IsPlaced};
ghost use Rattle.group_tables.specs.Tables.{IsTableOf};
ghost use Rattle.scalar_texts.specs.States.{AllStates};
ghost use Rattle.value_types.specs.Folds.{ty_of};

use answer_texts::put_line;
use group_tables::{GroupTable, Grouping};
use result_laws::law_meanings_fit;
use std::alloc::Global;
use tsv_values::StateWriter;
use value_types::{OutOfMemory, Ty, law_types};

/// Adds the lines of a table's answer: for each group the fields of its key and of what each call means in it. The groups
/// stand in ascending order of their keys, NULL first (manual: "ORDER BY", "NULLS FIRST").
///
/// # Errors
///
/// [`OutOfMemory`] where there is no room for them; the text then has a front of the lines.
pub fn put_answer<W: StateWriter>(
    alloc: Global,
    writer: &W,
    grouping: &Grouping,
    table: &GroupTable,
    text: &mut Vec<u8>,
) -> Result<(), OutOfMemory>
    requires ready { IsReady grouping.now }
    requires table { IsTableOf grouping.now table.now }
    requires states { Each (AllStates (W.takes writer.now)) (answer_types (map ty_of grouping.now.types) (view_of grouping.now)) }
    ensures { OnOk result (AddsAnswer (W.writes writer.now) grouping.now table.now text.old.items text.new.items) }
{
    let types = grouping.answer_types(alloc)?;
    let groups = table.groups_in_order(alloc, grouping)?;
    put_groups(
        alloc,
        writer,
        grouping,
        table,
        types.as_slice(),
        groups,
        text,
    )
}

/// Adds the lines of the groups at these places, whose fields have these types.
fn put_groups<W: StateWriter>(
    alloc: Global,
    writer: &W,
    grouping: &Grouping,
    table: &GroupTable,
    types: &[Ty],
    groups: Vec<u32>,
    text: &mut Vec<u8>,
) -> Result<(), OutOfMemory>
    requires ready { IsReady grouping.now }
    requires table { IsTableOf grouping.now table.now }
    requires types { map ty_of types.now ≡ answer_types (map ty_of grouping.now.types) (view_of grouping.now) }
    requires states { Each (AllStates (W.takes writer.now)) (answer_types (map ty_of grouping.now.types) (view_of grouping.now)) }
    requires placed { Each (IsPlaced grouping.now table.now) groups.items }
    ensures { OnOk result (AddsLines (W.writes writer.now) grouping.now table.now groups.items text.old.items text.new.items) }
{
    for place in groups {
        put_group(alloc, writer, grouping, table, types, place, text)?;
    }
    Ok(())
}

/// Adds the line of the group at a place, whose fields have these types.
fn put_group<W: StateWriter>(
    alloc: Global,
    writer: &W,
    grouping: &Grouping,
    table: &GroupTable,
    types: &[Ty],
    place: u32,
    text: &mut Vec<u8>,
) -> Result<(), OutOfMemory>
    requires ready { IsReady grouping.now }
    requires table { IsTableOf grouping.now table.now }
    requires types { map ty_of types.now ≡ answer_types (map ty_of grouping.now.types) (view_of grouping.now) }
    requires states { Each (AllStates (W.takes writer.now)) (answer_types (map ty_of grouping.now.types) (view_of grouping.now)) }
    requires placed { IsPlaced grouping.now table.now place }
    ensures { OnOk result (AddsLines (W.writes writer.now) grouping.now table.now (place ∷ []) text.old.items text.new.items) }
{
    law_meanings_fit();
    law_types();
    let line = table.line(alloc, grouping, place)?;
    put_line(alloc, writer, types, line.as_slice(), text)
}
