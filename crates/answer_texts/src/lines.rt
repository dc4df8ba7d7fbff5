//! The lines of an answer.
ghost use Rattle.std.specs.Prelude.{◌≡◌, ◌++◌, map, OnOk};
ghost use Rattle.agg_terms.specs.Lists.{Each};
ghost use Rattle.answer_texts.specs.Lines.{answer_text, behind_tabs, fields_text, line_text, AreWritten};
ghost use Rattle.value_types.specs.Folds.{ty_of, value_of};

use crate::field::put_field;
use std::alloc::Global;
use tsv_values::StateWriter;
use value_types::{OutOfMemory, Seq, Ty, Value};

// Each field behind a tab.
fn put_behind<W: StateWriter>(
    alloc: Global,
    writer: &W,
    types: &[Ty],
    values: &[Value],
    text: &mut Vec<u8>,
) -> Result<(), OutOfMemory>
    requires { AreWritten (W.takes writer.now) types.now values.now }
    ensures { OnOk result (text.new.items ≡ text.old.items ++ behind_tabs (fields_text (W.writes writer.now) (map ty_of types.now) (map value_of values.now))) }
{
    match types {
        [] => Ok(()),
        [ty, types @ ..] => match values {
            [] => Ok(()),
            [value, values @ ..] => {
                text.push(b'\t')?;
                put_field(alloc, writer, ty, value, text)?;
                put_behind(alloc, writer, types, values, text)
            }
        },
    }
}

/// Adds the line of values of these types: their fields in this order with tabs between, and a newline.
///
/// # Errors
///
/// [`OutOfMemory`] where there is no room for it.
pub fn put_line<W: StateWriter>(
    alloc: Global,
    writer: &W,
    types: &[Ty],
    values: &[Value],
    text: &mut Vec<u8>,
) -> Result<(), OutOfMemory>
    requires { AreWritten (W.takes writer.now) types.now values.now }
    ensures { OnOk result (text.new.items ≡ text.old.items ++ line_text (W.writes writer.now) (map ty_of types.now) (map value_of values.now)) }
{
    match types {
        [] => {}
        [ty, types @ ..] => match values {
            [] => {}
            [value, values @ ..] => {
                put_field(alloc, writer, ty, value, text)?;
                put_behind(alloc, writer, types, values, text)?;
            }
        },
    }
    text.push(b'\n')?;
    Ok(())
}

/// Adds a line for each list of values, all of these types.
///
/// # Errors
///
/// [`OutOfMemory`] where there is no room for them.
#[tactic(auto, using(crate::proofs::LineLaws::line_laws))]
pub fn put_lines<W: StateWriter>(
    alloc: Global,
    writer: &W,
    types: &[Ty],
    lines: &[Seq<Value>],
    text: &mut Vec<u8>,
) -> Result<(), OutOfMemory>
    requires { Each (AreWritten (W.takes writer.now) types.now) lines.now }
    ensures { OnOk result (text.new.items ≡ text.old.items ++ answer_text (W.writes writer.now) (map ty_of types.now) (map (map value_of) lines.now)) }
{
    for line in lines {
        put_line(alloc, writer, types, line.as_slice(), text)?;
    }
    Ok(())
}
