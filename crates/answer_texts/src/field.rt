//! One field. Numbers, NULL and strings without escapes go straight into the text.
ghost use Rattle.std.specs.Prelude.{◌≡◌, ◌++◌, IsTrue, OnOk};
ghost use Rattle.std.specs.List.{list_any};
ghost use Rattle.std.specs.Fmt.{signed_decimal};
ghost use Rattle.agg_terms.specs.Fitting.{fits_value};
ghost use Rattle.scalar_texts.specs.States.{AllStates};
ghost use Rattle.tsv_text.specs.Escapes.{escaped, is_escaped};
ghost use Rattle.tsv_values.specs.Writing.{field_text};
ghost use Rattle.value_types.specs.Folds.{ty_of, value_of};

use itoa::Buffer;
use std::alloc::Global;
use tsv_text::escape;
use tsv_values::{StateWriter, write_value};
use value_types::{OutOfMemory, Ty, Value};

fn put_number(number: i128, text: &mut Vec<u8>) -> Result<(), OutOfMemory>
    ensures { OnOk result (text.new.items ≡ text.old.items ++ signed_decimal number) }
{
    let mut buffer = Buffer::new();
    text.extend_from_slice(buffer.format(number).as_bytes())?;
    Ok(())
}

fn is_escaped(byte: u8) -> bool
    ensures { result ≡ is_escaped byte }
{
    matches!(byte, 8 | 12 | 13 | 10 | 9 | 0 | b'\'' | b'\\')
}

fn has_escaped(bytes: &[u8]) -> bool
    ensures { result ≡ list_any is_escaped bytes.now }
{
    bytes.iter().any(|byte| is_escaped(*byte))
}

#[tactic(auto, using(crate::proofs::Fields::string_laws))]
fn put_string(alloc: Global, bytes: &[u8], text: &mut Vec<u8>) -> Result<(), OutOfMemory>
    ensures { OnOk result (text.new.items ≡ text.old.items ++ escaped bytes.now) }
{
    if has_escaped(bytes) {
        text.extend_from_slice(escape(alloc, bytes)?.as_slice())?;
    } else {
        text.extend_from_slice(bytes)?;
    }
    Ok(())
}

fn put_other<W: StateWriter>(
    alloc: Global,
    writer: &W,
    ty: &Ty,
    value: &Value,
    text: &mut Vec<u8>,
) -> Result<(), OutOfMemory>
    requires states { AllStates (W.takes writer.now) (ty_of ty.now) }
    requires fits { IsTrue (fits_value (ty_of ty.now) (value_of value.now)) }
    ensures { OnOk result (text.new.items ≡ text.old.items ++ field_text (W.writes writer.now) (ty_of ty.now) (value_of value.now)) }
{
    text.extend_from_slice(write_value(alloc, writer, ty, value)?.as_slice())?;
    Ok(())
}

/// Adds the field that a value is written as: numbers in decimal, strings with their escapes, NULL as `\N`, arrays and maps
/// without spaces, states in lower-case hexadecimal.
///
/// # Errors
///
/// [`OutOfMemory`] where there is no room for it.
#[tactic(auto, using(crate::proofs::Fields::field_laws))]
pub fn put_field<W: StateWriter>(
    alloc: Global,
    writer: &W,
    ty: &Ty,
    value: &Value,
    text: &mut Vec<u8>,
) -> Result<(), OutOfMemory>
    requires states { AllStates (W.takes writer.now) (ty_of ty.now) }
    requires fits { IsTrue (fits_value (ty_of ty.now) (value_of value.now)) }
    ensures { OnOk result (text.new.items ≡ text.old.items ++ field_text (W.writes writer.now) (ty_of ty.now) (value_of value.now)) }
{
    match value {
        Value::Num(number) => put_number(*number, text),
        Value::Bytes(bytes) => put_string(alloc, bytes.as_slice(), text),
        Value::Nil => {
            text.extend_from_slice(b"\\N")?;
            Ok(())
        }
        Value::List(_) => put_other(alloc, writer, ty, value, text),
        Value::Pairs(_) => put_other(alloc, writer, ty, value, text),
        Value::Cell(_) => put_other(alloc, writer, ty, value, text),
    }
}
