//! Values as fields. Every call adds to the end of a text; nothing is made for each byte.
ghost use Rattle.std.specs.Prelude.{◌≡◌, ◌++◌, ◌&&◌, map, IfOk, OnOk, IsTrue};
ghost use Rattle.std.specs.List.{list_all};
ghost use Rattle.agg_terms.specs.Fitting.{fits_value, has_entries, has_items};
ghost use Rattle.value_types.specs.Folds.{ty_of, value_of};
ghost use Rattle.scalar_texts.specs.States.{AllStates};
ghost use Rattle.tsv_values.specs.Writing.{cell_text, comma_before, element_text, entries_of, field_text, in_quotes, items_of, number_text, string_text};

use itoa::Buffer;
use scalar_texts::StateWriter;
use std::alloc::Global;
use tsv_text::escape;
use value_types::{Bytes, OutOfMemory, Ty, Value, is_nil};

#[tactic(auto, using(crate::proofs::Texts::text_laws))]
fn write_number(value: &Value, text: &mut Vec<u8>) -> Result<(), OutOfMemory>
    ensures { OnOk result (text.new.items ≡ text.old.items ++ number_text (value_of value.now)) }
{
    if let Value::Num(number) = value {
        let mut buffer = Buffer::new();
        text.extend_from_slice(buffer.format(*number).as_bytes())?;
    }
    Ok(())
}

#[tactic(auto, using(crate::proofs::Texts::text_laws))]
fn write_string(alloc: Global, value: &Value, text: &mut Vec<u8>) -> Result<(), OutOfMemory>
    ensures { OnOk result (text.new.items ≡ text.old.items ++ string_text (value_of value.now)) }
{
    if let Value::Bytes(bytes) = value {
        text.extend_from_slice(escape(alloc, bytes.as_slice())?.as_slice())?;
    }
    Ok(())
}

/// A state of the type, in hexadecimal.
#[tactic(auto, using(crate::proofs::Texts::text_laws))]
fn write_cell<W: StateWriter>(
    ty: &Ty,
    value: &Value,
    alloc: Global,
    writer: &W,
    text: &mut Vec<u8>,
) -> Result<(), OutOfMemory>
    requires states { W.takes writer.now (ty_of ty.now) }
    requires fits { IsTrue (fits_value (ty_of ty.now) (value_of value.now)) }
    ensures { OnOk result (text.new.items ≡ text.old.items ++ cell_text (W.writes writer.now (ty_of ty.now)) (value_of value.now)) }
{
    if let Value::Cell(tree) = value {
        let bytes = writer.write(alloc, ty, tree)?;
        text.extend_from_slice(hex::encode(alloc, bytes.as_slice())?.as_bytes())?;
    }
    Ok(())
}

/// The items of a list of values of a type; nothing of another value.
#[tactic(auto, using(crate::proofs::Texts::text_laws))]
fn items_of<'v>(item: &Ty, value: &'v Value) -> &'v [Value]
    requires { IsTrue (has_items (list_all (fits_value (ty_of item.now))) (value_of value.now)) }
    ensures same { map value_of result.now ≡ items_of (value_of value.now) }
    ensures fit { IsTrue (list_all (λ v. fits_value (ty_of item.now) (value_of v)) result.now) }
{
    match value {
        Value::List(items) => items.as_slice(),
        _ => &[],
    }
}

/// The entries of a map of values of two types; nothing of another value.
#[tactic(auto, using(crate::proofs::Texts::text_laws))]
fn entries_of<'v>(key: &Ty, item: &Ty, value: &'v Value) -> &'v [(Value, Value)]
    requires { IsTrue (has_entries (list_all (λ e. fits_value (ty_of key.now) e.0 && fits_value (ty_of item.now) e.1)) (value_of value.now)) }
    ensures same { map (λ e. (value_of e.0, value_of e.1)) result.now ≡ entries_of (value_of value.now) }
    ensures keys { IsTrue (list_all (λ e. fits_value (ty_of key.now) (value_of e.0)) result.now) }
    ensures items { IsTrue (list_all (λ e. fits_value (ty_of item.now) (value_of e.1)) result.now) }
{
    match value {
        Value::Pairs(entries) => entries.as_slice(),
        _ => &[],
    }
}

/// A string in quotes.
fn write_quoted(alloc: Global, value: &Value, text: &mut Vec<u8>) -> Result<(), OutOfMemory>
    ensures { OnOk result (text.new.items ≡ text.old.items ++ in_quotes (string_text (value_of value.now))) }
{
    text.push(b'\'')?;
    write_string(alloc, value, text)?;
    text.push(b'\'')?;
    Ok(())
}

/// A state of the type, in hexadecimal and in quotes.
fn write_quoted_cell<W: StateWriter>(
    ty: &Ty,
    value: &Value,
    alloc: Global,
    writer: &W,
    text: &mut Vec<u8>,
) -> Result<(), OutOfMemory>
    requires states { W.takes writer.now (ty_of ty.now) }
    requires fits { IsTrue (fits_value (ty_of ty.now) (value_of value.now)) }
    ensures { OnOk result (text.new.items ≡ text.old.items ++ in_quotes (cell_text (W.writes writer.now (ty_of ty.now)) (value_of value.now))) }
{
    text.push(b'\'')?;
    write_cell(ty, value, alloc, writer, text)?;
    text.push(b'\'')?;
    Ok(())
}

/// The comma before each item but the first.
fn write_comma(i: usize, text: &mut Vec<u8>) -> Result<(), OutOfMemory>
    ensures { OnOk result (text.new.items ≡ text.old.items ++ comma_before i) }
{
    if i > 0 {
        text.push(b',')?;
    }
    Ok(())
}

/// A value inside an array or a map.
#[tactic(auto, using(crate::proofs::Texts::element_laws))]
fn write_element<W: StateWriter>(
    ty: &Ty,
    value: &Value,
    alloc: Global,
    writer: &W,
    text: &mut Vec<u8>,
) -> Result<(), OutOfMemory>
    requires states { AllStates (W.takes writer.now) (ty_of ty.now) }
    requires fits { IsTrue (fits_value (ty_of ty.now) (value_of value.now)) }
    ensures { OnOk result (text.new.items ≡ text.old.items ++ element_text (W.writes writer.now) (ty_of ty.now) (value_of value.now)) }
{
    match ty {
        Ty::U8 | Ty::U16 | Ty::U32 | Ty::U64 => write_number(value, text),
        Ty::I8 | Ty::I16 | Ty::I32 | Ty::I64 => write_number(value, text),
        Ty::Str => write_quoted(alloc, value, text),
        Ty::State(_, _) => write_quoted_cell(ty, value, alloc, writer, text),
        Ty::Nullable(_) if is_nil(value) => {
            text.extend_from_slice(b"NULL")?;
            Ok(())
        }
        Ty::Nullable(of) => write_element(of.get(), value, alloc, writer, text),
        Ty::Arr(item) => {
            let items = items_of(item.get(), value);
            text.push(b'[')?;
            for i in 0..items.len() {
                write_comma(i, text)?;
                write_element(item.get(), &items[i], alloc, writer, text)?;
            }
            text.push(b']')?;
            Ok(())
        }
        Ty::Map(key, item) => {
            let key = key.get();
            let item = item.get();
            let entries = entries_of(key, item, value);
            text.push(b'{')?;
            for j in 0..entries.len() {
                let entry = &entries[j];
                write_comma(j, text)?;
                write_element(key, &entry.0, alloc, writer, text)?;
                text.push(b':')?;
                write_element(item, &entry.1, alloc, writer, text)?;
            }
            text.push(b'}')?;
            Ok(())
        }
    }
}

/// A value as a whole field, into a text.
fn write_field<W: StateWriter>(
    ty: &Ty,
    value: &Value,
    alloc: Global,
    writer: &W,
    text: &mut Vec<u8>,
) -> Result<(), OutOfMemory>
    requires states { AllStates (W.takes writer.now) (ty_of ty.now) }
    requires fits { IsTrue (fits_value (ty_of ty.now) (value_of value.now)) }
    ensures { OnOk result (text.new.items ≡ text.old.items ++ field_text (W.writes writer.now) (ty_of ty.now) (value_of value.now)) }
{
    match ty {
        Ty::Str => write_string(alloc, value, text),
        Ty::State(_, _) => write_cell(ty, value, alloc, writer, text),
        Ty::Nullable(_) if is_nil(value) => {
            text.extend_from_slice(b"\\N")?;
            Ok(())
        }
        Ty::Nullable(of) => write_field(of.get(), value, alloc, writer, text),
        _ => write_element(ty, value, alloc, writer, text),
    }
}

/// The field that a value is written as.
///
/// # Errors
///
/// [`OutOfMemory`] where there is no room for it.
pub fn write_value<W: StateWriter>(
    alloc: Global,
    writer: &W,
    ty: &Ty,
    value: &Value,
) -> Result<Bytes, OutOfMemory>
    requires states { AllStates (W.takes writer.now) (ty_of ty.now) }
    requires fits { IsTrue (fits_value (ty_of ty.now) (value_of value.now)) }
    ensures { IfOk result (λ field. field ≡ field_text (W.writes writer.now) (ty_of ty.now) (value_of value.now)) }
{
    let mut text = Vec::new(alloc);
    write_field(ty, value, alloc, writer, &mut text)?;
    Ok(Bytes::from_vec(text))
}
