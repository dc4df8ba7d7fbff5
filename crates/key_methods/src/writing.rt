//! Values as bytes, one behind another.
ghost use Rattle.std.specs.Prelude.{◌≡◌, ◌≤◌, ◌++◌, length, true, OnOk};
ghost use Rattle.std.specs.Int.{bytes_high_first};
ghost use Rattle.agg_terms.specs.Trees.{IsValue};
ghost use Rattle.agg_typing.specs.Kinds.{is_number_or_text};
ghost use Rattle.key_methods.specs.KeyBytes as spec;
ghost use Rattle.value_types.specs.Folds.{ty_of, value_of};

use crate::number::{number_width, word_of};
use value_lists::OutOfMemory;
use value_types::{Ty, Value, is_nil};

/// The bytes of a String.
pub(crate) fn text_of(value: &Value) -> &[u8]
    ensures { result.now ≡ spec.text_of (value_of value.now) }
{
    match value {
        Value::Bytes(bytes) => bytes.as_slice(),
        _ => &[],
    }
}

/// Writes a value behind others.
pub(crate) fn write_value(out: &mut Vec<u8>, ty: &Ty, value: &Value) -> Result<(), OutOfMemory>
    requires ty { is_number_or_text (ty_of ty.now) ≡ true }
    requires value { IsValue (ty_of ty.now) (value_of value.now) }
    ensures { OnOk result (out.new.items ≡ out.old.items ++ spec.value_bytes (ty_of ty.now) (value_of value.now)) }
{
    match ty {
        Ty::Str => write_text(out, text_of(value)),
        Ty::Nullable(of) => {
            if is_nil(value) {
                out.push(0)?;
                return Ok(());
            }
            out.push(1)?;
            write_value(out, of.get(), value)
        }
        _ => write_number(out, word_of(ty, value), number_width(ty)),
    }
}

/// Writes a String: its length in 8 bytes, and its bytes.
///
/// # Errors
///
/// [`OutOfMemory`] where there is no room; what was written so far may stand there.
pub fn write_text(out: &mut Vec<u8>, text: &[u8]) -> Result<(), OutOfMemory>
    ensures { OnOk result (out.new.items ≡ out.old.items ++ spec.text_bytes text.now) }
{
    write_number(out, text.len() as u64, 8)?;
    out.extend_from_slice(text)?;
    Ok(())
}

/// Writes the last `width` bytes of a number, the highest first.
///
/// # Errors
///
/// [`OutOfMemory`] where there is no room.
#[tactic(auto, using(crate::proofs::Figures::figure_laws))]
pub fn write_number(out: &mut Vec<u8>, word: u64, width: usize) -> Result<(), OutOfMemory>
    requires { width ≤ 8 }
    ensures { OnOk result (out.new.items ≡ out.old.items ++ bytes_high_first width word) }
{
    out.extend_from_slice(&word.to_be_bytes()[8 - width..])?;
    Ok(())
}
