//! A whole field of any type. The quick reader builds the value; where it finds none, the judge of the syntax is asked.
ghost use Rattle.std.specs.Prelude.{◌≡◌, IfOk, IsTrue};
ghost use Rattle.agg_terms.specs.Fitting.{fits_value};
ghost use Rattle.scalar_texts.specs.States.{AllStates};
ghost use Rattle.value_types.specs.Folds.{ty_of, value_of};
ghost use Rattle.tsv_values.specs.Answer.{IsFieldAnswer, IsFilledAnswer, KeysArePlain};
ghost use Rattle.tsv_values.specs.Elements.{FieldSays};
ghost use Rattle.tsv_values.specs.proving.Reading.{IsNestedAnswer, IsWholeRead};

use crate::elements::read_element;
use crate::found::{Found, Missing, Refusal};
use crate::next::skip_spaces;
use field_texts::syntax_fault;
use scalar_texts::{FieldFault, StateReader, is_null, read_null, read_scalar};
use std::alloc::Global;
use value_types::{Ty, Value};

/// The element that a whole text is, with spaces before and behind it.
fn read_whole<R: StateReader>(
    alloc: Global,
    reader: &R,
    ty: &Ty,
    field: &[u8],
) -> Result<Value, Missing>
    requires { AllStates (R.takes reader.now) (ty_of ty.now) }
    ensures read { IsWholeRead (λ said. FieldSays (R.reads reader.now) (ty_of ty.now) said field.now) result }
    ensures fits { KeysArePlain (ty_of ty.now) → IfOk result (λ value. IsTrue (fits_value (ty_of ty.now) (value_of value))) }
{
    match read_element(alloc, reader, ty, skip_spaces(field)) {
        Ok(Found { value, rest }) => {
            if skip_spaces(rest).is_empty() {
                Ok(value)
            } else {
                Err(Missing::Nothing)
            }
        }
        Err(missing) => Err(missing),
    }
}

/// The same, with the place of a fault of syntax.
fn read_nested<R: StateReader>(
    alloc: Global,
    reader: &R,
    ty: &Ty,
    field: &[u8],
) -> Result<Value, Refusal>
    requires { AllStates (R.takes reader.now) (ty_of ty.now) }
    ensures read { IsNestedAnswer (R.reads reader.now) (ty_of ty.now) field.now result }
    ensures fits { KeysArePlain (ty_of ty.now) → IfOk result (λ value. IsTrue (fits_value (ty_of ty.now) (value_of value))) }
{
    match read_whole(alloc, reader, ty, field) {
        Ok(value) => Ok(value),
        Err(missing) => match syntax_fault(alloc, ty, field) {
            Ok(Some(at)) => Err(Refusal::Syntax(at)),
            Ok(None) => match missing {
                Missing::Refused(fault) => Err(Refusal::Element(fault)),
                Missing::Nothing => unreachable!(),
            },
            Err(_) => Err(Refusal::Element(FieldFault::OutOfMemory)),
        },
    }
}

/// A field that isn't `\N`.
fn read_filled<R: StateReader>(
    alloc: Global,
    reader: &R,
    ty: &Ty,
    field: &[u8],
) -> Result<Value, FieldFault>
    requires { AllStates (R.takes reader.now) (ty_of ty.now) }
    ensures read { IsFilledAnswer (R.reads reader.now) (ty_of ty.now) field.now result }
    ensures fits { KeysArePlain (ty_of ty.now) → IfOk result (λ value. IsTrue (fits_value (ty_of ty.now) (value_of value))) }
{
    match ty {
        Ty::Arr(_) => match read_nested(alloc, reader, ty, field) {
            Ok(value) => Ok(value),
            Err(Refusal::Syntax(at)) => Err(FieldFault::BadArray(at)),
            Err(Refusal::Element(fault)) => Err(fault),
        },
        Ty::Map(_, _) => match read_nested(alloc, reader, ty, field) {
            Ok(value) => Ok(value),
            Err(Refusal::Syntax(at)) => Err(FieldFault::BadMap(at)),
            Err(Refusal::Element(fault)) => Err(fault),
        },
        Ty::Nullable(of) => read_filled(alloc, reader, of.get(), field),
        _ => read_scalar(alloc, reader, ty, field),
    }
}

/// The value of a field of the type (manual: "TabSeparated"; that `\N` is refused where the type isn't Nullable, the strict
/// reading of numbers, and the faults with their places are this project's own choice).
///
/// # Errors
///
/// - [`FieldFault::NotNullable`]: the field is `\N`.
/// - [`FieldFault::NotNumber`], [`FieldFault::OutOfRange`]: no sign and digits, or a number outside the type's range.
/// - [`FieldFault::Text`]: the first bad escape of a string.
/// - [`FieldFault::BadArray`], [`FieldFault::BadMap`]: the length of the longest front that begins some array or map of the
///   type, where numbers may be of any size and any bytes in quotes a state.
/// - [`FieldFault::NotHex`], [`FieldFault::BadState`]: a state that isn't lower-case hexadecimal, or the fault of its bytes.
///   Inside an array or a map a place counts the bytes in its quotes, their escapes undone; of the elements the first from
///   the left is told.
/// - [`FieldFault::OutOfMemory`]: there is no room for the value.
pub fn read_value<R: StateReader>(
    alloc: Global,
    reader: &R,
    ty: &Ty,
    field: &[u8],
) -> Result<Value, FieldFault>
    requires { AllStates (R.takes reader.now) (ty_of ty.now) }
    ensures read { IsFieldAnswer (R.reads reader.now) (ty_of ty.now) field.now result }
    ensures fits { KeysArePlain (ty_of ty.now) → IfOk result (λ value. IsTrue (fits_value (ty_of ty.now) (value_of value))) }
{
    if is_null(field) {
        read_null(ty)
    } else {
        read_filled(alloc, reader, ty, field)
    }
}
