//! Fields of numbers, strings and states, and `\N`.
ghost use Rattle.std.specs.Prelude.{◌≡◌, ◌-◌, ◌^◌, ◌≤ℤ◌, pos, negsuc, nat_lt, IfOk, IsTrue};
ghost use Rattle.std.specs.List.{list_all};
ghost use Rattle.agg_terms.specs.Chains.{Str};
ghost use Rattle.agg_terms.specs.Fitting.{fits_value, is_between};
ghost use Rattle.agg_terms.specs.Values as family;
ghost use Rattle.value_types.specs.Folds.{ty_of, value_of};
ghost use Rattle.scalar_texts.specs.Answer.{Agrees, IsNumericAnswer, IsTextAnswer, IsScalar, IsScalarAnswer, is_null_text, null_answer, state_answer};
ghost use Rattle.scalar_texts.specs.Numbers.{HasRange, in_range};
ghost use Rattle.scalar_texts.specs.States.{AllStates};

use crate::fault::{FieldFault, StateReadFault};
use crate::hex_texts::{hex_fault, read_hex};
use crate::numbers::{NumberFault, read_number};
use crate::states::StateReader;
use std::alloc::Global;
use tsv_text::{TextFault, unescape};
use value_types::{Bytes, Ty, Value, is_nullable};

/// A number from `low` to `high`.
#[tactic(auto, using(value_types::proofs::FoldLaws::value_laws))]
fn number(low: i128, high: i128, field: &[u8]) -> Result<Value, FieldFault>
    requires low { negsuc (2 ^ 63 - 1) ≤ℤ low }
    requires high { high ≤ℤ pos (2 ^ 64 - 1) }
    ensures { IsNumericAnswer (is_between low high) field.now result }
{
    match read_number(low, high, field) {
        Ok(number) => Ok(Value::Num(number)),
        Err(NumberFault::NotNumber) => Err(FieldFault::NotNumber),
        Err(NumberFault::OutOfRange) => Err(FieldFault::OutOfRange),
    }
}

/// A number of the type.
///
/// # Errors
///
/// [`FieldFault::NotNumber`] of another text than a sign or none and digits, [`FieldFault::OutOfRange`] of a number
/// outside the type's range.
#[tactic(auto, using(crate::proofs::TypeKinds::range_laws))]
pub fn read_integer(ty: &Ty, text: &[u8]) -> Result<Value, FieldFault>
    requires { HasRange (ty_of ty.now) }
    ensures read { IsNumericAnswer (in_range (ty_of ty.now)) text.now result }
    ensures fits { IfOk result (λ value. IsTrue (fits_value (ty_of ty.now) (value_of value))) }
{
    match ty {
        Ty::U8 => number(0, 255, text),
        Ty::U16 => number(0, 65535, text),
        Ty::U32 => number(0, 4294967295, text),
        Ty::U64 => number(0, 18446744073709551615, text),
        Ty::I8 => number(-128, 127, text),
        Ty::I16 => number(-32768, 32767, text),
        Ty::I32 => number(-2147483648, 2147483647, text),
        Ty::I64 => number(-9223372036854775808, 9223372036854775807, text),
        Ty::Str | Ty::Arr(_) | Ty::Map(_, _) => unreachable!(),
        Ty::Nullable(_) | Ty::State(_, _) => unreachable!(),
    }
}

/// Bytes are below 2^8 by their type.
fn are_bytes(bytes: &[u8]) -> bool
    ensures { IsTrue (list_all (λ b. nat_lt b (2 ^ 8)) bytes.now) }
{
    let _count = bytes.len();
    true
}

/// The value of bytes.
#[tactic(auto, using(value_types::proofs::FoldLaws::value_laws))]
fn string_value(bytes: Bytes) -> Value
    ensures value { value_of result ≡ family.Bytes bytes }
    ensures fits { IsTrue (fits_value Str (value_of result)) }
{
    let _are = are_bytes(bytes.as_slice());
    Value::Bytes(bytes)
}

/// A string, with its escapes undone once.
///
/// # Errors
///
/// [`FieldFault::Text`] tells the first bad escape, [`FieldFault::OutOfMemory`] that there is no room for the string.
pub fn read_string(alloc: Global, text: &[u8]) -> Result<Value, FieldFault>
    ensures read { IsTextAnswer text.now result }
    ensures fits { IfOk result (λ value. IsTrue (fits_value Str (value_of value))) }
{
    match unescape(alloc, text) {
        Ok(bytes) => Ok(string_value(bytes)),
        Err(TextFault::OutOfMemory) => Err(FieldFault::OutOfMemory),
        Err(fault) => Err(FieldFault::Text(fault)),
    }
}

/// A state of the type, from its hexadecimal text.
///
/// # Errors
///
/// [`FieldFault::NotHex`] and [`FieldFault::BadState`] tell the first fault, [`FieldFault::OutOfMemory`] that there is no
/// room for the state.
#[tactic(auto, using(value_types::proofs::FoldLaws::value_laws))]
pub fn read_state<R: StateReader>(
    alloc: Global,
    reader: &R,
    ty: &Ty,
    text: &[u8],
) -> Result<Value, FieldFault>
    requires { R.takes reader.now (ty_of ty.now) }
    ensures read { Agrees (state_answer (R.reads reader.now) (ty_of ty.now) text.now) result }
    ensures fits { IfOk result (λ value. IsTrue (fits_value (ty_of ty.now) (value_of value))) }
{
    if let Some(at) = hex_fault(text) {
        return Err(FieldFault::NotHex(at));
    }
    let bytes = read_hex(alloc, text)?;
    match reader.read(alloc, ty, bytes.as_slice()) {
        Ok(tree) => Ok(Value::Cell(tree)),
        Err(StateReadFault::Bad(fault)) => Err(FieldFault::BadState(fault)),
        Err(StateReadFault::OutOfMemory) => Err(FieldFault::OutOfMemory),
    }
}

/// The value of a field that isn't `\N`, of a type that is neither an array nor a map (manual: "TabSeparated"; the strict
/// reading of numbers is this project's own choice).
///
/// # Errors
///
/// - [`FieldFault::NotNumber`], [`FieldFault::OutOfRange`]: no sign and digits, or a number outside the type's range.
/// - [`FieldFault::Text`]: the first bad escape of a string.
/// - [`FieldFault::NotHex`], [`FieldFault::BadState`]: a state that isn't lower-case hexadecimal, or the fault of its bytes.
/// - [`FieldFault::OutOfMemory`]: there is no room for the value.
#[tactic(auto, using(crate::proofs::TypeKinds::kind_laws))]
pub fn read_scalar<R: StateReader>(
    alloc: Global,
    reader: &R,
    ty: &Ty,
    field: &[u8],
) -> Result<Value, FieldFault>
    requires states { AllStates (R.takes reader.now) (ty_of ty.now) }
    requires scalar { IsScalar (ty_of ty.now) }
    ensures read { IsScalarAnswer (R.reads reader.now) (ty_of ty.now) field.now result }
    ensures fits { IfOk result (λ value. IsTrue (fits_value (ty_of ty.now) (value_of value))) }
{
    match ty {
        Ty::U8 | Ty::U16 | Ty::U32 | Ty::U64 => read_integer(ty, field),
        Ty::I8 | Ty::I16 | Ty::I32 | Ty::I64 => read_integer(ty, field),
        Ty::Str => read_string(alloc, field),
        Ty::State(_, _) => read_state(alloc, reader, ty, field),
        Ty::Nullable(of) => read_scalar(alloc, reader, of.get(), field),
        Ty::Arr(_) | Ty::Map(_, _) => unreachable!(),
    }
}

/// What `\N` says: NULL where the type is Nullable.
///
/// # Errors
///
/// [`FieldFault::NotNullable`] where it isn't.
#[tactic(auto, using(value_types::proofs::FoldLaws::value_laws))]
pub fn read_null(ty: &Ty) -> Result<Value, FieldFault>
    ensures read { Agrees (null_answer (ty_of ty.now)) result }
    ensures fits { IfOk result (λ value. IsTrue (fits_value (ty_of ty.now) (value_of value))) }
{
    if is_nullable(ty) {
        Ok(Value::Nil)
    } else {
        Err(FieldFault::NotNullable)
    }
}

/// Whether the field is `\N`.
pub fn is_null(field: &[u8]) -> bool
    ensures { result ≡ is_null_text field.now }
{
    matches!(field, [b'\\', b'N'])
}
