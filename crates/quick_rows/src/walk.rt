//! A front of a text, judged and not kept: the same fields are regular as in field.rt.
ghost use Rattle.std.specs.Prelude.{◌≡◌, ◌++◌, ◌∷◌, List, ℕ, pos, IfSome, IsTrue};
ghost use Rattle.field_texts.specs.Syntax.{IsNumber};
ghost use Rattle.scalar_texts.specs.Numbers.{number_value, signed};
ghost use Rattle.column_parts.specs.NumberLists.{IsOf, greatest, least};
ghost use Rattle.typed_columns.specs.Views.{number_ty};
ghost use Rattle.value_types.specs.declared.ty.Ty.TheVariants as ty;
ghost use Rattle.quick_rows.specs.Keeping.{IsStep};
ghost use Rattle.quick_rows.specs.proving.Walking.{IsArrayStep, IsNullableStep, WalksElements, WalksFirst, WalksNumber, WalksStep, WalksText, element_ty, safe_digits};

use crate::field::Front;
use crate::number::{digit_count, front_digits, front_number, split_sign};
use crate::quoted::{first_plain, front_quoted};
use column_parts::NumberType;
use value_types::Ty;

/// What is done with the fields of a column.
#[derive(Clone, Copy)]
pub enum Step {
    /// They are kept.
    Keep,
    /// Numbers, strings and arrays of either are judged where they are regular.
    Number(NumberType),
    Text,
    Numbers(NumberType),
    Texts,
    /// The same of numbers and strings that may be NULL.
    NullableNumber(NumberType),
    NullableText,
    /// States are read and dropped.
    State,
    /// The slow judge has them.
    Leave,
}

/// What is done with the fields of a type that are kept, or aren't.
pub fn step_of(ty: &Ty, keep: bool) -> Step
    ensures { IsStep ty.now keep result }
{
    if keep {
        return Step::Keep;
    }
    if let Some(kind) = number_kind(ty) {
        return Step::Number(kind);
    }
    match ty {
        Ty::Str => Step::Text,
        Ty::Arr(of) => step_of_array(of.get()),
        Ty::Nullable(of) => step_of_nullable(of.get()),
        Ty::State(_, _) => Step::State,
        _ => Step::Leave,
    }
}

fn step_of_nullable(of: &Ty) -> Step
    ensures { IsNullableStep of.now result }
{
    if let Some(kind) = number_kind(of) {
        return Step::NullableNumber(kind);
    }
    match of {
        Ty::Str => Step::NullableText,
        _ => Step::Leave,
    }
}

fn step_of_array(of: &Ty) -> Step
    ensures { IsArrayStep of.now result }
{
    if let Some(kind) = number_kind(of) {
        return Step::Numbers(kind);
    }
    match of {
        Ty::Str => Step::Texts,
        _ => Step::Leave,
    }
}

/// Judges a front of a text, and tells what stands behind it.
#[inline(always)]
#[tactic(auto, using(crate::proofs::Walks::step_laws))]
pub(crate) fn walk_first<'a>(step: Step, text: &'a [u8]) -> Front<'a>
    ensures { WalksStep step text.now result }
{
    match step {
        Step::Number(kind) => walk_number(kind, text),
        Step::Text => walk_text(text),
        Step::Numbers(kind) => walk_list(Some(kind), text),
        Step::Texts => walk_list(None, text),
        Step::NullableNumber(kind) => walk_nullable(Some(kind), text),
        Step::NullableText => walk_nullable(None, text),
        Step::Keep | Step::State | Step::Leave => Front::Irregular,
    }
}

#[inline(always)]
fn number_kind(ty: &Ty) -> Option<NumberType>
    ensures { IfSome result (λ kind. ty.now ≡ number_ty kind) }
{
    match ty {
        Ty::U8 => Some(NumberType::U8),
        Ty::U16 => Some(NumberType::U16),
        Ty::U32 => Some(NumberType::U32),
        Ty::U64 => Some(NumberType::U64),
        Ty::I8 => Some(NumberType::I8),
        Ty::I16 => Some(NumberType::I16),
        Ty::I32 => Some(NumberType::I32),
        Ty::I64 => Some(NumberType::I64),
        _ => None,
    }
}

#[inline(always)]
fn least(kind: NumberType) -> i64
    ensures { result ≡ least kind }
{
    match kind {
        NumberType::I8 => -128,
        NumberType::I16 => -32_768,
        NumberType::I32 => -2_147_483_648,
        NumberType::I64 => -9_223_372_036_854_775_808,
        NumberType::U8 | NumberType::U16 | NumberType::U32 | NumberType::U64 => 0,
    }
}

#[inline(always)]
fn greatest(kind: NumberType) -> u64
    ensures { pos result ≡ greatest kind }
{
    match kind {
        NumberType::U8 => 255,
        NumberType::U16 => 65_535,
        NumberType::U32 => 4_294_967_295,
        NumberType::U64 => 18_446_744_073_709_551_615,
        NumberType::I8 => 127,
        NumberType::I16 => 32_767,
        NumberType::I32 => 2_147_483_647,
        NumberType::I64 => 9_223_372_036_854_775_807,
    }
}

#[inline(always)]
fn is_of(kind: NumberType, number: i128) -> bool
    ensures { IsTrue result → IsOf kind number }
{
    i128::from(least(kind)) <= number && number <= i128::from(greatest(kind))
}

/// The sign and the size of the number at the front of a text, and what stands behind its digits. `None` says nothing of the text.
#[inline(always)]
fn front_sized(text: &[u8]) -> Option<((bool, u64), &[u8])>
    ensures { IfSome result (λ found. (front : List ℕ) × (text.now ≡ front ++ found.1.now) × IsNumber front × (number_value front ≡ signed found.0.0 found.0.1)) }
{
    let (minus, digits) = split_sign(text);
    match front_digits(digits) {
        Some((size, left)) => {
            if left.len() == digits.len() {
                return None;
            }
            Some(((minus, size), left))
        }
        None => None,
    }
}

#[inline(always)]
fn is_sized(kind: NumberType, minus: bool, size: u64) -> bool
    ensures { IsTrue result → IsOf kind (signed minus size) }
{
    if minus {
        is_of(kind, -i128::from(size))
    } else {
        size <= greatest(kind)
    }
}

/// How many digits a number may have that is of a type whatever they are.
#[inline(always)]
fn safe_digits(kind: NumberType) -> usize
    ensures { result ≡ safe_digits kind }
{
    match kind {
        NumberType::U8 | NumberType::I8 => 2,
        NumberType::U16 | NumberType::I16 => 4,
        NumberType::U32 | NumberType::I32 => 9,
        NumberType::I64 => 18,
        NumberType::U64 => 19,
    }
}

#[inline(always)]
fn walk_number<'a>(kind: NumberType, text: &'a [u8]) -> Front<'a>
    ensures { WalksNumber kind text.now result }
{
    let count = digit_count(text);
    if count == 0 || count > safe_digits(kind) {
        return walk_any_number(kind, text);
    }
    Front::Taken(text.split_at(count).1)
}

/// The same of a number with a sign or with many digits.
#[inline(never)]
fn walk_any_number<'a>(kind: NumberType, text: &'a [u8]) -> Front<'a>
    ensures { WalksNumber kind text.now result }
{
    let Some(((minus, size), left)) = front_sized(text) else {
        return Front::Irregular;
    };
    if is_sized(kind, minus, size) {
        return Front::Taken(left);
    }
    Front::Irregular
}

#[inline(always)]
fn walk_text<'a>(text: &'a [u8]) -> Front<'a>
    ensures { WalksText text.now result }
{
    let (_, left) = first_plain(text);
    Front::Taken(left)
}

// The same of a number of a type, or of a string, where NULL may stand.
#[inline(always)]
fn walk_nullable<'a>(kind: Option<NumberType>, text: &'a [u8]) -> Front<'a>
    ensures { WalksFirst (ty.Nullable (element_ty kind)) text.now result }
{
    match text {
        [b'\\', b'N', left @ ..] => Front::Taken(left),
        _ => walk_filled(kind, text),
    }
}

// The same of a field that isn't `\N`.
#[inline(always)]
#[tactic(auto, using(crate::proofs::Walks::filled_laws))]
fn walk_filled<'a>(kind: Option<NumberType>, text: &'a [u8]) -> Front<'a>
    ensures { WalksFirst (ty.Nullable (element_ty kind)) text.now result }
{
    match kind {
        Some(kind) => walk_number(kind, text),
        None => walk_text(text),
    }
}

// The same of an array of numbers of a type, or of strings.
#[inline(always)]
fn walk_list<'a>(kind: Option<NumberType>, text: &'a [u8]) -> Front<'a>
    ensures { WalksElements (element_ty kind) text.now result }
{
    match text {
        [b'[', b']', left @ ..] => Front::Taken(left),
        [b'[', inside @ ..] => walk_inside(kind, inside),
        _ => Front::Irregular,
    }
}

/// The same of one element or more, from behind the opening bracket on.
#[inline(always)]
fn walk_inside<'a>(kind: Option<NumberType>, inside: &'a [u8]) -> Front<'a>
    ensures { WalksElements (element_ty kind) (91 ∷ inside.now) result }
{
    match kind {
        Some(kind) => walk_numbers(kind, inside),
        None => walk_texts(inside),
    }
}

#[inline(never)]
fn walk_numbers<'a>(kind: NumberType, inside: &'a [u8]) -> Front<'a>
    ensures { WalksElements (number_ty kind) (91 ∷ inside.now) result }
{
    let mut left = inside;
    while let Some((number, behind)) = front_number(left) {
        if !is_of(kind, number) {
            return Front::Irregular;
        }
        match behind {
            [b',', after @ ..] => left = after,
            [b']', after @ ..] => return Front::Taken(after),
            _ => return Front::Irregular,
        }
    }
    Front::Irregular
}

#[inline(always)]
fn walk_texts<'a>(inside: &'a [u8]) -> Front<'a>
    ensures { WalksElements ty.Str (91 ∷ inside.now) result }
{
    let mut left = inside;
    while let Some((_, behind)) = front_quoted(left) {
        match behind {
            [b',', after @ ..] => left = after,
            [b']', after @ ..] => return Front::Taken(after),
            _ => return Front::Irregular,
        }
    }
    Front::Irregular
}
