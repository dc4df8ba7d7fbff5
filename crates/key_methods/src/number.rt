//! A number's bytes as one word, and back.
ghost use Rattle.std.specs.Prelude.{◌≡◌, ◌≤◌, ◌<◌, ◌*◌, ◌+◌, ◌^◌, nat_lt, true};
ghost use Rattle.agg_terms.specs.Trees.{IsValue};
ghost use Rattle.agg_terms.specs.Values.{Num};
ghost use Rattle.key_methods.specs.Figures as figures;
ghost use Rattle.key_methods.specs.proving.Fronts.{number_at};
ghost use Rattle.key_methods.specs.KeyBytes as spec;
ghost use Rattle.key_methods.specs.Kinds.{is_plain_number, width_of};
ghost use Rattle.value_types.specs.Folds.{ty_of, value_of};
ghost use Rattle.std.specs.Prelude.{length};

use value_types::{Ty, Value};

/// The bytes of a number of the type; 0 where it holds no plain numbers.
#[tactic(auto, using(value_types::proofs::FoldLaws::ty_laws))]
pub fn number_width(ty: &Ty) -> usize
    ensures value { result ≡ width_of (ty_of ty.now) }
    ensures bound { result ≤ 8 }
    ensures plain { is_plain_number (ty_of ty.now) ≡ nat_lt 0 result }
{
    match ty {
        Ty::U8 | Ty::I8 => 1,
        Ty::U16 | Ty::I16 => 2,
        Ty::U32 | Ty::I32 => 4,
        Ty::U64 | Ty::I64 => 8,
        _ => 0,
    }
}

/// The number that a number's bytes spell: those of a signed one are in two's complement.
#[tactic(auto, using(crate::proofs::Numbers::number_laws))]
pub fn number_word(ty: &Ty, number: i128) -> u64
    requires { spec.IsNumberOf (ty_of ty.now) number }
    ensures { result ≡ spec.word_of (ty_of ty.now) (Num number) }
{
    match ty {
        Ty::U8 | Ty::U16 | Ty::U32 | Ty::U64 => number as u64,
        Ty::I8 => u64::from((number as i8).cast_unsigned()),
        Ty::I16 => u64::from((number as i16).cast_unsigned()),
        Ty::I32 => u64::from((number as i32).cast_unsigned()),
        Ty::I64 => (number as i64).cast_unsigned(),
        _ => 0,
    }
}

/// The number that the bytes of a value spell, if it is a number; else 0.
#[tactic(auto, using(crate::proofs::Numbers::number_laws))]
pub(crate) fn word_of(ty: &Ty, value: &Value) -> u64
    requires { IsValue (ty_of ty.now) (value_of value.now) }
    ensures value { result ≡ spec.word_of (ty_of ty.now) (value_of value.now) }
{
    match value {
        Value::Num(number) => number_word(ty, *number),
        _ => 0,
    }
}

/// The number whose bytes spell this one.
#[tactic(auto, using(crate::proofs::Numbers::number_laws))]
pub(crate) fn number_of(ty: &Ty, word: u64) -> i128
    requires { word < 256 ^ width_of (ty_of ty.now) }
    ensures { Num result ≡ number_at (ty_of ty.now) word }
{
    match ty {
        Ty::I8 => i128::from((word as u8).cast_signed()),
        Ty::I16 => i128::from((word as u16).cast_signed()),
        Ty::I32 => i128::from((word as u32).cast_signed()),
        Ty::I64 => i128::from(word.cast_signed()),
        _ => i128::from(word),
    }
}

/// The number that at most 8 bytes spell.
pub(crate) fn worth(bytes: &[u8]) -> u64
    requires { length bytes.now ≤ 8 }
    ensures value { result ≡ figures.worth bytes.now }
    ensures below { result < 256 ^ length bytes.now }
{
    let mut word: u64 = 0;
    for byte in bytes {
        word = word * 256 + u64::from(*byte);
    }
    word
}
