//! The types of numbers, and numbers as bits: a signed one in two's complement.
ghost use Rattle.std.specs.Prelude.{◌≡◌, ◌<◌, ◌^◌, pos};
ghost use Rattle.agg_terms.specs.Types.{bare, is_signed as signed};
ghost use Rattle.agg_meaning.specs.Functions.{bits_in, from_bits_in, residue};
ghost use Rattle.agg_meaning.specs.Lawful.{IsNumber};
ghost use Rattle.value_types.specs.Folds.{ty_of};
ghost use Rattle.int_leaves.specs.Parts.{number_ty};

use value_types::Ty;

/// A type of numbers.
#[derive(Clone, Copy)]
pub enum Number {
    U8,
    U16,
    U32,
    U64,
    I8,
    I16,
    I32,
    I64,
}

/// The type of numbers that a type is, taken without Nullable.
pub fn number_of(ty: &Ty) -> Number
    requires { IsNumber (bare (ty_of ty.now)) }
    ensures { number_ty result ≡ bare (ty_of ty.now) }
{
    match value_types::bare(ty) {
        Ty::U8 => Number::U8,
        Ty::U16 => Number::U16,
        Ty::U32 => Number::U32,
        Ty::U64 => Number::U64,
        Ty::I8 => Number::I8,
        Ty::I16 => Number::I16,
        Ty::I32 => Number::I32,
        _ => Number::I64,
    }
}

fn is_signed(number: Number) -> bool
    ensures { result ≡ signed (number_ty number) }
{
    match number {
        Number::U8 | Number::U16 | Number::U32 | Number::U64 => false,
        Number::I8 | Number::I16 | Number::I32 | Number::I64 => true,
    }
}

/// 2 to the power of the type's width.
fn whole(number: Number) -> i128
    ensures { result ≡ pos (2 ^ bits_in (number_ty number)) }
{
    match number {
        Number::U8 | Number::I8 => 256,
        Number::U16 | Number::I16 => 65536,
        Number::U32 | Number::I32 => 4294967296,
        Number::U64 | Number::I64 => 18446744073709551616,
    }
}

/// The bits of a number in a type.
pub fn to_bits(number: Number, value: i128) -> u64
    ensures bits { result ≡ residue (bits_in (number_ty number)) value }
    ensures in_range { result < 2 ^ bits_in (number_ty number) }
{
    match number {
        Number::U8 | Number::I8 => value.rem_euclid(256) as u64,
        Number::U16 | Number::I16 => value.rem_euclid(65536) as u64,
        Number::U32 | Number::I32 => value.rem_euclid(4294967296) as u64,
        Number::U64 | Number::I64 => value.rem_euclid(18446744073709551616) as u64,
    }
}

/// The number with these bits.
pub fn from_bits(number: Number, bits: u64) -> i128
    requires { bits < 2 ^ bits_in (number_ty number) }
    ensures { result ≡ from_bits_in (number_ty number) bits }
{
    let value = i128::from(bits);
    let whole = whole(number);
    if is_signed(number) && 2 * value >= whole {
        value - whole
    } else {
        value
    }
}
