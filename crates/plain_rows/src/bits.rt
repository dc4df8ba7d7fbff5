//! Bits of numbers, and the folds over them.
ghost use Rattle.std.specs.Prelude.{◌≡◌, ◌<◌, ◌^◌, ◌-◌, ◌<ℤ◌, ◌≤ℤ◌, pos};
ghost use Rattle.agg_meaning.specs.Functions as terms;
ghost use Rattle.value_types.specs.Folds.{ty_of};
ghost use Rattle.plain_rows.specs.Operations.{op_of};
ghost use Rattle.plain_rows.specs.Rows.{rows_of};

use crate::arguments::number;
use value_types::{Seq, Ty, Value, is_signed};

/// A fold over bits.
#[derive(Clone, Copy)]
pub enum Operation {
    And,
    Or,
    Xor,
}

/// 2 to the power of how many bits the type has.
fn whole(ty: &Ty) -> i128
    ensures value { result ≡ pos (2 ^ terms.bits_in (ty_of ty.now)) }
    ensures some { pos 0 <ℤ result }
    ensures most { result ≤ℤ pos (2 ^ 64) }
{
    match ty {
        Ty::U8 | Ty::I8 => 256,
        Ty::U16 | Ty::I16 => 65536,
        Ty::U32 | Ty::I32 => 4294967296,
        Ty::U64 | Ty::I64 => 18446744073709551616,
        Ty::Nullable(of) => whole(of.get()),
        _ => 1,
    }
}

/// The bits of a number in a type, a negative one in two's complement.
#[tactic(auto, using(crate::proofs::Rests::rest_laws))]
fn to_bits(ty: &Ty, number: i128) -> u64
    ensures bits { result ≡ terms.residue (terms.bits_in (ty_of ty.now)) number }
    ensures within { result < 2 ^ terms.bits_in (ty_of ty.now) }
{
    let bits = number.rem_euclid(whole(ty));
    bits as u64
}

/// The number of a type with these bits.
#[tactic(auto, using(crate::proofs::SignedBits::bits_laws))]
pub fn from_bits(ty: &Ty, bits: u64) -> i128
    requires { bits < 2 ^ terms.bits_in (ty_of ty.now) }
    ensures { result ≡ terms.from_bits_in (ty_of ty.now) bits }
{
    let number = i128::from(bits);
    let whole = whole(ty);
    if !is_signed(ty) {
        return number;
    }
    if 2 * number >= whole {
        number - whole
    } else {
        number
    }
}

/// All bits of a type.
fn ones(ty: &Ty) -> u64
    ensures { result ≡ 2 ^ terms.bits_in (ty_of ty.now) - 1 }
{
    (whole(ty) - 1) as u64
}

fn combined(operation: Operation, a: u64, b: u64) -> u64
    ensures { result ≡ terms.bit_op (op_of operation) a b }
{
    match operation {
        Operation::And => a & b,
        Operation::Or => a | b,
        Operation::Xor => a ^ b,
    }
}

/// The bits of the rows' first arguments combined, none of no rows.
pub fn folded(operation: Operation, ty: &Ty, rows: &[Seq<Value>]) -> Option<u64>
    ensures { result ≡ terms.folded (terms.bit_op (op_of operation)) (terms.bits_of_rows (ty_of ty.now) (rows_of rows.now)) }
{
    match rows {
        [] => None,
        [first, rest @ ..] => {
            let bits = to_bits(ty, number(first.as_slice()));
            match folded(operation, ty, rest) {
                None => Some(bits),
                Some(later) => Some(combined(operation, bits, later)),
            }
        }
    }
}

/// The bits over no rows.
pub fn bits_of_none(operation: Operation, ty: &Ty) -> u64
    ensures value { result ≡ terms.bits_of_none (op_of operation) (terms.bits_in (ty_of ty.now)) }
    ensures within { result < 2 ^ terms.bits_in (ty_of ty.now) }
{
    match operation {
        Operation::And => ones(ty),
        Operation::Or | Operation::Xor => 0,
    }
}
