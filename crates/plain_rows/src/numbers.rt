//! Sums of numbers.
ghost use Rattle.std.specs.Prelude.{◌≡◌, ◌^◌, pos, map};
ghost use Rattle.std.specs.Int.{int_rem_euclid};
ghost use Rattle.agg_terms.specs.Types as types;
ghost use Rattle.agg_meaning.specs.Functions as terms;
ghost use Rattle.value_types.specs.Folds.{ty_of};
ghost use Rattle.plain_rows.specs.Rows.{first_number, rows_of};

use crate::arguments::number;
use value_types::{Seq, Ty, Value, is_signed};

/// 2 to the power of 63, and of 64.
const HALF: i128 = 9223372036854775808;

const WHOLE: i128 = 18446744073709551616;

/// The sum of the rows' first arguments, modulo 2^64.
pub fn sum(rows: &[Seq<Value>]) -> i128
    ensures { result ≡ int_rem_euclid (terms.sum_of (map first_number (rows_of rows.now))) (pos (2 ^ 64)) }
{
    match rows {
        [] => 0,
        [first, rest @ ..] => {
            let last = number(first.as_slice()).rem_euclid(WHOLE);
            (last + sum(rest)).rem_euclid(WHOLE)
        }
    }
}

/// The sum modulo 2^64, in Int64 where the type's numbers are signed.
#[tactic(auto, using(crate::proofs::Totals::total_laws))]
pub fn total(ty: &Ty, rows: &[Seq<Value>]) -> i128
    ensures { result ≡ terms.wrapped (types.is_signed (ty_of ty.now)) (terms.sum_of (map first_number (rows_of rows.now))) }
{
    let sum = sum(rows);
    if !is_signed(ty) {
        return sum;
    }
    if sum >= HALF { sum - WHOLE } else { sum }
}
