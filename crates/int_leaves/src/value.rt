//! What a word means.
ghost use Rattle.std.specs.Prelude.{◌≡◌, ◌&&◌, ◌<◌, ◌≤◌, ◌-◌, ◌^◌, IfOk, None, Some, map};
ghost use Rattle.agg_meaning.specs.Events.{bools, flag as flag_of, is_in, retained as retained_of};
ghost use Rattle.agg_meaning.specs.Functions.{bits_in};
ghost use Rattle.value_types.specs.Folds.{value_of};
ghost use Rattle.int_leaves.specs.Parts.{function_leaf, function_result, number_ty};
ghost use Rattle.int_leaves.specs.Words.{IfWord, IsNumberFunction, none_number, word_type, word_value};

use crate::function::Function;
use crate::join::word_number;
use crate::made::Made;
use crate::number::{Number, from_bits};
use std::alloc::Global;
use value_types::{OutOfMemory, Seq, Value};

/// The bits of a type, all of them ones.
fn ones(number: Number) -> u64
    ensures { result ≡ 2 ^ bits_in (number_ty number) - 1 }
{
    match number {
        Number::U8 | Number::I8 => 255,
        Number::U16 | Number::I16 => 65535,
        Number::U32 | Number::I32 => 4294967295,
        Number::U64 | Number::I64 => 18446744073709551615,
    }
}

/// The number over no rows: 0, or all ones for groupBitAnd.
#[tactic(auto, using(crate::proofs::Meanings::numbers_of_none))]
fn number_of_none(function: Function, number: Number) -> i128
    ensures { result ≡ none_number (function_leaf function) (number_ty number) }
{
    match function {
        Function::BitAnd => from_bits(number, ones(number)),
        _ => 0,
    }
}

/// The value over no rows: that number, or NULL where the result is Nullable.
/// (ClickHouse manual: "Aggregate functions reference". What stands for no rows is this project's own choice.)
#[tactic(auto, using(crate::proofs::Meanings::values_of_none))]
fn none_value(made: Made) -> Value
    requires { IsNumberFunction (function_leaf made.function) }
    ensures { value_of result ≡ word_value (function_leaf made.function) (function_result made.function made.number made.nullable) made.arguments None }
{
    match made.function {
        Function::Count => Value::Num(0),
        _ => {
            if made.nullable {
                Value::Nil
            } else {
                Value::Num(number_of_none(made.function, made.number))
            }
        }
    }
}

/// The value of a word.
#[tactic(auto, using(crate::proofs::Meanings::some_is))]
fn some_value(made: Made, bits: u64) -> Value
    requires function { IsNumberFunction (function_leaf made.function) }
    requires in_range { bits < 2 ^ bits_in (word_type (function_leaf made.function) (number_ty made.number)) }
    ensures { value_of result ≡ word_value (function_leaf made.function) (function_result made.function made.number made.nullable) made.arguments (Some bits) }
{
    Value::Num(from_bits(word_number(made.function, made.number), bits))
}

/// Whether both the first condition and that at a place were met.
fn met_with_first(mask: u64, place: u32) -> bool
    requires { place < 64 }
    ensures { result ≡ is_in 0 mask && is_in place mask }
{
    mask % 2 == 1 && (mask >> place) % 2 == 1
}

/// 1 or 0.
#[tactic(auto, using(value_types::proofs::FoldLaws::value_laws))]
fn flag(is_met: bool) -> Value
    ensures { value_of result ≡ flag_of is_met }
{
    Value::Num(if is_met { 1 } else { 0 })
}

/// The numbers of retention for a set of conditions met: the first condition alone, then each other one with it.
/// (ClickHouse manual: "Parametric aggregate functions", retention.)
#[tactic(auto, using(crate::proofs::Retained::with_next))]
fn retained(alloc: Global, conditions: u32, mask: u64) -> Result<Seq<Value>, OutOfMemory>
    requires { conditions ≤ 32 }
    ensures { IfOk result (λ numbers. map value_of numbers ≡ retained_of (bools conditions mask)) }
{
    let mut numbers = Seq::new(alloc);
    numbers.reserve(conditions as usize)?;
    for place in 0..conditions {
        numbers.push(flag(met_with_first(mask, place)))?;
    }
    Ok(numbers)
}

/// The value of the word of a list of rows.
pub fn word_means(alloc: Global, made: Made, word: Option<u64>) -> Result<Value, OutOfMemory>
    requires few { made.arguments ≤ 32 }
    requires in_range { IfWord (λ x. x < 2 ^ bits_in (word_type (function_leaf made.function) (number_ty made.number))) word }
    ensures { IfOk result (λ v. value_of v ≡ word_value (function_leaf made.function) (function_result made.function made.number made.nullable) made.arguments word) }
{
    match made.function {
        Function::Retention => {
            let mask = word.unwrap_or(0);
            Ok(Value::List(retained(alloc, made.arguments, mask)?))
        }
        _ => match word {
            None => Ok(none_value(made)),
            Some(bits) => Ok(some_value(made, bits)),
        },
    }
}
