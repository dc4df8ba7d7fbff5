//! Numbers as values, and the numbers that values are.
ghost use Rattle.std.specs.Prelude.{◌≡◌, IfOk, map};
ghost use Rattle.agg_meaning.specs.Functions.{number};
ghost use Rattle.value_types.specs.Folds.{value_of};
ghost use Rattle.value_types.specs.declared.value.Value.TheVariants as form;

use std::alloc::Global;
use value_types::{OutOfMemory, Seq, Value};

/// Values that are these numbers.
///
/// # Errors
///
/// [`OutOfMemory`] where there is no room for them.
pub fn values_of(alloc: Global, numbers: &[i128]) -> Result<Seq<Value>, OutOfMemory>
    ensures { IfOk result (λ values. values ≡ map form.Num numbers.now) }
{
    let mut values = Seq::new(alloc);
    values.reserve(numbers.len())?;
    for number in numbers {
        values.push(Value::Num(*number))?;
    }
    Ok(values)
}

/// The number that a value is, 0 where it is none.
#[tactic(auto, using(value_types::proofs::FoldLaws::value_laws))]
fn number_or_0(value: &Value) -> i128
    ensures { result ≡ number (value_of value.now) }
{
    match value {
        Value::Num(number) => *number,
        _ => 0,
    }
}

/// The numbers that values are.
///
/// # Errors
///
/// [`OutOfMemory`] where there is no room for them.
pub fn numbers_in(alloc: Global, values: &[Value]) -> Result<Seq<i128>, OutOfMemory>
    ensures { IfOk result (λ numbers. numbers ≡ map number (map value_of values.now)) }
{
    let mut numbers = Seq::new(alloc);
    numbers.reserve(values.len())?;
    for value in values {
        numbers.push(number_or_0(value))?;
    }
    Ok(numbers)
}
