//! What single parameters say.
ghost use Rattle.agg_typing.specs.Parameters as parameters;
ghost use Rattle.chain_params.specs.Literals.{literal_of};
ghost use Rattle.std.specs.Prelude.{◌≡◌, ◌≤◌, ◌^◌, IfSome, is_some};

use value_types::Literal;

/// An integer from `low` to `high`.
pub fn natural(low: u64, high: u64, literal: &Literal) -> Option<u64>
    ensures value { result ≡ parameters.natural low high (literal_of literal.now) }
    ensures bound { IfSome result (λ n. n ≤ high) }
{
    match literal {
        Literal::Int(number) => {
            if *number >= low as i128 && *number <= high as i128 {
                Some(*number as u64)
            } else {
                None
            }
        }
        _ => None,
    }
}

/// An integer in the range of Int64.
pub fn int64(literal: &Literal) -> Option<i64>
    ensures { result ≡ parameters.int64 (literal_of literal.now) }
{
    match literal {
        Literal::Int(number) => {
            if *number >= -9223372036854775808 && *number <= 9223372036854775807 {
                Some(*number as i64)
            } else {
                None
            }
        }
        _ => None,
    }
}

/// The largest size of an array, from 1 to 2^32 - 1 (manual: "groupArray").
pub fn max_size(literal: &Literal) -> Option<u32>
    ensures { result ≡ parameters.max_size (literal_of literal.now) }
{
    match natural(1, 4294967295, literal) {
        Some(most) => Some(most as u32),
        None => None,
    }
}

/// The window of a funnel, from 0 to 2^64 - 1 (manual: "windowFunnel").
pub fn window(literal: &Literal) -> Option<u64>
    ensures { result ≡ parameters.window (literal_of literal.now) }
{
    natural(0, u64::MAX, literal)
}

/// Whether a parameter is the mode of a funnel whose times must rise (manual: "windowFunnel").
pub fn is_strict_increase(literal: &Literal) -> bool
    ensures { result ≡ is_some (parameters.mode (literal_of literal.now)) }
{
    match literal {
        Literal::Text(bytes) => bytes.as_slice() == b"strict_increase".as_slice(),
        _ => false,
    }
}

fn power_of_ten(places: u32) -> u64
    requires { places ≤ 9 }
    ensures { result ≡ 10 ^ places }
{
    match places {
        0 => 1,
        1 => 10,
        2 => 100,
        3 => 1000,
        4 => 10000,
        5 => 100000,
        6 => 1000000,
        7 => 10000000,
        8 => 100000000,
        _ => 1000000000,
    }
}

/// A level in billionths: 0 or 1, or a decimal of one to nine places from 0 to 1 (manual: "quantileExact").
pub fn level(literal: &Literal) -> Option<u32>
    ensures { result ≡ parameters.level (literal_of literal.now) }
{
    match literal {
        Literal::Int(number) => {
            if *number == 0 {
                Some(0)
            } else if *number == 1 {
                Some(1000000000)
            } else {
                None
            }
        }
        Literal::Decimal { units, places } => {
            if *places >= 1 && *places <= 9 && *units <= power_of_ten(*places) {
                Some((*units * power_of_ten(9 - *places)) as u32)
            } else {
                None
            }
        }
        Literal::Text(_) => None,
    }
}
