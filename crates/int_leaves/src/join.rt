//! Two words made one: the step of every feed and of every merge.
ghost use Rattle.std.specs.Prelude.{◌≡◌, ◌<◌, ◌^◌};
ghost use Rattle.agg_meaning.specs.Functions.{bits_in};
ghost use Rattle.int_leaves.specs.Parts.{function_leaf, number_ty};
ghost use Rattle.int_leaves.specs.Words.{IfWord, KeepsWord, both_words, joined as joined_words, word_type};

use crate::function::Function;
use crate::number::{Number, from_bits};

/// The type of the function's word.
pub fn word_number(function: Function, number: Number) -> Number
    ensures { number_ty result ≡ word_type (function_leaf function) (number_ty number) }
{
    match function {
        Function::Count | Function::Retention => Number::U64,
        _ => number,
    }
}

/// Two words made one, the second of later rows. Of two equal numbers the first stays.
fn joined(function: Function, number: Number, x: u64, y: u64) -> u64
    requires x { x < 2 ^ bits_in (word_type (function_leaf function) (number_ty number)) }
    requires y { y < 2 ^ bits_in (word_type (function_leaf function) (number_ty number)) }
    requires keeps { KeepsWord (function_leaf function) (number_ty number) }
    ensures { result ≡ joined_words (function_leaf function) (number_ty number) x y }
{
    match function {
        Function::Count | Function::Sum => x.wrapping_add(y),
        Function::Min => {
            if from_bits(number, y) < from_bits(number, x) {
                y
            } else {
                x
            }
        }
        Function::Max => {
            if from_bits(number, y) > from_bits(number, x) {
                y
            } else {
                x
            }
        }
        Function::BitAnd => x & y,
        Function::BitOr | Function::Retention => x | y,
        Function::BitXor => x ^ y,
    }
}

/// The word of two lists of rows, the second behind the first; a list of no rows has none.
#[tactic(auto, using(crate::proofs::Parts::joined_lt))]
pub fn both(
    function: Function,
    number: Number,
    word: Option<u64>,
    later: Option<u64>,
) -> Option<u64>
    requires keeps { KeepsWord (function_leaf function) (number_ty number) }
    requires word { IfWord (λ x. x < 2 ^ bits_in (word_type (function_leaf function) (number_ty number))) word }
    requires later { IfWord (λ x. x < 2 ^ bits_in (word_type (function_leaf function) (number_ty number))) later }
    ensures word { result ≡ both_words (joined_words (function_leaf function) (number_ty number)) word later }
    ensures in_range { IfWord (λ x. x < 2 ^ bits_in (word_type (function_leaf function) (number_ty number))) result }
{
    match (word, later) {
        (None, _) => later,
        (_, None) => word,
        (Some(x), Some(y)) => Some(joined(function, number, x, y)),
    }
}
