//! The word of one row, and that of a tree.
ghost use Rattle.std.specs.Prelude.{◌≡◌, ◌<◌, ◌≤◌, ◌^◌, map};
ghost use Rattle.agg_meaning.specs.Events.{bit as bit_of, is_met, mask_of, mets};
ghost use Rattle.agg_meaning.specs.Functions.{arg, bits_in, number as number_of};
ghost use Rattle.int_leaves.specs.Parts.{function_leaf, number_ty};
ghost use Rattle.int_leaves.specs.Rows.{argument};
ghost use Rattle.value_types.specs.Folds.{tree_of};
ghost use Rattle.int_leaves.specs.Words.{IfWord, row_word as word_of_row, tree_word, word_type};

use crate::function::Function;
use crate::number::{Number, to_bits};
use typed_columns::Item;
use value_types::Tree;

/// The number that an argument is, 0 where it is none.
#[tactic(auto, using(value_types::proofs::FoldLaws::value_laws))]
fn number_in(item: &Item<'_>) -> i128
    ensures { result ≡ number_of (argument item.now) }
{
    match item {
        Item::Num(number) => *number,
        _ => 0,
    }
}

/// The number of the first argument, 0 where there is none.
fn first_number(row: &[Item<'_>]) -> i128
    ensures { result ≡ number_of (arg 0 (map argument row.now)) }
{
    match row {
        [first, ..] => number_in(first),
        [] => 0,
    }
}

/// Whether an argument is a condition that is met.
#[tactic(auto, using(value_types::proofs::FoldLaws::value_laws))]
fn met(item: &Item<'_>) -> bool
    ensures { result ≡ is_met (argument item.now) }
{
    match item {
        Item::Num(number) => *number != 0,
        _ => false,
    }
}

/// Whether the argument at a place is a condition that is met.
fn met_at(row: &[Item<'_>], place: usize) -> bool
    ensures { result ≡ is_met (arg place (map argument row.now)) }
{
    match row.get(place) {
        Some(item) => met(item),
        None => false,
    }
}

fn bit(is_set: bool) -> u64
    ensures { result ≡ bit_of is_set }
{
    if is_set { 1 } else { 0 }
}

/// The conditions that a row meets, condition i as bit i - 1.
#[tactic(auto, using(crate::proofs::Parts::mets_next, crate::proofs::Parts::mask_next))]
fn mask(conditions: u32, row: &[Item<'_>]) -> u64
    requires { conditions ≤ 32 }
    ensures { result ≡ mask_of (mets conditions (map argument row.now)) }
{
    let mut mask: u64 = 0;
    for read in 0..conditions {
        let place = (conditions - 1 - read) as usize;
        mask = 2 * mask + bit(met_at(row, place));
    }
    mask
}

/// The word of one row of so many arguments.
pub fn row_word(function: Function, number: Number, arguments: u32, row: &[Item<'_>]) -> u64
    requires { arguments ≤ 32 }
    ensures word { result ≡ word_of_row (function_leaf function) (number_ty number) arguments (map argument row.now) }
    ensures in_range { result < 2 ^ bits_in (word_type (function_leaf function) (number_ty number)) }
{
    match function {
        Function::Count => 1,
        Function::Retention => mask(arguments, row),
        _ => to_bits(number, first_number(row)),
    }
}

/// The word of a tree, if it has one.
#[tactic(auto, using(value_types::proofs::FoldLaws::tree_laws))]
pub fn word_in(number: Number, tree: &Tree) -> Option<u64>
    ensures word { result ≡ tree_word (number_ty number) (tree_of tree.now) }
    ensures in_range { IfWord (λ x. x < 2 ^ bits_in (number_ty number)) result }
{
    match tree {
        Tree::Word(word) => Some(to_bits(number, *word)),
        _ => None,
    }
}
