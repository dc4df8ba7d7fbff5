//! The value of a row.
ghost use Rattle.std.specs.Prelude.{◌≡◌, map};
ghost use Rattle.agg_meaning.specs.Functions.{number as number_of, the_arg};
ghost use Rattle.list_leaves.specs.Rows.{argument};

use typed_columns::Item;

/// The first item of a row, NULL where there is none.
#[inline]
#[tactic(auto, using(value_types::proofs::FoldLaws::value_laws))]
pub fn first_item<'a>(row: &[Item<'a>]) -> Item<'a>
    ensures { argument result ≡ the_arg (map argument row.now) }
{
    match row {
        [first, ..] => *first,
        [] => Item::Nil,
    }
}

/// The number that an item is, 0 where it is none.
#[inline]
#[tactic(auto, using(value_types::proofs::FoldLaws::value_laws))]
pub fn number_in(item: &Item<'_>) -> i128
    ensures { result ≡ number_of (argument item.now) }
{
    match item {
        Item::Num(number) => *number,
        _ => 0,
    }
}
