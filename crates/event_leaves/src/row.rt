//! The event of one row: its time, and the conditions that it meets.
ghost use Rattle.std.specs.Prelude.{◌≡◌, ◌<◌, ◌≤◌, ◌%◌, ◌^◌, [], ◌∷◌, map};
ghost use Rattle.agg_meaning.specs.Events.{bit as bit_of, is_met, mask_of, mets, time_of};
ghost use Rattle.agg_meaning.specs.Functions.{arg};
ghost use Rattle.agg_terms.specs.Lists.{rest_of as rest_of_list};
ghost use Rattle.event_leaves.specs.Rows.{argument, event_read};
ghost use Rattle.value_types.specs.Folds.{event_of};

use typed_columns::Item;
use value_types::Event;

/// The time that an argument is: a number of 64 bits.
#[tactic(auto, using(value_types::proofs::FoldLaws::value_laws, crate::proofs::Masks::time_kept))]
fn time_in(item: &Item<'_>) -> u64
    ensures { result ≡ time_of (argument item.now ∷ []) % 2 ^ 64 }
{
    match item {
        Item::Num(time) => {
            if *time >= 0 {
                (*time).rem_euclid(18446744073709551616) as u64
            } else {
                0
            }
        }
        _ => 0,
    }
}

/// The time of a row, the first argument.
#[tactic(auto, using(crate::proofs::Masks::time_first))]
fn time(row: &[Item<'_>]) -> u64
    ensures { result ≡ time_of (map argument row.now) % 2 ^ 64 }
{
    match row {
        [first, ..] => time_in(first),
        [] => 0,
    }
}

/// Whether an argument is a condition that is met.
#[tactic(auto, using(value_types::proofs::FoldLaws::value_laws))]
fn met(item: &Item<'_>) -> bool
    ensures { result ≡ is_met (argument item.now) }
{
    match item {
        Item::Num(number) => *number != 0,
        _ => false,
    }
}

/// Whether the argument at a place is a condition that is met.
fn met_at(row: &[Item<'_>], place: usize) -> bool
    ensures { result ≡ is_met (arg place (map argument row.now)) }
{
    match row.get(place) {
        Some(item) => met(item),
        None => false,
    }
}

fn bit(is_set: bool) -> u32
    ensures { result ≡ bit_of is_set }
{
    if is_set { 1 } else { 0 }
}

/// The conditions that are met, condition i as bit i - 1.
#[tactic(auto, using(crate::proofs::Masks::mets_next, crate::proofs::Masks::mask_next))]
fn mask(conditions: u32, row: &[Item<'_>]) -> u32
    requires { conditions ≤ 32 }
    ensures mask { result ≡ mask_of (mets conditions (map argument row.now)) }
    ensures in_range { result < 2 ^ conditions }
{
    let mut mask: u32 = 0;
    for read in 0..conditions {
        let place = (conditions - 1 - read) as usize;
        mask = 2 * mask + bit(met_at(row, place));
    }
    mask
}

/// All but the first argument.
fn rest_of<'a>(row: &'a [Item<'a>]) -> &'a [Item<'a>]
    ensures { map argument result.now ≡ rest_of_list (map argument row.now) }
{
    match row {
        [] => row,
        [_, rest @ ..] => rest,
    }
}

/// The event of a row of a time and so many conditions.
pub fn event(conditions: u32, row: &[Item<'_>]) -> Event
    requires { conditions ≤ 32 }
    ensures event { event_of result ≡ event_read conditions (map argument row.now) }
    ensures in_range { result.mask < 2 ^ conditions }
{
    Event {
        time: time(row),
        mask: mask(conditions, rest_of(row)),
    }
}
