//! Keys that are numbers, in ascending order.
ghost use Rattle.std.specs.Prelude.{◌≡◌, ◌≤◌, ◌^◌, length, map, IfOk};
ghost use Rattle.std.specs.List.Sorted.{IsPermutation, IsSorted};
ghost use Rattle.group_keys.specs.proving.Placed.{AreNumbers, ArePut, by_key, number_cmp, place_of, turned};

use crate::placed::{Placed, places_of};
use crate::places::narrow;
use std::alloc::Global;
use value_types::OutOfMemory;

/// All numbers with their places, in the order of these.
fn placed_numbers<N: Copy + Drop>(
    alloc: Global,
    numbers: &[N],
) -> Result<Vec<Placed<N>>, OutOfMemory>
    ensures { IfOk result (λ placed. AreNumbers numbers.now (length numbers.now) placed.items) }
{
    let count = numbers.len();
    let mut placed = Vec::with_capacity(alloc, count)?;
    for place in 0..count {
        let number = Placed {
            key: numbers[place],
            place: narrow(place)?,
        };
        placed.push(number)?;
    }
    Ok(placed)
}

fn put_in_order<N: Ord + Drop>(numbers: &mut Vec<Placed<N>>)
    ensures same { IsPermutation numbers.old.items numbers.new.items }
    ensures ascending { IsSorted (by_key N.cmp) numbers.new.items }
{
    numbers.sort_unstable_by(|a, b| a.key.cmp(&b.key));
}

/// The places of numbers in ascending order.
pub(crate) fn number_places<N: Copy + Ord + Drop>(
    alloc: Global,
    numbers: &[N],
) -> Result<Vec<u32>, OutOfMemory>
    ensures { IfOk result (λ places. ArePut (by_key N.cmp) place_of (AreNumbers numbers.now (length numbers.now)) places.items) }
{
    let mut placed = placed_numbers(alloc, numbers)?;
    put_in_order(&mut placed);
    places_of(alloc, &placed)
}

/// A word that stands among others as its number does: those of negative numbers, which are the greatest, go before.
#[inline]
fn turned(half: u64, word: u64) -> u64
    requires { half ≤ 2 ^ 63 }
    ensures { result ≡ turned half word }
{
    if word < half {
        word + half
    } else {
        word - half
    }
}

fn turned_words(alloc: Global, half: u64, words: &[u64]) -> Result<Vec<u64>, OutOfMemory>
    requires { half ≤ 2 ^ 63 }
    ensures { IfOk result (λ numbers. numbers.items ≡ map (turned half) words.now) }
{
    let mut numbers = Vec::with_capacity(alloc, words.len())?;
    for word in words {
        numbers.push(turned(half, *word))?;
    }
    Ok(numbers)
}

/// The places of words in ascending order of the numbers that they stand for. `half` of the numbers of their type are
/// negative.
pub(crate) fn word_places(alloc: Global, half: u64, words: &[u64]) -> Result<Vec<u32>, OutOfMemory>
    requires { half ≤ 2 ^ 63 }
    ensures { IfOk result (λ places. ArePut number_cmp place_of (AreNumbers (map (turned half) words.now) (length words.now)) places.items) }
{
    if half == 0 {
        return number_places(alloc, words);
    }
    let numbers = turned_words(alloc, half, words)?;
    number_places(alloc, &numbers)
}
