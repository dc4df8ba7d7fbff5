//! Places of keys in a set.
ghost use Rattle.std.specs.Prelude.{◌≡◌, map, replicate, IfOk, OnOk};
ghost use Rattle.std.specs.List.{position_or_len};
ghost use Rattle.indexmap.specs.IndexSet.{insert_key};
ghost use Rattle.group_keys.specs.proving.Texts.{same_bytes};
ghost use Rattle.table_words.specs.KeyLists.{keys_with, places_of};

use indexmap::IndexSet;
use std::alloc::Global;
use std::collections::hash_map::RandomState;
use std::hash::Hash;
use value_types::OutOfMemory;

/// A place as it is handed on: a table has no more than 2^32 groups.
#[inline]
pub(crate) fn narrow(place: usize) -> Result<u32, OutOfMemory>
    ensures { IfOk result (λ narrow. narrow ≡ place) }
{
    match u32::try_from(place) {
        Ok(narrow) => Ok(narrow),
        Err(_) => Err(OutOfMemory),
    }
}

/// The first place, for this many rows.
pub(crate) fn all_at_first(alloc: Global, count: usize) -> Result<Vec<u32>, OutOfMemory>
    ensures { IfOk result (λ places. places.items ≡ replicate count 0) }
{
    Ok(vec![in alloc; 0; count]?)
}

/// The place of a number; a new one goes last.
pub(crate) fn place_number<N: Copy + Eq + Hash + Drop>(
    set: &mut IndexSet<N, RandomState>,
    number: N,
) -> Result<u32, OutOfMemory>
    ensures keys { OnOk result (set.new.keys ≡ insert_key N.eq set.old.keys number) }
    ensures place { IfOk result (λ place. place ≡ position_or_len (N.eq number) set.old.keys) }
{
    let (place, _) = set.insert_full(number)?;
    narrow(place)
}

/// The place of each number; a new one goes last.
pub(crate) fn place_numbers<N: Copy + Eq + Hash + Drop>(
    alloc: Global,
    set: &mut IndexSet<N, RandomState>,
    numbers: &[N],
) -> Result<Vec<u32>, OutOfMemory>
    ensures keys { OnOk result (set.new.keys ≡ keys_with N.eq set.old.keys numbers.now) }
    ensures places { IfOk result (λ places. places.items ≡ places_of N.eq set.old.keys numbers.now) }
{
    let mut places = Vec::with_capacity(alloc, numbers.len())?;
    for number in numbers {
        places.push(place_number(set, *number)?)?;
    }
    Ok(places)
}

/// The place of a text, which is copied only where it is new.
pub(crate) fn place_text(
    alloc: Global,
    set: &mut IndexSet<Vec<u8>, RandomState>,
    text: &[u8],
) -> Result<u32, OutOfMemory>
    ensures keys { OnOk result (map (λ k. k.items) set.new.keys ≡ insert_key same_bytes (map (λ k. k.items) set.old.keys) text.now) }
    ensures place { IfOk result (λ place. place ≡ position_or_len (same_bytes text.now) (map (λ k. k.items) set.old.keys)) }
{
    let place = index_of_text(alloc, set, text)?;
    narrow(place)
}

fn index_of_text(
    alloc: Global,
    set: &mut IndexSet<Vec<u8>, RandomState>,
    text: &[u8],
) -> Result<usize, OutOfMemory>
    ensures keys { OnOk result (map (λ k. k.items) set.new.keys ≡ insert_key same_bytes (map (λ k. k.items) set.old.keys) text.now) }
    ensures place { IfOk result (λ place. place ≡ position_or_len (same_bytes text.now) (map (λ k. k.items) set.old.keys)) }
{
    match set.get_index_of(text) {
        Some(place) => Ok(place),
        None => {
            let (place, _) = set.insert_full(Vec::from_slice(alloc, text)?)?;
            Ok(place)
        }
    }
}

/// The place of each text; a new one is copied and goes last.
pub(crate) fn place_copies(
    alloc: Global,
    set: &mut IndexSet<Vec<u8>, RandomState>,
    texts: &[Vec<u8>],
) -> Result<Vec<u32>, OutOfMemory>
    ensures keys { OnOk result (map (λ k. k.items) set.new.keys ≡ keys_with same_bytes (map (λ k. k.items) set.old.keys) (map (λ k. k.items) texts.now)) }
    ensures places { IfOk result (λ places. places.items ≡ places_of same_bytes (map (λ k. k.items) set.old.keys) (map (λ k. k.items) texts.now)) }
{
    let mut places = Vec::with_capacity(alloc, texts.len())?;
    for text in texts {
        places.push(place_text(alloc, set, text.as_slice())?)?;
    }
    Ok(places)
}
