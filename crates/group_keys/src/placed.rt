//! Keys with their places.
ghost use Rattle.std.specs.Prelude.{◌≡◌, map, IfOk};

use std::alloc::Global;
use value_types::OutOfMemory;

/// A key, in the form in which it is compared, and its place.
#[derive(Drop)]
pub(crate) struct Placed<K> {
    pub(crate) key: K,
    pub(crate) place: u32,
}

/// The places of keys, one behind another.
pub(crate) fn places_of<K: Drop>(alloc: Global, keys: &[Placed<K>]) -> Result<Vec<u32>, OutOfMemory>
    ensures { IfOk result (λ places. places.items ≡ map (λ e. e.place) keys.now) }
{
    let mut places = Vec::with_capacity(alloc, keys.len())?;
    for key in keys {
        places.push(key.place)?;
    }
    Ok(places)
}
