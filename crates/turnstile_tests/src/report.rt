//! What a run came to, in words that don't depend on the order in which threads ran.
use std::alloc::{AllocError, Global};
use turnstile::Entry;

/// Whether the journal has, of each of so many sessions, so many entries and in their order, and no others.
pub fn is_whole(
    alloc: Global,
    journal: &[Entry],
    threads: u32,
    turns: u32,
) -> Result<bool, AllocError> {
    let mut next = vec![in alloc; 0u32; threads as usize]?;
    for entry in journal {
        let at = entry.session as usize;
        if at == 0 || at > next.len() || next[at - 1] != entry.seq {
            return Ok(false);
        }
        next[at - 1] = entry.seq.saturating_add(1);
    }
    Ok(next.iter().all(|many| *many == turns))
}
