//! Ascending places that cut a list into parts.
ghost use Rattle.std.specs.Prelude.{◌≡◌, ◌<◌, ◌≤◌, ◌+◌, ◌^◌, length, get_or, OnErr, OnOk};
ghost use Rattle.column_parts.specs.Cuts.{IsCut, joined_places};

use value_lists::OutOfMemory;

/// Where part i begins and ends.
#[inline]
#[tactic(auto, using(crate::proofs::Cuts::cut_laws))]
pub fn part(starts: &[usize], end: usize, i: usize) -> (usize, usize)
    requires cut { IsCut starts.now end }
    requires within { i + 1 < length starts.now }
    ensures from { result.0 ≡ get_or starts.now i 0 }
    ensures to { result.1 ≡ get_or starts.now (i + 1) 0 }
    ensures order { result.0 ≤ result.1 }
    ensures bound { result.1 ≤ end }
{
    let from = starts[i];
    let to = starts[i + 1];
    (from, to)
}

/// Adds the places of a second list, whose parts stand behind those of the first.
///
/// The first list has `base` elements, the second `end`.
///
/// # Errors
///
/// [`OutOfMemory`] where there is no room; the places are as before.
pub fn append_places(
    starts: &mut Vec<usize>,
    base: usize,
    more: &[usize],
    end: usize,
) -> Result<(), OutOfMemory>
    requires cut { IsCut more.now end }
    requires room { base + end < 2 ^ 64 }
    ensures ok { OnOk result (starts.new.items ≡ joined_places base starts.old.items more.now) }
    ensures err { OnErr result (starts.new.items ≡ starts.old.items) }
{
    let before = starts.len();
    starts.reserve(more.len())?;
    for i in 1..more.len() {
        match starts.push(base + more[i]) {
            Ok(()) => {}
            Err(_) => {
                starts.truncate(before);
                return Err(OutOfMemory);
            }
        }
    }
    Ok(())
}
