//! A block is filled from a source: pieces are taken until it has enough whole lines, the source ends, or something is broken.
ghost use Rattle.std.specs.Prelude.{◌+◌, ◌-◌, ◌≤◌, ◌<◌, None, length, take, drop, IfNone, IfOk, IfSome};
ghost use Rattle.line_reader.specs.Limits.{IsUnbroken};
ghost use Rattle.line_reader.specs.Filling.{FillCause, FillsBlock, HasCut, IsOpen, StopsHere};

use crate::searching::{Break, count_newlines, find_break, whole_len};
use crate::{Block, BlockSize, Stop};
use agg_ports::{Source, Taken};
use value_lists::OutOfMemory;

// How many bytes are taken at once, but for longer lines: few enough to stay in a processor's cache until they are read.
const PIECE: usize = 262_144;

// Takes of a longer line grow with it, up to this.
const MOST_PIECE: usize = 1_048_576;

/// How many bytes to take at once: enough, but at most one more than each limit allows.
pub(crate) fn piece_len(open: usize, more_line: u64, more_input: u64) -> usize
    ensures some { 0 < result }
    ensures few { result ≤ 1048576 }
    ensures line { result ≤ more_line + 1 }
    ensures input { result ≤ more_input + 1 }
{
    let wanted = open.clamp(PIECE, MOST_PIECE) as u64;
    let allowed = more_line.min(more_input);
    if wanted <= allowed {
        wanted as usize
    } else {
        allowed as usize + 1
    }
}

// Where the whole lines end, with those that came.
fn next_cut(bytes: &[u8], cut: usize, most_line: u64, room: u64) -> usize
    requires { HasCut most_line room bytes.now cut }
    ensures cut { HasCut most_line room bytes.now result }
    ensures forward { cut ≤ result }
    ensures unbroken { IsUnbroken (take (room - result) (drop result bytes.now)) }
{
    let end = (bytes.len() as u64).min(room) as usize;
    cut + whole_len(&bytes[cut..end])
}

// Whether the block is complete, or a limit is broken behind its whole lines.
fn stop_at(
    bytes: &[u8],
    cut: usize,
    lines: usize,
    size: BlockSize,
    most_line: u64,
    room: u64,
) -> Option<Stop>
    requires cut { HasCut most_line room bytes.now cut }
    requires unbroken { IsUnbroken (take (room - cut) (drop cut bytes.now)) }
    ensures stop { IfSome result (StopsHere most_line room bytes.now cut) }
    ensures more { IfNone result (IsOpen most_line room bytes.now cut) }
{
    match find_break(&bytes[cut..], most_line, room - cut as u64) {
        Some(Break::TooLong) => Some(Stop::TooLong),
        Some(Break::TooLarge) => Some(Stop::TooLarge),
        None if cut > 0 && (lines >= size.lines || cut >= size.bytes) => Some(Stop::More),
        None => None,
    }
}

/// Takes bytes behind those of the block until it has enough whole lines, the source ends or fails, or a limit is broken. Tells where the
/// whole lines end.
///
/// # Errors
///
/// [`OutOfMemory`] where there is no room for the bytes; those that were taken are in the block.
pub(crate) fn fill<S: Source>(
    source: &mut S,
    block: &mut Block,
    size: BlockSize,
    most_line: u64,
    room: u64,
) -> Result<(Stop, usize), OutOfMemory>
    requires line { length block.old ≤ most_line + 1 }
    requires input { length block.old ≤ room + 1 }
    ensures block { IfOk result (λ r. FillsBlock (S.left source.old) (S.left source.new) most_line room block.old block.new r.1 r.0) }
    ensures cause { IfOk result (λ r. FillCause (S.faults source.old) (S.faults source.new) r.0) }
{
    let mut cut = 0;
    let mut lines = 0usize;
    for _ in 0..usize::MAX {
        let next = next_cut(block.as_slice(), cut, most_line, room);
        lines = lines.saturating_add(count_newlines(&block.as_slice()[cut..next]));
        cut = next;
        if let Some(stop) = stop_at(block.as_slice(), cut, lines, size, most_line, room) {
            return Ok((stop, cut));
        }
        let open = block.len() - cut;
        let most = piece_len(open, most_line - open as u64, room - block.len() as u64);
        match block.take_from(source, most)? {
            Taken::Bytes(_) => {}
            Taken::End => return Ok((Stop::End, cut)),
            Taken::Failed => return Ok((Stop::Read, cut)),
        }
    }
    // Each turn takes a byte at least: memory ends before the turns do.
    Err(OutOfMemory)
}
