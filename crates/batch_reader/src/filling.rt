//! A block whose pieces are read side by side, each into a lane of its own.
ghost use Rattle.std.specs.Prelude.{◌≡◌, ◌<◌, ◌^◌, length, OnOk};
ghost use Rattle.std.specs.List.{AllZip, HoldsAt};
ghost use Rattle.tsv_text.specs.Lines.{lines_of};
ghost use Rattle.row_texts.specs.Rows.{AreReadable};
ghost use Rattle.batch_reader.specs.proving.Pieces.{AreOf, HasLines, HasPiece};

use crate::apart::{for_each_apart, threads_for};
use crate::lane::Lane;
use crate::pieces::cut;
use std::alloc::Global;
use std::thread::Threads;
use tsv_values::StateReader;
use value_types::{OutOfMemory, Ty};

// So many lanes: those that there are, as far as they go.
fn fit_lanes(
    alloc: Global,
    types: &[Ty],
    lanes: &mut Vec<Lane>,
    count: usize,
) -> Result<(), OutOfMemory>
    requires { AreOf types.now lanes.old.items }
    ensures types { AreOf types.now lanes.new.items }
    ensures count { OnOk result (length lanes.new.items ≡ count) }
{
    lanes.truncate(count);
    for _ in lanes.len()..count {
        lanes.push(Lane::new(alloc, types)?)?;
    }
    Ok(())
}

// Each piece into the lane at its place, side by side.
fn fill_lanes<H: Threads + Sync, R: StateReader + Sync>(
    rt: &H,
    alloc: Global,
    reader: &R,
    types: &[Ty],
    pieces: &[&[u8]],
    lanes: &mut [Lane],
)
    requires few { length types.now < 2 ^ 32 }
    requires readable { AreReadable (R.takes reader.now) types.now }
    requires types { AreOf types.now lanes.old }
    requires same { length lanes.old ≡ length pieces.now }
    ensures filled { AllZip (λ text lane. HasPiece (R.reads reader.now) types.now text.now lane) pieces.now lanes.new }
    ensures types { AreOf types.now lanes.new }
{
    let fill = |i: usize, lane: &mut Lane|
        requires few { length types.now < 2 ^ 32 }
        requires readable { AreReadable (R.takes reader.now) types.now }
        requires types { lane.old.rows.types ≡ types.now }
        requires within { i < length pieces.now }
        ensures { HoldsAt (λ text. HasPiece (R.reads reader.entry.now) types.entry.now text.now lane.new) pieces.entry.now i }
    { lane.fill(alloc, reader, types, pieces[i]) };
    for_each_apart(rt, threads_for(lanes.len()), &fill, &mut || (), lanes);
}

/// Reads the lines of a block into lanes, cut into pieces of at least so many bytes; what the lanes had goes.
///
/// # Errors
///
/// [`OutOfMemory`] where there is no room for the pieces or the lanes. A line that is refused is told by its lane.
pub(crate) fn fill_block<H: Threads + Sync, R: StateReader + Sync>(
    rt: &H,
    alloc: Global,
    reader: &R,
    types: &[Ty],
    text: &[u8],
    least: usize,
    lanes: &mut Vec<Lane>,
) -> Result<(), OutOfMemory>
    requires few { length types.now < 2 ^ 32 }
    requires readable { AreReadable (R.takes reader.now) types.now }
    requires types { AreOf types.now lanes.old.items }
    ensures types { AreOf types.now lanes.new.items }
    ensures filled { OnOk result (HasLines (R.reads reader.now) types.now (lines_of text.now) lanes.new.items) }
{
    let pieces = cut(alloc, text, least)?;
    fit_lanes(alloc, types, lanes, pieces.len())?;
    fill_lanes(rt, alloc, reader, types, &pieces, lanes);
    Ok(())
}
