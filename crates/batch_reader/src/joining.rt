//! The rows of lanes at the end of a batch. Each column gets its values by itself, so the columns are joined side by side; whether all of
//! them had room is told by their lengths.
ghost use Rattle.std.specs.Prelude.{◌≡◌, ◌↔◌, ◌+◌, length, map, All, IfErr, IfOk, IsTrue, List, ℕ, OnErr, OnOk, Ok, Err, Some};
ghost use Rattle.std.specs.List.{position, slice_get};
ghost use Rattle.scalar_texts.specs.States.{ReadsStates};
ghost use Rattle.columns.specs.Rows.{AreLong, joined, with_rows};
ghost use Rattle.batch_reader.specs.proving.Pieces.{AreOf, HasLines, is_refused, rows_in};
ghost use Rattle.batch_reader.specs.proving.Pushing.{PushesText};
ghost use Rattle.batch_reader.specs.proving.Joining.{AreFit, JoinsColumn, columns_of};

use crate::apart::{for_each_apart, threads_for};
use crate::lane::Lane;
use columns::{Batch, Column, trim_each};
use row_texts::LineRefusal;
use std::alloc::Global;
use std::mem;
use std::thread::Threads;
use value_types::OutOfMemory;

// How many rows there are with those of the lanes. Each of these is one of its lane's types.
fn count_all(lanes: &[Lane], count: usize) -> Result<usize, OutOfMemory>
    ensures total { IfOk result (λ total. total ≡ count + length (rows_in lanes.now)) }
    ensures fit { OnOk result (AreFit lanes.now) }
{
    let mut total = count;
    for lane in lanes {
        let more = lane.rows.len();
        if more > usize::MAX - total {
            return Err(OutOfMemory);
        }
        total += more;
    }
    Ok(total)
}

// Adds the values that the rows of the lanes have at a place, as far as there is room.
fn join_column(alloc: Global, lanes: &[Lane], place: usize, column: &mut Column)
    requires { All (λ lane. slice_get lane.rows.types place ≡ Some column.old.ty) lanes.now }
    ensures { JoinsColumn place (rows_in lanes.now) column.old column.new }
{
    for i in 0..lanes.len() {
        match column.append(alloc, lanes[i].rows.column(place)) {
            Ok(()) => {}
            Err(_) => return,
        }
    }
}

// Whether each column has so many values.
fn are_long(columns: &[Column], count: usize) -> bool
    ensures { IsTrue result ↔ All (λ column. length column.values ≡ count) columns.now }
{
    columns.iter().all(|column| column.len() == count)
}

// Adds to columns of `count` values those that the rows of the lanes have in them, all or none; there are `total` rows then. Meanwhile the
// caller's thread does what it is given.
fn join_columns<H: Threads + Sync, G: FnMut() -> B, B: Drop>(
    rt: &H,
    alloc: Global,
    lanes: &[Lane],
    columns: &mut Vec<Column>,
    count: usize,
    total: usize,
    meanwhile: &mut G,
) -> Result<B, OutOfMemory>
    requires types { AreOf (map (λ column. column.ty) columns.old.items) lanes.now }
    requires long { AreLong columns.old.items count }
    requires total { total ≡ count + length (rows_in lanes.now) }
    requires meanwhile { G.pre meanwhile.old }
    ensures ok { OnOk result (columns.new.items ≡ joined columns.old.items (columns_of (map (λ column. column.ty) columns.old.items) (rows_in lanes.now))) }
    ensures err { OnErr result (columns.new.items ≡ columns.old.items) }
    ensures meanwhile { IfOk result (λ done. G.step meanwhile.old done meanwhile.new) }
{
    let join = |place: usize, column: &mut Column|
        requires { All (λ lane. slice_get lane.rows.types place ≡ Some column.old.ty) lanes.now }
        ensures { JoinsColumn place (rows_in lanes.entry.now) column.old column.new }
    { join_column(alloc, lanes, place, column) };
    let done = for_each_apart(rt, threads_for(lanes.len()), &join, meanwhile, columns);
    if are_long(columns, total) {
        return Ok(done);
    }
    trim_each(columns, count);
    Err(OutOfMemory)
}

// Adds the rows of the lanes, one lane behind the other, all or none. Meanwhile the caller's thread does what it is given.
fn join_lanes<H: Threads + Sync, G: FnMut() -> B, B: Drop>(
    rt: &H,
    alloc: Global,
    lanes: &[Lane],
    batch: &mut Batch,
    meanwhile: &mut G,
) -> Result<B, OutOfMemory>
    requires types { AreOf batch.old.types lanes.now }
    requires meanwhile { G.pre meanwhile.old }
    ensures ok { OnOk result (batch.new ≡ with_rows batch.old (rows_in lanes.now)) }
    ensures err { OnErr result (batch.new ≡ batch.old) }
    ensures meanwhile { IfOk result (λ done. G.step meanwhile.old done meanwhile.new) }
{
    let count = batch.count;
    let total = count_all(lanes, count)?;
    match join_columns(
        rt,
        alloc,
        lanes,
        &mut batch.columns,
        count,
        total,
        meanwhile,
    ) {
        Ok(done) => {
            batch.count = total;
            Ok(done)
        }
        Err(error) => Err(error),
    }
}

// The place of the first lane whose piece has a refused line.
fn first_refused(lanes: &[Lane]) -> Option<usize>
    ensures { result ≡ position is_refused lanes.now }
{
    lanes.iter().position(|lane| lane.pushed.is_err())
}

/// Adds the rows of the lines that the lanes have to a batch, up to the first line that is refused. Where none is, the caller's thread does
/// meanwhile what it is given.
///
/// # Errors
///
/// Why the first refused line is none; the rows of those before it are in the batch. Where there is no room, the rows are as before.
pub(crate) fn join_block<H: Threads + Sync, G: FnMut() -> B, B: Drop>(
    rt: &H,
    alloc: Global,
    lanes: &mut [Lane],
    batch: &mut Batch,
    meanwhile: &mut G,
) -> Result<B, LineRefusal>
    requires types { AreOf batch.old.types lanes.old }
    requires meanwhile { G.pre meanwhile.old }
    ensures ok { (reads : ReadsStates) (lines : List (List ℕ)) → HasLines reads batch.old.types lines lanes.old → OnOk result (PushesText reads batch.old lines batch.new (Ok tt)) }
    ensures err { (reads : ReadsStates) (lines : List (List ℕ)) → HasLines reads batch.old.types lines lanes.old → IfErr result (λ refusal. PushesText reads batch.old lines batch.new (Err refusal)) }
    ensures meanwhile { IfOk result (λ done. G.step meanwhile.old done meanwhile.new) }
    ensures types { AreOf batch.old.types lanes.new }
{
    let Some(place) = first_refused(lanes) else {
        return Ok(join_lanes(rt, alloc, lanes, batch, meanwhile)?);
    };
    join_lanes(rt, alloc, &lanes[..place + 1], batch, &mut || ())?;
    match mem::replace(&mut lanes[place].pushed, Ok(())) {
        Ok(()) => unreachable!(),
        Err(refusal) => Err(refusal),
    }
}
