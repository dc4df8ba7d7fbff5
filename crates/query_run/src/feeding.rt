//! Rows from a stream into a table of groups: each batch is fed, and the next one takes its place.
ghost use Rattle.std.specs.Prelude.{◌≡◌, ◌<◌, ◌^◌, List, Option, [], ℕ, length, OnOk};
ghost use Rattle.batch_reader.specs.Reading.{RowCause};
ghost use Rattle.batch_reader.specs.Streaming.{HasRead};
ghost use Rattle.group_tables.specs.Groupings.{IsReady};
ghost use Rattle.group_tables.specs.Tables.{AreTables, IsTableOf, TakesRowsOf};
ghost use Rattle.quick_rows.specs.Keeping.{kept};
ghost use Rattle.row_texts.specs.Rows.{AreReadable};
ghost use Rattle.state_codec.specs.Codec.{IsLegalState, state_reading};
ghost use Rattle.query_run.specs.proving.Feeding.{FeedsAll, FeedsMore};

use agg_ports::Source;
use batch_reader::{RowFault, RowStream};
use columns::Batch;
use group_tables::{GroupTable, Grouping};
use state_codec::Codec;
use std::alloc::Global;
use value_types::OutOfMemory;

// Feeds the rows of a batch.
fn feed_all(
    alloc: Global,
    grouping: &Grouping,
    batch: &Batch,
    table: &mut GroupTable,
) -> Result<(), OutOfMemory>
    requires ready { IsReady grouping.now }
    requires table { IsTableOf grouping.now table.old }
    requires types { batch.now.types ≡ grouping.now.types }
    ensures { OnOk result (TakesRowsOf grouping.now batch.now.rows table.old table.new) }
{
    let count = batch.len();
    table.feed_batch(alloc, grouping, batch, 0, count)
}

// Feeds the rows of the next batch, and tells whether more may come.
#[tactic(auto, using(crate::proofs::Streamed::fed_laws))]
fn feed_next<S: Source>(
    alloc: Global,
    stream: &mut RowStream,
    source: &mut S,
    grouping: &Grouping,
    batch: &mut Batch,
    table: &mut GroupTable,
) -> Result<bool, RowFault>
    requires few { length stream.old.types < 2 ^ 32 }
    requires readable { AreReadable IsLegalState stream.old.types }
    requires batch { batch.old.types ≡ kept stream.old.keep stream.old.types }
    requires ready { IsReady grouping.now }
    requires types { grouping.now.types ≡ kept stream.old.keep stream.old.types }
    requires table { IsTableOf grouping.now table.old }
    ensures types { stream.new.types ≡ stream.old.types }
    ensures keep { stream.new.keep ≡ stream.old.keep }
    ensures batch { OnOk result (batch.new.types ≡ batch.old.types) }
    ensures fed { FeedsMore state_reading (S.left source.old) (S.left source.new) stream.old stream.new grouping.now table.old table.new result }
    ensures cause { RowCause (S.faults source.old) (S.faults source.new) result }
{
    match stream.next_batch(alloc, source, &Codec, batch) {
        Ok(more) => {
            feed_all(alloc, grouping, batch, table)?;
            Ok(more)
        }
        Err(fault) => Err(fault),
    }
}

/// Feeds all rows of a stream to an empty table, through a batch of its kept columns.
///
/// # Errors
///
/// The first thing that is wrong with the rows.
pub(crate) fn feed_rows<S: Source>(
    alloc: Global,
    stream: &mut RowStream,
    source: &mut S,
    grouping: &Grouping,
    batch: &mut Batch,
    table: &mut GroupTable,
) -> Result<(), RowFault>
    requires few { length stream.old.types < 2 ^ 32 }
    requires readable { AreReadable IsLegalState stream.old.types }
    requires batch { batch.old.types ≡ kept stream.old.keep stream.old.types }
    requires ready { IsReady grouping.now }
    requires types { grouping.now.types ≡ kept stream.old.keep stream.old.types }
    requires empty { AreTables grouping.now table.old [] }
    requires next { stream.old.next ≡ 1 }
    requires none { (left : Option (List ℕ)) → HasRead state_reading stream.old.types left left stream.old.ahead stream.old.ahead [] }
    ensures fed { FeedsAll state_reading stream.old.types stream.old.keep (S.left source.old) (S.left source.new) stream.old.ahead grouping.now table.new result }
    ensures cause { RowCause (S.faults source.old) (S.faults source.new) result }
{
    for _ in 0..usize::MAX {
        match feed_next(alloc, stream, source, grouping, batch, table) {
            Ok(true) => {}
            Ok(false) => return Ok(()),
            Err(fault) => return Err(fault),
        }
    }
    // Each batch but the last has a row at least: memory ends before they do.
    Err(RowFault::OutOfMemory)
}
