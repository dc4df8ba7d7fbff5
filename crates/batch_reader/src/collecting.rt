//! What is kept of all rows of a stream, in one batch: what a loop over batches carries.
ghost use Rattle.std.specs.Prelude.{◌≡◌, ◌<◌, ◌^◌, length};
ghost use Rattle.row_texts.specs.Rows.{AreReadable};
ghost use Rattle.batch_reader.specs.Reading.{RowCause, schema_types};
ghost use Rattle.batch_reader.specs.Streaming.{ReadsKept};

use crate::RowFault;
use crate::streaming::RowStream;
use agg_defs::Schema;
use agg_ports::Source;
use columns::Batch;
use line_reader::Lookahead;
use std::alloc::Global;
use tsv_values::StateReader;

/// What is kept of the rows of all that a stream and its source have left.
///
/// # Errors
///
/// As of [`crate::read_rows`].
#[tactic(auto, using(crate::proofs::Blocks::read_laws))]
pub fn collect_rows<S: Source, R: StateReader>(
    alloc: Global,
    ahead: Lookahead,
    source: &mut S,
    schema: &Schema,
    keep: Vec<bool>,
    reader: &R,
) -> Result<Batch, RowFault>
    requires few { length schema.now.columns < 2 ^ 32 }
    requires marks { length keep.items ≡ length schema.now.columns }
    requires readable { AreReadable (R.takes reader.now) (schema_types schema.now) }
    ensures rows { ReadsKept (R.reads reader.now) (schema_types schema.now) keep.items (S.left source.old) (S.left source.new) ahead result }
    ensures cause { RowCause (S.faults source.old) (S.faults source.new) result }
{
    let mut stream = RowStream::new(alloc, ahead, schema, keep)?;
    let mut batch = stream.no_rows(alloc)?;
    let mut all = stream.no_rows(alloc)?;
    for _ in 0..usize::MAX {
        match stream.next_batch(alloc, source, reader, &mut batch) {
            Ok(more) => {
                match all.append(alloc, &batch) {
                    Ok(()) => {}
                    Err(_) => return Err(RowFault::OutOfMemory),
                }
                if !more {
                    return Ok(all);
                }
            }
            Err(fault) => return Err(fault),
        }
    }
    Err(RowFault::OutOfMemory)
}
