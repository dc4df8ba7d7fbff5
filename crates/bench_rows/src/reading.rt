//! All rows of a source, each block of its lines cut into so many pieces.
use agg_ports::WholeSource;
use batch_reader::{LineReader, read_rows_in_pieces};
use columns::Batch;
use page_events::{NoStates, table};
use std::alloc::Global;
use std::thread::Threads;

/// All rows of a source, or none where they are refused.
pub fn rows_of(
    rt: &(impl Threads + Sync),
    alloc: Global,
    source: &mut WholeSource,
    pieces: usize,
) -> Option<Batch> {
    let schema = table(alloc, 0).ok()?;
    let lines = LineReader::new(alloc, source, 1 << 26, 1 << 32);
    read_rows_in_pieces(rt, alloc, lines, &schema, &NoStates, pieces).ok()
}
