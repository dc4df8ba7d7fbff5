// Reading rows in short: the columns of a table, a source in memory, and no states.
use agg_ports::MemorySource;
use batch_reader::{LineReader, RowFault, read_rows, read_rows_in_pieces};
use columns::Batch;
use page_events::{NoStates, table};
use std::alloc::Global;
use std::thread::Threads;

/// A text, the limits on it, and the source that gives it.
#[derive(Clone, Copy)]
pub struct Input<'a> {
    pub text: &'a [u8],
    pub most_line: u64,
    pub most_input: u64,
    /// How many bytes come with a call, and the call that fails, from 1.
    pub piece: usize,
    pub fails: u64,
    /// Into how many pieces a block is cut, or 0 to leave it to the reader.
    pub most_pieces: usize,
}

/// The rows of a text in the table's columns from one place on.
pub fn read(
    rt: &(impl Threads + Sync),
    alloc: Global,
    from: usize,
    input: &Input,
) -> Result<Batch, RowFault> {
    let schema = table(alloc, from)?;
    let Ok(bytes) = input.text.to_vec(alloc) else {
        return Err(RowFault::OutOfMemory);
    };
    let Ok(fails) = [input.fails].to_vec(alloc) else {
        return Err(RowFault::OutOfMemory);
    };
    let mut source = MemorySource::new(bytes, input.piece.max(1), fails);
    let lines = LineReader::new(alloc, &mut source, input.most_line, input.most_input);
    if input.most_pieces == 0 {
        return read_rows(rt, alloc, lines, &schema, &NoStates);
    }
    read_rows_in_pieces(rt, alloc, lines, &schema, &NoStates, input.most_pieces)
}
