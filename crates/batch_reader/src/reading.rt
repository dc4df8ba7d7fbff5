//! All rows of an input, block by block.
ghost use Rattle.std.specs.Prelude.{◌≡◌, ℕ, ◌+◌, ◌<◌, ◌^◌, length, List, IfErr, IfOk, OnOk, Ok, Err};
ghost use Rattle.tsv_text.specs.Lines.{lines_of};
ghost use Rattle.columns.specs.Rows.{Rows};
ghost use Rattle.line_reader.specs.Answers.{ReadsBlock};
ghost use Rattle.line_reader.specs.Filling.{FillCause};
ghost use Rattle.scalar_texts.specs.States.{ReadsStates};
ghost use Rattle.row_texts.specs.Rows.{AreReadable};
ghost use Rattle.batch_reader.specs.proving.Pieces.{AreOf};
ghost use Rattle.batch_reader.specs.proving.Pushing.{PushesBlock, PushesText};
ghost use Rattle.batch_reader.specs.Reading.{ReadsRows, RowCause, ends_as, schema_types};

use crate::RowFault;
use crate::fault::fault_of;
use crate::filling::fill_block;
use crate::joining::join_block;
use crate::lane::Lane;
use crate::pushing::push_lines;
use crate::schema_types::types_of;
use agg_defs::Schema;
use agg_ports::Source;
use columns::Batch;
use line_reader::{Block, LineReader, Lookahead, Stop};
use rayon::current_num_threads;
use row_texts::LineRefusal;
use std::alloc::Global;
use std::thread::Threads;
use tsv_values::StateReader;
use value_types::{OutOfMemory, Ty};

// How many bytes are worth a thread of their own.
const LEAST_PIECE: usize = 65_536;

/// How a block is cut: into at most so many pieces of about one length, each of at least so many bytes.
#[derive(Clone, Copy)]
struct Cutting {
    most_pieces: usize,
    least_piece: usize,
}

impl Cutting {
    // How many bytes a piece of a block of this length has at least.
    fn piece_len(&self, len: usize) -> usize {
        if self.most_pieces == 0 {
            return len;
        }
        (len / self.most_pieces).max(self.least_piece)
    }
}

// The number of the next row.
fn next_number(batch: &Batch) -> Result<u64, OutOfMemory>
    ensures { IfOk result (λ number. number ≡ length batch.now.rows + 1) }
{
    let count = batch.len();
    if count == usize::MAX {
        return Err(OutOfMemory);
    }
    Ok(count as u64 + 1)
}

// Why the line behind the rows of a batch is refused, as its row.
#[tactic(auto, using(crate::proofs::Blocks::block_laws))]
fn refused_behind(batch: &Batch, refusal: LineRefusal) -> RowFault
    ensures { (reads : ReadsStates) (before : Rows) (lines : List (List ℕ)) → PushesText reads before lines batch.now (Err refusal) → PushesBlock reads before lines batch.now (Err result) }
{
    match next_number(batch) {
        Ok(number) => fault_of(number, refusal),
        Err(_) => RowFault::OutOfMemory,
    }
}

// Adds the rows of the lines of the last block to a batch, up to the first that is refused. Where the block is long enough its pieces are read
// side by side.
#[tactic(auto, using(crate::proofs::Blocks::text_laws))]
fn push_text<H: Threads + Sync, R: StateReader + Sync>(
    rt: &H,
    alloc: Global,
    reader: &R,
    types: &[Ty],
    cutting: Cutting,
    text: &[u8],
    lanes: &mut Vec<Lane>,
    batch: &mut Batch,
) -> Result<(), LineRefusal>
    requires few { length types.now < 2 ^ 32 }
    requires readable { AreReadable (R.takes reader.now) types.now }
    requires types { batch.old.types ≡ types.now }
    requires lanes { AreOf types.now lanes.old.items }
    ensures { PushesText (R.reads reader.now) batch.old (lines_of text.now) batch.new result }
{
    let least = cutting.piece_len(text.len());
    if text.len() <= least {
        return push_lines(alloc, reader, types, text, batch);
    }
    fill_block(rt, alloc, reader, types, text, least, lanes)?;
    join_block(rt, alloc, lanes, batch, &mut || ())
}

// The same with the number of the row that comes next.
#[tactic(auto, using(crate::proofs::Blocks::block_laws))]
fn push_last<H: Threads + Sync, R: StateReader + Sync>(
    rt: &H,
    alloc: Global,
    reader: &R,
    types: &[Ty],
    cutting: Cutting,
    text: &[u8],
    lanes: &mut Vec<Lane>,
    batch: &mut Batch,
) -> Result<u64, RowFault>
    requires few { length types.now < 2 ^ 32 }
    requires readable { AreReadable (R.takes reader.now) types.now }
    requires types { batch.old.types ≡ types.now }
    requires lanes { AreOf types.now lanes.old.items }
    ensures { PushesBlock (R.reads reader.now) batch.old (lines_of text.now) batch.new result }
{
    match push_text(rt, alloc, reader, types, cutting, text, lanes, batch) {
        Ok(()) => Ok(next_number(batch)?),
        Err(refusal) => Err(refused_behind(batch, refusal)),
    }
}

// Adds the rows of the lines of a block to a batch, up to the first that is refused. Where none is, the next block is read into its place;
// where it was read in pieces, this thread does so while their rows are joined.
#[tactic(auto, using(crate::proofs::Blocks::text_laws))]
fn push_and_read<H: Threads + Sync, S: Source, R: StateReader + Sync>(
    rt: &H,
    alloc: Global,
    reader: &R,
    types: &[Ty],
    cutting: Cutting,
    source: &mut S,
    ahead: &mut Lookahead,
    block: &mut Block,
    lanes: &mut Vec<Lane>,
    batch: &mut Batch,
) -> Result<Stop, LineRefusal>
    requires few { length types.now < 2 ^ 32 }
    requires readable { AreReadable (R.takes reader.now) types.now }
    requires types { batch.old.types ≡ types.now }
    requires lanes { AreOf types.now lanes.old.items }
    ensures ok { OnOk result (PushesText (R.reads reader.now) batch.old (lines_of block.old) batch.new (Ok tt)) }
    ensures err { IfErr result (λ refusal. PushesText (R.reads reader.now) batch.old (lines_of block.old) batch.new (Err refusal)) }
    ensures block { IfOk result (ReadsBlock (S.left source.old) (S.left source.new) ahead.old ahead.new block.new) }
    ensures cause { IfOk result (FillCause (S.faults source.old) (S.faults source.new)) }
    ensures lanes { AreOf types.now lanes.new.items }
{
    let least = cutting.piece_len(block.len());
    if block.len() <= least {
        push_lines(alloc, reader, types, block.as_slice(), batch)?;
        return Ok(ahead.read_block(source, block)?);
    }
    fill_block(rt, alloc, reader, types, block.as_slice(), least, lanes)?;
    let mut read = || -> Result<Stop, OutOfMemory>
        ensures block { IfOk result (ReadsBlock (S.left source.entry.now) (S.left source.exit.now) ahead.entry.now ahead.exit.now block.exit.now) }
        ensures cause { IfOk result (FillCause (S.faults source.entry.now) (S.faults source.exit.now)) }
    { ahead.read_block(source, block) };
    Ok(join_block(rt, alloc, lanes, batch, &mut read)??)
}

// What reading comes to behind the last block, by why that one ends. Its rows are in the batch, and `next` is the number of the row behind them.
fn ending(stop: Stop, batch: Batch, next: u64) -> Result<Batch, RowFault>
    ensures { result ≡ ends_as stop batch next }
{
    match stop {
        Stop::End => Ok(batch),
        Stop::Read => Err(RowFault::Read),
        Stop::TooLong => Err(RowFault::TooLong { row: next }),
        Stop::TooLarge => Err(RowFault::TooLarge),
        // Each block has a byte at least: memory ends before the blocks do.
        Stop::More => Err(RowFault::OutOfMemory),
    }
}

// The rows of all that a source has left behind what is held.
#[tactic(auto, using(crate::proofs::Blocks::read_laws))]
fn read_all<H: Threads + Sync, S: Source, R: StateReader + Sync>(
    rt: &H,
    alloc: Global,
    source: &mut S,
    ahead: &mut Lookahead,
    types: &[Ty],
    reader: &R,
    cutting: Cutting,
) -> Result<Batch, RowFault>
    requires few { length types.now < 2 ^ 32 }
    requires readable { AreReadable (R.takes reader.now) types.now }
    ensures rows { ReadsRows (R.reads reader.now) types.now (S.left source.old) (S.left source.new) ahead.old result }
    ensures cause { RowCause (S.faults source.old) (S.faults source.new) result }
{
    let mut batch = Batch::new(alloc, types)?;
    let mut lanes = Vec::new(alloc);
    let mut block = Block::new(alloc);
    let mut stop = ahead.read_block(source, &mut block)?;
    for _ in 0..usize::MAX {
        let Stop::More = stop else {
            break;
        };
        match push_and_read(
            rt, alloc, reader, types, cutting, source, ahead, &mut block, &mut lanes, &mut batch,
        ) {
            Ok(next) => stop = next,
            Err(refusal) => return Err(refused_behind(&batch, refusal)),
        }
    }
    let text = block.as_slice();
    match push_last(
        rt, alloc, reader, types, cutting, text, &mut lanes, &mut batch,
    ) {
        Ok(next) => ending(stop, batch, next),
        Err(fault) => Err(fault),
    }
}

// The rows of all that a reader of lines and its source have left.
#[tactic(auto, using(crate::proofs::Blocks::read_laws))]
fn read_cut<H: Threads + Sync, S: Source, R: StateReader + Sync>(
    rt: &H,
    alloc: Global,
    lines: LineReader<'_, S>,
    schema: &Schema,
    reader: &R,
    cutting: Cutting,
) -> Result<Batch, RowFault>
    requires few { length schema.now.columns < 2 ^ 32 }
    requires readable { AreReadable (R.takes reader.now) (schema_types schema.now) }
    ensures rows { ReadsRows (R.reads reader.now) (schema_types schema.now) (S.left lines.entry.source.now) (S.left lines.exit.0.now) lines.entry.ahead result }
    ensures cause { RowCause (S.faults lines.entry.source.now) (S.faults lines.exit.0.now) result }
{
    let LineReader { source, ahead } = lines;
    let mut ahead = ahead;
    match types_of(alloc, schema) {
        Ok(types) => read_all(rt, alloc, source, &mut ahead, &types, reader, cutting),
        Err(_) => Err(RowFault::OutOfMemory),
    }
}

/// The rows of all that a reader of lines and its source have left, in the types of the table's columns. Regular lines go straight into the
/// columns of the batch; every other line, and every refusal, is the slow judge's (manual: "TabSeparated"). Long blocks of lines are read by
/// as many threads as there are processors.
///
/// # Errors
///
/// The first thing that is wrong, in the order of the input; every complete line comes before what is wrong behind it.
///
/// - [`RowFault::FieldCount`], [`RowFault::Row`]: the first refused row, from 1: its number of fields, or its first refused field, from 1.
/// - [`RowFault::TooLong`], [`RowFault::TooLarge`]: a limit of the reader is broken, this project's own choice.
/// - [`RowFault::Read`]: the source failed.
/// - [`RowFault::OutOfMemory`]: there is no room for the rows.
pub fn read_rows<H: Threads + Sync, S: Source, R: StateReader + Sync>(
    rt: &H,
    alloc: Global,
    lines: LineReader<'_, S>,
    schema: &Schema,
    reader: &R,
) -> Result<Batch, RowFault>
    requires few { length schema.now.columns < 2 ^ 32 }
    requires readable { AreReadable (R.takes reader.now) (schema_types schema.now) }
    ensures rows { ReadsRows (R.reads reader.now) (schema_types schema.now) (S.left lines.entry.source.now) (S.left lines.exit.0.now) lines.entry.ahead result }
    ensures cause { RowCause (S.faults lines.entry.source.now) (S.faults lines.exit.0.now) result }
{
    let cutting = Cutting {
        most_pieces: current_num_threads(rt),
        least_piece: LEAST_PIECE,
    };
    read_cut(rt, alloc, lines, schema, reader, cutting)
}

/// As [`read_rows`], with each block of lines, however short, cut into at most so many pieces, which are read side by side; with 1 or 0 the
/// caller's thread reads all.
///
/// # Errors
///
/// As of [`read_rows`].
pub fn read_rows_in_pieces<H: Threads + Sync, S: Source, R: StateReader + Sync>(
    rt: &H,
    alloc: Global,
    lines: LineReader<'_, S>,
    schema: &Schema,
    reader: &R,
    most_pieces: usize,
) -> Result<Batch, RowFault>
    requires few { length schema.now.columns < 2 ^ 32 }
    requires readable { AreReadable (R.takes reader.now) (schema_types schema.now) }
    ensures rows { ReadsRows (R.reads reader.now) (schema_types schema.now) (S.left lines.entry.source.now) (S.left lines.exit.0.now) lines.entry.ahead result }
    ensures cause { RowCause (S.faults lines.entry.source.now) (S.faults lines.exit.0.now) result }
{
    let cutting = Cutting {
        most_pieces,
        least_piece: 1,
    };
    read_cut(rt, alloc, lines, schema, reader, cutting)
}
