//! The rows of an input, batch by batch: each block of lines takes the place of the one before it.
ghost use Rattle.std.specs.Prelude.{◌≡◌, ℕ, ◌+◌, ◌<◌, ◌^◌, [], ◌++◌, ◌∷◌, length, Bool, List, Option, Err, IfErr, IfOk, OnOk};
ghost use Rattle.tsv_text.specs.Lines.{lines_of};
ghost use Rattle.columns.specs.Rows.{no_rows};
ghost use Rattle.line_reader.specs.Ahead.{new_ahead};
ghost use Rattle.scalar_texts.specs.States.{ReadsStates};
ghost use Rattle.row_texts.specs.Rows.{AreReadable};
ghost use Rattle.quick_rows.specs.Keeping.{AreSteps, kept};
ghost use Rattle.batch_reader.specs.Reading.{RowCause, schema_types};
ghost use Rattle.batch_reader.specs.Streaming.{HasRead, ReadsMore};
ghost use Rattle.batch_reader.specs.proving.Streaming.{KeepsBehind, stop_answer};

use crate::RowFault;
use crate::fault::fault_of;
use crate::keeping::keep_lines;
use crate::schema_types::types_of;
use agg_defs::Schema;
use agg_ports::Source;
use columns::Batch;
use line_reader::{Block, BlockSize, Lookahead, Stop};
use quick_rows::{Step, step_of};
use std::alloc::Global;
use std::marker::Model;
use tsv_values::StateReader;
use value_types::{OutOfMemory, Ty};

/// The rows of an input that are still to come.
#[derive(Drop)]
pub struct RowStream {
    ahead: Lookahead,
    types: Vec<Ty>,
    keep: Vec<bool>,
    steps: Vec<Step>,
    next: u64,
    size: BlockSize,
    block: Block,
}

impl Model for RowStream {
    ghost use Rattle.std.specs.Prelude.{◌≡◌, length};
    ghost use Rattle.quick_rows.specs.Keeping.{AreSteps};
    ghost use Rattle.batch_reader.specs.Streaming.{Coming};
    ghost use Rattle.value_types.specs.contracts.ty.Ty as of_ty;
    ghost use Rattle.std.specs.Coded.{codes};

    ghost Value = { Coming };

    ghost coded = { Prim.hlevel (codes, of_ty.the_row.coded) };

    ghost view = { λ s. record { ahead = s.ahead; types = s.types.items; keep = s.keep.items; next = s.next } };

    ghost invariant = { λ s. (length s.keep.items ≡ length s.types.items) × AreSteps s.types.items s.keep.items s.steps.items };
}

// The number of the row behind those of a batch.
fn number_behind(next: u64, batch: &Batch) -> Result<u64, OutOfMemory>
    ensures { IfOk result (λ number. number ≡ next + length batch.now.rows) }
{
    let count = batch.len() as u64;
    if count > u64::MAX - next {
        return Err(OutOfMemory);
    }
    Ok(next + count)
}

// Puts the kept values of the lines of a text into an empty batch, up to the first that is refused; the first of them has this number. Tells
// the number of the row that comes next.
#[tactic(auto, using(crate::proofs::Streams::behind_laws))]
fn keep_behind<R: StateReader>(
    alloc: Global,
    reader: &R,
    types: &[Ty],
    keep: &[bool],
    steps: &[Step],
    text: &[u8],
    next: u64,
    batch: &mut Batch,
) -> Result<u64, RowFault>
    requires few { length types.now < 2 ^ 32 }
    requires readable { AreReadable (R.takes reader.now) types.now }
    requires steps { AreSteps types.now keep.now steps.now }
    requires marks { length keep.now ≡ length types.now }
    requires empty { batch.old ≡ no_rows (kept keep.now types.now) }
    ensures rows { KeepsBehind (R.reads reader.now) types.now keep.now next (lines_of text.now) batch.new result }
    ensures next { IfOk result (λ number. number ≡ next + length batch.new.rows) }
    ensures quiet { (before now : ℕ) → IfErr result (λ fault. RowCause {A = Bool} before now (Err fault)) }
{
    match keep_lines(alloc, reader, types, keep, steps, text, batch) {
        Ok(()) => Ok(number_behind(next, batch)?),
        Err(refusal) => match number_behind(next, batch) {
            Ok(number) => Err(fault_of(number, refusal)),
            Err(_) => Err(RowFault::OutOfMemory),
        },
    }
}

// What is answered to a block without a refused row.
fn stop_answer(next: u64, stop: Stop) -> Result<bool, RowFault>
    ensures { result ≡ stop_answer next stop }
{
    match stop {
        Stop::More => Ok(true),
        Stop::End => Ok(false),
        Stop::Read => Err(RowFault::Read),
        Stop::TooLong => Err(RowFault::TooLong { row: next }),
        Stop::TooLarge => Err(RowFault::TooLarge),
    }
}

// The step of each column.
fn steps_of(alloc: Global, types: &[Ty], keep: &[bool]) -> Result<Vec<Step>, OutOfMemory>
    requires { length keep.now ≡ length types.now }
    ensures { IfOk result (λ steps. AreSteps types.now keep.now steps.items) }
{
    let mut steps = Vec::new(alloc);
    for i in 0..types.len() {
        steps.push(step_of(&types[i], keep[i]))?;
    }
    Ok(steps)
}

// Copies of the types that are kept.
fn kept_types(alloc: Global, keep: &[bool], types: &[Ty]) -> Result<Vec<Ty>, OutOfMemory>
    requires { length keep.now ≡ length types.now }
    ensures { IfOk result (λ copied. copied.items ≡ kept keep.now types.now) }
{
    let mut copied = Vec::new(alloc);
    for i in 0..types.len() {
        keep_type(alloc, keep[i], &types[i], &mut copied)?;
    }
    Ok(copied)
}

// Adds a copy of a type where it is kept.
fn keep_type(alloc: Global, mark: bool, ty: &Ty, types: &mut Vec<Ty>) -> Result<(), OutOfMemory>
    ensures { OnOk result (types.new.items ≡ types.old.items ++ kept (mark ∷ []) (ty.now ∷ [])) }
{
    if mark {
        types.push(ty.copy(alloc)?)?;
    }
    Ok(())
}

impl RowStream {
    /// The rows behind what is held, in the types of the table's columns; the first has number 1.
    ///
    /// # Errors
    ///
    /// [`OutOfMemory`] where there is no room for the types.
    #[tactic(auto, using(crate::proofs::Streams::start_laws))]
    pub fn new(
        alloc: Global,
        ahead: Lookahead,
        schema: &Schema,
        keep: Vec<bool>,
    ) -> Result<RowStream, OutOfMemory>
        requires { length keep.items ≡ length schema.now.columns }
        ensures ahead { IfOk result (λ stream. stream.ahead ≡ ahead) }
        ensures types { IfOk result (λ stream. stream.types ≡ schema_types schema.now) }
        ensures keep { IfOk result (λ stream. stream.keep ≡ keep.items) }
        ensures next { IfOk result (λ stream. stream.next ≡ 1) }
        ensures none { IfOk result (λ stream. (reads : ReadsStates) (left : Option (List ℕ)) → HasRead reads stream.types left left stream.ahead stream.ahead []) }
    {
        let types = types_of(alloc, schema)?;
        let steps = steps_of(alloc, &types, &keep)?;
        Ok(RowStream {
            ahead,
            types,
            keep,
            steps,
            next: 1,
            size: BlockSize::short(),
            block: Block::new(alloc),
        })
    }

    /// Sets how many lines or bytes make a block from here on: few at first.
    pub fn set_block_size(&mut self, size: BlockSize)
        ensures { self.new ≡ self.old }
    {
        self.size = size;
    }

    /// No rows, of the kept columns.
    ///
    /// # Errors
    ///
    /// [`OutOfMemory`] where there is no room for the columns.
    pub fn no_rows(&self, alloc: Global) -> Result<Batch, OutOfMemory>
        ensures { IfOk result (λ batch. batch ≡ no_rows (kept self.now.keep self.now.types)) }
    {
        let types = kept_types(alloc, &self.keep, &self.types)?;
        Batch::new(alloc, &types)
    }

    /// Puts the kept values of the next lines in the place of a batch's rows, and tells whether more may come: where none do, the input is at its end.
    ///
    /// # Errors
    ///
    /// As of [`crate::read_rows`]: the first thing that is wrong, every complete line before what is wrong behind it. The stream is only to be
    /// dropped then.
    #[tactic(auto, using(crate::proofs::Streams::stream_laws))]
    pub fn next_batch<S: Source, R: StateReader>(
        &mut self,
        alloc: Global,
        source: &mut S,
        reader: &R,
        batch: &mut Batch,
    ) -> Result<bool, RowFault>
        requires few { length self.old.types < 2 ^ 32 }
        requires readable { AreReadable (R.takes reader.now) self.old.types }
        requires types { batch.old.types ≡ kept self.old.keep self.old.types }
        ensures types { self.new.types ≡ self.old.types }
        ensures keep { self.new.keep ≡ self.old.keep }
        ensures of { OnOk result (batch.new.types ≡ batch.old.types) }
        ensures next { OnOk result (self.new.next ≡ self.old.next + length batch.new.rows) }
        ensures rows { ReadsMore (R.reads reader.now) (S.left source.old) (S.left source.new) self.old self.new batch.new result }
        ensures cause { RowCause (S.faults source.old) (S.faults source.new) result }
    {
        batch.clear();
        let stop = self
            .ahead
            .read_block_of(source, &mut self.block, self.size)?;
        let text = self.block.as_slice();
        match keep_behind(
            alloc,
            reader,
            &self.types,
            &self.keep,
            &self.steps,
            text,
            self.next,
            batch,
        ) {
            Ok(next) => {
                self.next = next;
                stop_answer(next, stop)
            }
            Err(fault) => Err(fault),
        }
    }
}
