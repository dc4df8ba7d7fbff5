//! What was taken from a source ahead of what was handed out, with the limits: the lines come from here.
ghost use Rattle.std.specs.Prelude.{◌≡◌, [], ◌+◌, ◌-◌, ◌≤◌, IfOk, OnOk, drop, length, take};
ghost use Rattle.line_reader.specs.Ahead.{new_ahead};
ghost use Rattle.line_reader.specs.proving.Awaiting.{TakesLine};
ghost use Rattle.line_reader.specs.Answers.{LineCause, ReadsBlock, ReadsNext};
ghost use Rattle.line_reader.specs.Filling.{FillCause, block_end};

use crate::awaiting::await_line;
use crate::filling::fill;
use crate::{Block, BlockSize, LineFault, Stop};
use agg_ports::Source;
use std::alloc::Global;
use std::marker::Model;
use value_lists::{Bytes, OutOfMemory};

/// Bytes that were taken and not yet handed out, and how much the next line and the input may still have. Contracts see it as an `Ahead`.
#[derive(Drop)]
pub struct Lookahead {
    held: Block,
    most_line: u64,
    room: u64,
}

impl Model for Lookahead {
    ghost use Rattle.std.specs.Prelude.{◌+◌, ◌≤◌, length};
    ghost use Rattle.line_reader.specs.Ahead.{Ahead};

    ghost Value = { Ahead };

    ghost view = { λ a. record { held = a.held; most_line = a.most_line; room = a.room } };

    ghost invariant = { λ a. (length a.held ≤ a.most_line + 1) × (length a.held ≤ a.room + 1) };
}

// Where a block ends: at the end of the input its last line may lack its newline.
fn block_end(stop: Stop, cut: usize, len: usize) -> usize
    ensures { result ≡ block_end stop cut len }
{
    if stop == Stop::End { len } else { cut }
}

impl Lookahead {
    /// Nothing taken yet of an input of at most `most_input` bytes, whose lines have at most `most_line` bytes without their newline.
    pub fn new(alloc: Global, most_line: u64, most_input: u64) -> Lookahead
        ensures { result ≡ new_ahead most_line most_input }
    {
        Lookahead {
            held: Block::new(alloc),
            most_line,
            room: most_input,
        }
    }

    // Hands out the line at the front of what is held, and drops so many bytes with it.
    fn take_line(
        &mut self,
        alloc: Global,
        len: usize,
        used: usize,
    ) -> Result<Option<Bytes>, LineFault>
        requires line { len ≤ used }
        requires within { used ≤ length self.old.held }
        requires below { used ≤ self.old.room }
        ensures { TakesLine len used self.old self.new result }
    {
        match Bytes::from_slice(alloc, &self.held.as_slice()[..len]) {
            Ok(line) => {
                self.held.drop_front(used);
                self.room -= used as u64;
                Ok(Some(line))
            }
            Err(_) => Err(LineFault::OutOfMemory),
        }
    }

    /// The next line, without its newline, or `None` at the end of the input.
    ///
    /// # Errors
    ///
    /// Each of [`LineFault`]. After a broken limit or a fault of reading nothing more is to be read; after [`LineFault::OutOfMemory`] what was
    /// taken is still held.
    pub fn next_line<S: Source>(
        &mut self,
        alloc: Global,
        source: &mut S,
    ) -> Result<Option<Bytes>, LineFault>
        ensures next { ReadsNext (S.left source.old) (S.left source.new) self.old self.new result }
        ensures cause { LineCause (S.faults source.old) (S.faults source.new) result }
    {
        match await_line(source, &mut self.held, self.most_line, self.room) {
            Ok(Some(at)) => self.take_line(alloc, at, at + 1),
            Ok(None) if self.held.is_empty() => Ok(None),
            Ok(None) => {
                let len = self.held.len();
                self.take_line(alloc, len, len)
            }
            Err(fault) => Err(fault),
        }
    }

    // Hands out the whole lines of a block and keeps what stands behind them.
    fn hand_out(&mut self, block: &mut Block, cut: usize) -> Result<(), OutOfMemory>
        requires empty { self.old.held ≡ [] }
        requires within { cut ≤ length block.old }
        requires below { cut ≤ self.old.room }
        requires line { length block.old ≤ cut + self.old.most_line + 1 }
        requires input { length block.old ≤ self.old.room + 1 }
        ensures block { OnOk result (block.new ≡ take cut block.old) }
        ensures ahead { OnOk result (self.new ≡ record { held = drop cut block.old; most_line = self.old.most_line; room = self.old.room - cut }) }
    {
        self.held.append(&block.as_slice()[cut..])?;
        block.truncate(cut);
        self.room -= cut as u64;
        Ok(())
    }

    /// As [`Lookahead::read_block_of`], with a long block.
    ///
    /// # Errors
    ///
    /// As of [`Lookahead::read_block_of`].
    pub fn read_block<S: Source>(
        &mut self,
        source: &mut S,
        block: &mut Block,
    ) -> Result<Stop, OutOfMemory>
        ensures block { IfOk result (ReadsBlock (S.left source.old) (S.left source.new) self.old self.new block.new) }
        ensures cause { IfOk result (FillCause (S.faults source.old) (S.faults source.new)) }
    {
        self.read_block_of(source, block, BlockSize::long())
    }

    /// Fills a block with the whole lines that come next, until it has enough or there are no more, and tells what stands behind them. What
    /// the block had is dropped; its memory is used again.
    ///
    /// # Errors
    ///
    /// [`OutOfMemory`] where there is no room for the bytes; nothing more can be read then.
    pub fn read_block_of<S: Source>(
        &mut self,
        source: &mut S,
        block: &mut Block,
        size: BlockSize,
    ) -> Result<Stop, OutOfMemory>
        ensures block { IfOk result (ReadsBlock (S.left source.old) (S.left source.new) self.old self.new block.new) }
        ensures cause { IfOk result (FillCause (S.faults source.old) (S.faults source.new)) }
    {
        block.clear();
        block.append(self.held.as_slice())?;
        self.held.clear();
        let (stop, cut) = fill(source, block, size, self.most_line, self.room)?;
        let end = block_end(stop, cut, block.len());
        self.hand_out(block, end)?;
        Ok(stop)
    }
}
