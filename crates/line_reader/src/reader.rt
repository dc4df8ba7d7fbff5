//! The reader of lines over a source that it borrows.
ghost use Rattle.std.specs.Prelude.{◌≡◌};
ghost use Rattle.line_reader.specs.Ahead.{new_ahead};
ghost use Rattle.line_reader.specs.Answers.{LineCause, ReadsNext};

use crate::{LineFault, Lookahead};
use agg_ports::Source;
use std::alloc::Global;
use value_lists::Bytes;

/// The lines of a source: what is still to come is what `ahead` holds and then what the source has left. The parts are open, so that whoever
/// reads all lines can take them apart.
#[derive(Drop)]
pub struct LineReader<'a, S: Source, A = Lookahead> {
    pub source: &'a mut S,
    pub ahead: A,
}

impl<'a, S: Source> LineReader<'a, S> {
    /// A reader of the lines of a source, at most `most_line` bytes each without its newline, and at most `most_input` bytes in all. Takes no
    /// memory. The limits are this project's own choice.
    pub fn new(
        alloc: Global,
        source: &'a mut S,
        most_line: u64,
        most_input: u64,
    ) -> LineReader<'a, S>
        ensures same_reference { result.source.ghost_name ≡ source.entry.ghost_name }
        ensures same { result.source.now ≡ source.old }
        ensures ahead { result.ahead ≡ new_ahead most_line most_input }
    {
        LineReader {
            source,
            ahead: Lookahead::new(alloc, most_line, most_input),
        }
    }

    /// The next line, without its newline, or `None` at the end of the input: a line ends with a newline or with the input, and nothing after
    /// the last newline is a line.
    ///
    /// # Errors
    ///
    /// - [`LineFault::Read`]: the source failed. Every complete line among the bytes taken was handed out before.
    /// - [`LineFault::TooLong`]: the line has more than `most_line` bytes.
    /// - [`LineFault::TooLarge`]: byte `most_input + 1` of the input comes before the line is complete. Of two broken limits the first is
    ///   told, and `TooLong` where both break at one byte.
    /// - [`LineFault::OutOfMemory`]: there is no room for the line.
    ///
    /// After an error the reader is only to be dropped.
    pub fn next_line(&mut self, alloc: Global) -> Result<Option<Bytes>, LineFault>
        ensures same_reference { self.new.source.ghost_name ≡ self.old.source.ghost_name }
        ensures next { ReadsNext (S.left self.old.source.now) (S.left self.new.source.now) self.old.ahead self.new.ahead result }
        ensures cause { LineCause (S.faults self.old.source.now) (S.faults self.new.source.now) result }
    {
        self.ahead.next_line(alloc, self.source)
    }
}
