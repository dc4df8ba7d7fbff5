//! The rows of one piece of a block, in columns that are kept for the blocks behind it: room that was made once is not made again.
ghost use Rattle.std.specs.Prelude.{◌≡◌, ◌<◌, ◌^◌, length, IfOk};
ghost use Rattle.row_texts.specs.Rows.{AreReadable};
ghost use Rattle.batch_reader.specs.proving.Pieces.{HasPiece};

use crate::pushing::push_lines;
use columns::Batch;
use row_texts::LineRefusal;
use std::alloc::Global;
use tsv_values::StateReader;
use value_types::{OutOfMemory, Ty};

/// The rows of a piece up to its first refused line, and why that one is none.
#[derive(Drop)]
pub(crate) struct Lane {
    pub(crate) rows: Batch,
    pub(crate) pushed: Result<(), LineRefusal>,
}

impl Lane {
    /// No rows, of these types.
    ///
    /// # Errors
    ///
    /// [`OutOfMemory`] where there is no room for the columns.
    pub(crate) fn new(alloc: Global, types: &[Ty]) -> Result<Lane, OutOfMemory>
        ensures { IfOk result (λ lane. lane.rows.types ≡ types.now) }
    {
        let rows = Batch::new(alloc, types)?;
        Ok(Lane {
            rows,
            pushed: Ok(()),
        })
    }

    /// Puts the rows of a piece in the place of those that were here.
    pub(crate) fn fill<R: StateReader>(
        &mut self,
        alloc: Global,
        reader: &R,
        types: &[Ty],
        text: &[u8],
    )
        requires few { length types.now < 2 ^ 32 }
        requires readable { AreReadable (R.takes reader.now) types.now }
        requires types { self.old.rows.types ≡ types.now }
        ensures { HasPiece (R.reads reader.now) types.now text.now self.new }
    {
        self.rows.clear();
        self.pushed = push_lines(alloc, reader, types, text, &mut self.rows);
    }
}
