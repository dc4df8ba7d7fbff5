//! What the law of rows is for.
ghost use Rattle.row_texts.specs.OneRow.{IsSameRow};
ghost use Rattle.row_texts.specs.Rows.{AreReadable};
ghost use Rattle.std.specs.Prelude.{◌<◌, ◌^◌, length};

use row_texts::{LineRefusal, judge_line, law_one_row};
use std::alloc::Global;
use tsv_values::StateReader;
use value_types::{Seq, Ty, Value};

/// A line judged twice, with the same answer unless memory ran out.
pub fn judge_twice<R: StateReader>(
    alloc: Global,
    reader: &R,
    types: &[Ty],
    line: &[u8],
) -> (
    Result<Seq<Value>, LineRefusal>,
    Result<Seq<Value>, LineRefusal>,
)
    requires few { length types.now < 2 ^ 32 }
    requires readable { AreReadable (R.takes reader.now) types.now }
    ensures { IsSameRow result.0 result.1 }
{
    law_one_row();
    let first = judge_line(alloc, reader, types, line);
    let second = judge_line(alloc, reader, types, line);
    (first, second)
}
