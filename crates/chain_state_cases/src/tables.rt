//! The rows of a case.
ghost use Rattle.std.specs.Prelude.{◌≡◌, ◌<◌, ◌≤◌, ◌^◌, length, map, IfOk, IfSome, OnOk};
ghost use Rattle.columns.specs.Rows.{RowFits};
ghost use Rattle.row_texts.specs.Rows.{AreReadable};
ghost use Rattle.state_codec.specs.Codec.{IsLegalState};

use agg_defs::{Column, Schema};
use columns::Batch;
use legal_fields::law_legal_fields;
use request_rules::Refusal;
use request_text::schema_in;
use row_texts::{LineRefusal, judge_line};
use state_codec::Codec;
use std::alloc::Global;
use value_types::{OutOfMemory, Seq, Ty};

/// Copies of the types of columns, in their order.
fn types_of(alloc: Global, columns: &[Column]) -> Result<Seq<Ty>, OutOfMemory>
    ensures { IfOk result (λ types. types ≡ map (λ c. c.ty) columns.now) }
{
    let mut types = Seq::new(alloc);
    for column in columns {
        types.push(column.ty.copy(alloc)?)?;
    }
    Ok(types)
}

/// The types of a table's columns; none where its line is refused.
pub(crate) fn types_in(alloc: Global, table: &[u8]) -> Result<Option<Seq<Ty>>, OutOfMemory>
    requires { length table.now < 2 ^ 32 }
    ensures few { IfOk result (λ found. IfSome found (λ types. length types < 2 ^ 32)) }
    ensures readable { IfOk result (λ found. IfSome found (λ types. AreReadable IsLegalState types)) }
{
    law_legal_fields::<Codec>();
    match schema_in(alloc, table) {
        Ok(schema) => Ok(Some(types_of(alloc, schema.columns.as_slice())?)),
        Err(Refusal::OutOfMemory) => Err(OutOfMemory),
        Err(Refusal::Broken(_)) => Ok(None),
    }
}

/// Adds the row that a line says; false where it says none.
fn add_line(
    alloc: Global,
    types: &[Ty],
    line: &[u8],
    batch: &mut Batch,
) -> Result<bool, OutOfMemory>
    requires few { length types.now < 2 ^ 32 }
    requires readable { AreReadable IsLegalState types.now }
    requires types { batch.old.types ≡ types.now }
    ensures { OnOk result (batch.new.types ≡ types.now) }
{
    match judge_line(alloc, &Codec, types, line) {
        Ok(row) => {
            batch.push_row(alloc, row.as_slice())?;
            Ok(true)
        }
        Err(LineRefusal::OutOfMemory) => Err(OutOfMemory),
        Err(_) => Ok(false),
    }
}

/// The rows that lines say; none where one of them says none.
pub(crate) fn batch_of(
    alloc: Global,
    types: &[Ty],
    lines: &[Vec<u8>],
) -> Result<Option<Batch>, OutOfMemory>
    requires few { length types.now < 2 ^ 32 }
    requires readable { AreReadable IsLegalState types.now }
{
    let mut batch = Batch::new(alloc, types)?;
    for line in lines {
        if !add_line(alloc, types, line.as_slice(), &mut batch)? {
            return Ok(None);
        }
    }
    Ok(Some(batch))
}
