//! The text of the answer over the rows behind the head.
ghost use Rattle.std.specs.Prelude.{◌≡◌, ◌≤◌, ◌<◌, ◌^◌, List, Option, [], ℕ, length, map, Err, IfOk, IfErr};
ghost use Rattle.agg_defs.specs.Plans.{PlanFits};
ghost use Rattle.batch_reader.specs.Reading.{ReadsRows, RowCause, column_type, schema_types};
ghost use Rattle.batch_reader.specs.Streaming.{HasRead};
ghost use Rattle.group_tables.specs.Groupings.{IsReady};
ghost use Rattle.group_tables.specs.Tables.{AreTables, IsTableOf};
ghost use Rattle.quick_rows.specs.Keeping.{kept};
ghost use Rattle.request_rules.specs.Tables.{AreLegal};
ghost use Rattle.request_rules.specs.Views.{schema_of};
ghost use Rattle.row_texts.specs.Rows.{AreReadable};
ghost use Rattle.state_codec.specs.Codec.{IsLegalState, state_reading};
ghost use Rattle.query_run.specs.proving.Answering.{AnswersRows, GroupsAnswer, IsGroupingOf, IsNeeded, IsTextOf, IsWritten};

use crate::feeding::feed_rows;
use agg_defs::{Column, Schema, law_typing};
use agg_ports::Source;
use batch_reader::{Lookahead, RowFault, RowStream};
use columns::Batch;
use group_answers::put_answer;
use group_tables::{GroupTable, Grouping};
use legal_fields::law_legal_fields;
use needed_columns::{Needed, needed_columns};
use request_text::Query;
use state_codec::{Codec, law_legal_types_have_states};
use std::alloc::Global;
use std::collections::hash_map::RandomState;
use std::random::RandomSource;
use value_types::{OutOfMemory, Seq, Ty};

// Copies of the types of columns, in their order.
fn types_of(alloc: Global, columns: &[Column]) -> Result<Seq<Ty>, OutOfMemory>
    ensures { IfOk result (λ types. types ≡ map column_type columns.now) }
{
    let mut types = Seq::new(alloc);
    for column in columns {
        types.push(column.ty.copy(alloc)?)?;
    }
    Ok(types)
}

// The plan over the needed columns, made ready.
fn grouping_of(
    alloc: Global,
    query: &Query,
    needed: &Needed,
    hasher: RandomState,
) -> Result<Grouping, OutOfMemory>
    requires fits { PlanFits query.now.schema query.now.plan }
    requires needed { IsNeeded query.now needed.now.keep.items needed.now.schema needed.now.plan }
    ensures { IfOk result (IsGroupingOf query.now needed.now.keep.items) }
{
    law_typing();
    law_legal_types_have_states();
    let types = types_of(alloc, needed.schema.columns.as_slice())?;
    Grouping::new(alloc, &needed.plan, types.as_slice(), hasher)
}

// The text of the answer of a table.
fn text_of(alloc: Global, grouping: &Grouping, table: &GroupTable) -> Result<Vec<u8>, OutOfMemory>
    requires ready { IsReady grouping.now }
    requires table { IsTableOf grouping.now table.now }
    requires written { IsWritten grouping.now }
    ensures { IfOk result (λ text. IsTextOf grouping.now table.now text.items) }
{
    let mut text = Vec::new(alloc);
    put_answer(alloc, &Codec, grouping, table, &mut text)?;
    Ok(text)
}

// The text of the answer over all rows of a stream, through an empty batch and an empty table.
#[tactic(auto, using(crate::proofs::Batches::memory_laws))]
fn answer_through<S: Source>(
    alloc: Global,
    stream: &mut RowStream,
    source: &mut S,
    grouping: &Grouping,
    batch: &mut Batch,
    table: &mut GroupTable,
) -> Result<Vec<u8>, RowFault>
    requires few { length stream.old.types < 2 ^ 32 }
    requires readable { AreReadable IsLegalState stream.old.types }
    requires batch { batch.old.types ≡ kept stream.old.keep stream.old.types }
    requires ready { IsReady grouping.now }
    requires written { IsWritten grouping.now }
    requires types { grouping.now.types ≡ kept stream.old.keep stream.old.types }
    requires empty { AreTables grouping.now table.old [] }
    requires next { stream.old.next ≡ 1 }
    requires none { (left : Option (List ℕ)) → HasRead state_reading stream.old.types left left stream.old.ahead stream.old.ahead [] }
    ensures text { IfOk result (λ text. GroupsAnswer stream.old.types stream.old.keep (S.left source.old) (S.left source.new) stream.old.ahead grouping.now text.items) }
    ensures fault { IfErr result (λ fault. ReadsRows state_reading stream.old.types (S.left source.old) (S.left source.new) stream.old.ahead (Err fault)) }
    ensures cause { RowCause (S.faults source.old) (S.faults source.new) result }
{
    match feed_rows(alloc, stream, source, grouping, batch, table) {
        Ok(()) => Ok(text_of(alloc, grouping, table)?),
        Err(fault) => Err(fault),
    }
}

// The text of the answer over all rows of a stream.
#[tactic(auto, using(crate::proofs::Batches::memory_laws))]
fn answer_stream<S: Source>(
    alloc: Global,
    stream: &mut RowStream,
    source: &mut S,
    grouping: &Grouping,
) -> Result<Vec<u8>, RowFault>
    requires few { length stream.old.types < 2 ^ 32 }
    requires readable { AreReadable IsLegalState stream.old.types }
    requires ready { IsReady grouping.now }
    requires written { IsWritten grouping.now }
    requires types { grouping.now.types ≡ kept stream.old.keep stream.old.types }
    requires next { stream.old.next ≡ 1 }
    requires none { (left : Option (List ℕ)) → HasRead state_reading stream.old.types left left stream.old.ahead stream.old.ahead [] }
    ensures text { IfOk result (λ text. GroupsAnswer stream.old.types stream.old.keep (S.left source.old) (S.left source.new) stream.old.ahead grouping.now text.items) }
    ensures fault { IfErr result (λ fault. ReadsRows state_reading stream.old.types (S.left source.old) (S.left source.new) stream.old.ahead (Err fault)) }
    ensures cause { RowCause (S.faults source.old) (S.faults source.new) result }
{
    let mut batch = stream.no_rows(alloc)?;
    let mut table = GroupTable::new(alloc, grouping)?;
    answer_through(alloc, stream, source, grouping, &mut batch, &mut table)
}

// The text of the answer over all rows behind what is held, with the plan made ready over what a query needs of its table.
#[tactic(auto, using(crate::proofs::Batches::memory_laws))]
fn answer_kept<S: Source>(
    alloc: Global,
    ahead: Lookahead,
    source: &mut S,
    query: &Query,
    needed: Needed,
    grouping: &Grouping,
) -> Result<Vec<u8>, RowFault>
    requires few { length query.now.schema.columns ≤ 64 }
    requires legal { AreLegal (schema_of query.now.schema) }
    requires grouping { IsGroupingOf query.now needed.keep.items grouping.now }
    ensures text { IfOk result (λ text. AnswersRows query.now (S.left source.old) (S.left source.new) ahead text.items) }
    ensures fault { IfErr result (λ fault. ReadsRows state_reading (schema_types query.now.schema) (S.left source.old) (S.left source.new) ahead (Err fault)) }
    ensures cause { RowCause (S.faults source.old) (S.faults source.new) result }
{
    law_legal_fields::<Codec>();
    let mut stream = RowStream::new(alloc, ahead, &query.schema, needed.keep)?;
    answer_stream(alloc, &mut stream, source, grouping)
}

// The same, with the plan made ready here.
#[tactic(auto, using(crate::proofs::Batches::memory_laws))]
fn answer_needed<S: Source>(
    alloc: Global,
    hasher: RandomState,
    ahead: Lookahead,
    source: &mut S,
    query: &Query,
    needed: Needed,
) -> Result<Vec<u8>, RowFault>
    requires fits { PlanFits query.now.schema query.now.plan }
    requires few { length query.now.schema.columns ≤ 64 }
    requires legal { AreLegal (schema_of query.now.schema) }
    requires needed { IsNeeded query.now needed.keep.items needed.schema needed.plan }
    ensures text { IfOk result (λ text. AnswersRows query.now (S.left source.old) (S.left source.new) ahead text.items) }
    ensures fault { IfErr result (λ fault. ReadsRows state_reading (schema_types query.now.schema) (S.left source.old) (S.left source.new) ahead (Err fault)) }
    ensures cause { RowCause (S.faults source.old) (S.faults source.new) result }
{
    let grouping = grouping_of(alloc, query, &needed, hasher)?;
    answer_kept(alloc, ahead, source, query, needed, &grouping)
}

/// The text of the answer over all rows behind what is held.
///
/// # Errors
///
/// The first thing that is wrong with the rows. Where no random bytes can be had for the hasher's seed, want of memory.
#[tactic(auto, using(crate::proofs::Batches::memory_laws))]
pub(crate) fn answer_rows<H: RandomSource, S: Source>(
    rt: &H,
    alloc: Global,
    ahead: Lookahead,
    source: &mut S,
    query: &Query,
) -> Result<Vec<u8>, RowFault>
    requires fits { PlanFits query.now.schema query.now.plan }
    requires few { length query.now.schema.columns ≤ 64 }
    requires legal { AreLegal (schema_of query.now.schema) }
    ensures text { IfOk result (λ text. AnswersRows query.now (S.left source.old) (S.left source.new) ahead text.items) }
    ensures fault { IfErr result (λ fault. ReadsRows state_reading (schema_types query.now.schema) (S.left source.old) (S.left source.new) ahead (Err fault)) }
    ensures cause { RowCause (S.faults source.old) (S.faults source.new) result }
{
    let Ok(hasher) = RandomState::new(rt) else {
        return Err(RowFault::OutOfMemory);
    };
    let needed = needed_columns(alloc, &query.schema, &query.plan)?;
    answer_needed(alloc, hasher, ahead, source, query, needed)
}
