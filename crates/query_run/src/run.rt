//! `agg query` with one piece: the input is read and judged to its end, and then the answer is written.
ghost use Rattle.std.specs.Prelude.{◌≤◌, Ok, Err, IfOk, IfErr};
ghost use Rattle.std.specs.Io.KnownBytes.{IsAtEnd};
ghost use Rattle.query_run.specs.Runs.{EndsQuery, IsComplete, IsQueryRun, IsRefusal, Tells};
ghost use Rattle.query_run.specs.proving.Heads.{StatusCause};

use crate::answer::answer_rows;
use crate::head::read_head;
use crate::laws::law_one_outcome;
use crate::status::status_of;
use agg_ports::{Put, Sink, Source};
use batch_reader::Lookahead;
use refusals::Status;
use std::alloc::Global;
use std::random::RandomSource;

const MOST_LINE: u64 = 16_777_216;

const MOST_INPUT: u64 = 268_435_456;

// The text that the whole input comes to, or how the run ends that refuses it.
fn answer<H: RandomSource, S: Source>(
    rt: &H,
    alloc: Global,
    source: &mut S,
) -> Result<Vec<u8>, Status>
    ensures text { IfOk result (λ text. IsQueryRun S.left source.old source.new (Ok text.items)) }
    ensures ended { IfOk result (λ _. IsAtEnd (S.left source.new)) }
    ensures refused { IfErr result (λ status. IsQueryRun S.left source.old source.new (Err status)) }
    ensures refusal { IfErr result IsRefusal }
    ensures cause { StatusCause (S.faults source.old) (S.faults source.new) result }
{
    let mut ahead = Lookahead::new(alloc, MOST_LINE, MOST_INPUT);
    let query = match read_head(alloc, &mut ahead, source) {
        Ok(query) => query,
        Err(status) => return Err(status),
    };
    match answer_rows(rt, alloc, ahead, source, &query) {
        Ok(text) => Ok(text),
        Err(fault) => Err(status_of(fault)),
    }
}

// Runs a query whose input is judged before a byte is written.
fn run<H: RandomSource, S: Source, K: Sink>(
    rt: &H,
    alloc: Global,
    source: &mut S,
    sink: &mut K,
) -> Status
    ensures { EndsQuery (IsQueryRun S.left source.old source.new) (S.left source.new)
        (record {
          source_before = S.faults source.old;
          source_now = S.faults source.new;
          held_before = K.held sink.old;
          held_now = K.held sink.new;
          sink_before = K.faults sink.old;
          sink_now = K.faults sink.new;
        }) result }
{
    match answer(rt, alloc, source) {
        Ok(text) => match sink.put(text.as_slice()) {
            Put::Done => Status::Done,
            Put::Failed(_) => Status::WriteFault,
        },
        Err(status) => status,
    }
}

/// Runs a query: reads a table's line, a request's line and rows, and writes the answer. Where it is refused nothing is written.
/// Lines have at most 16,777,216 bytes and the input has at most 268,435,456, this project's own choice. Where no random bytes
/// can be had for the seed of the tables' keys, it ends for want of memory.
///
/// `threads` and `pieces` are how many threads may work on so many pieces of the input.
pub fn run_query<H: RandomSource, S: Source, K: Sink>(
    rt: &H,
    alloc: Global,
    threads: u32,
    pieces: u32,
    source: &mut S,
    sink: &mut K,
) -> Status
    requires threads { (1 ≤ threads) × (threads ≤ 32) }
    requires pieces { (1 ≤ pieces) × (pieces ≤ 64) }
    ensures ends { EndsQuery (IsQueryRun S.left source.old source.new) (S.left source.new)
        (record {
          source_before = S.faults source.old;
          source_now = S.faults source.new;
          held_before = K.held sink.old;
          held_now = K.held sink.new;
          sink_before = K.faults sink.old;
          sink_now = K.faults sink.new;
        }) result }
    ensures complete { Tells S.left → IsComplete (S.left source.old)
        (record {
          source_before = S.faults source.old;
          source_now = S.faults source.new;
          held_before = K.held sink.old;
          held_now = K.held sink.new;
          sink_before = K.faults sink.old;
          sink_now = K.faults sink.new;
        }) result }
{
    law_one_outcome();
    run(rt, alloc, source, sink)
}
