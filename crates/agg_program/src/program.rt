//! One run, from the words and the source to the sink.
ghost use Rattle.std.specs.Prelude.{◌≤◌};
ghost use Rattle.agg_program.specs.Program.{EndsProgram, IsCompleteProgram};
ghost use Rattle.query_run.specs.Runs.{Ends, IsComplete, IsQueryRun, Tells};
ghost use Rattle.query_words.specs.Words.{texts_of};

use crate::refusing::{refuse, refuse_words};
use agg_ports::{Sink, Source};
use query_run::run_query;
use query_words::{Command, read_words};
use refusals::Status;
use std::alloc::Global;
use std::random::RandomSource;
use std::thread::Threads;

/// Runs a query, and writes the line of what refuses it.
fn query<R: Threads + RandomSource + Clone + Send + Sync + Drop, S: Source, K: Sink>(
    rt: &R,
    alloc: Global,
    threads: u32,
    pieces: u32,
    source: &mut S,
    sink: &mut K,
) -> Status
    requires threads { (1 ≤ threads) × (threads ≤ 32) }
    requires pieces { (1 ≤ pieces) × (pieces ≤ 64) }
    ensures ends { Ends (IsQueryRun S.left source.old source.new) (S.left source.new) (record {
      source_before = S.faults source.old;
      source_now = S.faults source.new;
      held_before = K.held sink.old;
      held_now = K.held sink.new;
      sink_before = K.faults sink.old;
      sink_now = K.faults sink.new;
    }) result }
    ensures complete { Tells S.left → IsComplete (S.left source.old) (record {
      source_before = S.faults source.old;
      source_now = S.faults source.new;
      held_before = K.held sink.old;
      held_now = K.held sink.new;
      sink_before = K.faults sink.old;
      sink_now = K.faults sink.new;
    }) result }
{
    match run_query(rt, alloc, threads, pieces, source, sink) {
        Status::Done => Status::Done,
        Status::WriteFault => Status::WriteFault,
        status => refuse(alloc, status, sink),
    }
}

/// Runs the command that the words name, from the source to the sink. `query` reads a table's line, a request's line and rows,
/// and writes the answer, a line for each group; `script` and `make` aren't built yet and are refused, as is every other list of
/// words.
///
/// With status Done the source was read to its end and the whole answer was written; with WriteFault the sink failed, and a
/// front of the text was written; with every other status its error line was, and nothing else.
pub fn run<R: Threads + RandomSource + Clone + Send + Sync + Drop, S: Source, K: Sink>(
    rt: &R,
    alloc: Global,
    words: &[String],
    source: &mut S,
    sink: &mut K,
) -> Status
    // How a run ends: what was written is what the words and the input come to, and each fault has its cause.
    ensures ends { EndsProgram S.left source.old source.new (texts_of words.now) (record {
      source_before = S.faults source.old;
      source_now = S.faults source.new;
      held_before = K.held sink.old;
      held_now = K.held sink.new;
      sink_before = K.faults sink.old;
      sink_now = K.faults sink.new;
    }) result }

    // Where the words and the input are accepted and nothing fails, only want of memory hinders the answer.
    ensures complete { IsCompleteProgram S.left source.old (texts_of words.now) (record {
      source_before = S.faults source.old;
      source_now = S.faults source.new;
      held_before = K.held sink.old;
      held_now = K.held sink.new;
      sink_before = K.faults sink.old;
      sink_now = K.faults sink.new;
    }) result }
{
    match read_words(words) {
        Ok(Command::Query { threads, pieces }) => query(rt, alloc, threads, pieces, source, sink),
        Ok(Command::Script { .. }) => refuse_words(sink),
        Ok(Command::Make { .. }) => refuse_words(sink),
        Err(_) => refuse_words(sink),
    }
}
