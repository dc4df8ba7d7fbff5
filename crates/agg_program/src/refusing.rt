//! Error lines into a sink.
ghost use Rattle.std.specs.Prelude.{◌≡◌, ◌≤◌, IfOk};
ghost use Rattle.agg_program.specs.proving.Refusing.{Refuses, RefusesWords};
ghost use Rattle.query_run.specs.Runs.{IsRefusal};
ghost use Rattle.refusals.specs.Words.{error_line};
ghost use Rattle.refusals.specs.declared.status.Status.{Status};

use agg_ports::{Put, Sink};
use refusals::{Status, put_error_line};
use std::alloc::Global;
use value_types::{Bytes, OutOfMemory, Seq};

/// The line that tells a status.
fn error_line(alloc: Global, status: &Status) -> Result<Bytes, OutOfMemory>
    ensures { IfOk result (λ text. text ≡ error_line status.now) }
{
    let mut text = Seq::new(alloc);
    put_error_line(&mut text, status)?;
    Ok(text)
}

/// Writes the line of a status that ends a run; where there is no room for it, that of want of memory.
pub(crate) fn refuse<K: Sink>(alloc: Global, status: Status, sink: &mut K) -> Status
    requires { IsRefusal status }
    ensures ends { Refuses status (K.held sink.old) (K.held sink.new) (K.faults sink.old) (K.faults sink.new) result }
    ensures faults { K.faults sink.old ≤ K.faults sink.new }
{
    match error_line(alloc, &status) {
        Ok(text) => match sink.put(text.as_slice()) {
            Put::Done => status,
            Put::Failed(_) => Status::WriteFault,
        },
        Err(_) => match sink.put(b"error: out of memory\n") {
            Put::Done => Status::OutOfMemory,
            Put::Failed(_) => Status::WriteFault,
        },
    }
}

/// Writes that words ask for nothing, which takes no memory.
pub(crate) fn refuse_words<K: Sink>(sink: &mut K) -> Status
    ensures { RefusesWords (K.held sink.old) (K.held sink.new) (K.faults sink.old) (K.faults sink.new) result }
{
    match sink.put(b"error: usage\n") {
        Put::Done => Status::Usage,
        Put::Failed(_) => Status::WriteFault,
    }
}
