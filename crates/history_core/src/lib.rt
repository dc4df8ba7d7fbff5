//! The history of a run as plain data: entries, the steps that add them and read them, and the note that each step is told.
//!
//! specs/History.antt says what a step does, specs/Legal.antt when notes and a history fit each other, and `law_core` that
//! those of every list of steps do. Nothing here knows of threads: a turn of a turnstile is one such step.
#![tactic(auto)]

mod entry;
mod steps;

ghost use Rattle.history_core.specs.Legal.{EveryRunIsLegal};

pub use entry::{CoreEvent, Entry};
pub use steps::Core;

/// The law of histories: for every list of steps in which each session's commits are different entries in the session's
/// order, the notes and the history that it leaves are legal.
pub fn law_core()
    ensures { EveryRunIsLegal }
{}
