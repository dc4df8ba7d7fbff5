//! The history that one thread keeps.
ghost use Rattle.std.specs.Prelude.{◌≡◌, ◌+◌, ◌≤◌, [], IfOk, OnOk, OnErr};
ghost use Rattle.history_core.specs.History.{after, note_of, takes_of};

use crate::entry::{CoreEvent, Entry};
use std::alloc::Global;
use std::marker::Model;
use value_lists::OutOfMemory;

/// A history, and room for entries to come. Contracts see it as a `Standing`.
#[derive(Debug, Drop)]
pub struct Core {
    entries: Vec<Entry>,
}

impl Model for Core {
    ghost use Rattle.std.specs.Prelude.{◌-◌, vec_len, vec_capacity};
    ghost use Rattle.history_core.specs.History.{Standing};

    ghost Value = { Standing };

    ghost view = { λ core. record {
      history = core.entries.items;
      spare = vec_capacity core.entries - vec_len core.entries;
    } };
}

impl Core {
    /// An empty history, with room for one entry of each of so many sessions.
    ///
    /// # Errors
    ///
    /// [`OutOfMemory`] where there is no room.
    pub fn new(alloc: Global, sessions: u32) -> Result<Core, OutOfMemory>
        ensures history { IfOk result (λ core. core.history ≡ []) }
        ensures room { IfOk result (λ core. sessions ≤ core.spare) }
    {
        let entries = Vec::with_capacity(alloc, sessions as usize)?;
        Ok(Core { entries })
    }

    /// Makes room for one more entry at least, so that the next commit takes no memory.
    ///
    /// # Errors
    ///
    /// [`OutOfMemory`] where there is no room. The history is as before either way.
    pub fn reserve(&mut self) -> Result<(), OutOfMemory>
        ensures history { self.new.history ≡ self.old.history }
        ensures ok { OnOk result (1 ≤ self.new.spare) }
        ensures room { self.old.spare ≤ self.new.spare }
    {
        self.entries.reserve(1)?;
        Ok(())
    }

    /// Makes one step, and answers its note: the length of the history that it leaves.
    ///
    /// A commit needs room, and uses it up; neither step takes memory.
    pub fn step(&mut self, event: CoreEvent) -> u64
        requires { takes_of event ≤ self.old.spare }
        ensures history { self.new.history ≡ after self.old.history event }
        ensures note { result ≡ note_of self.old.history event }
        ensures room { self.new.spare + takes_of event ≡ self.old.spare }
    {
        match event {
            CoreEvent::Commit(entry) => self.entries.push_reserved(entry),
            CoreEvent::Look { session: _ } => {}
        }
        self.entries.len() as u64
    }

    /// Lends the history, its first entry first.
    pub fn entries(&self) -> &[Entry]
        ensures { result.now ≡ self.now.history }
    {
        self.entries.as_slice()
    }
}
