//! What is turned: a list of entries, of which each turn adds one.
ghost use Rattle.std.specs.Prelude.{◌≡◌, ℕ, [], IfSome};
ghost use Rattle.turnstile.specs.Turns.{Adds};

use std::alloc::Global;
use std::sync::atomic::{AtomicU64, Ordering};
use std::thread;
use turnstile::{Did, Entry, Turn, Turned};

/// A journal with a limit, which no turn changes.
#[derive(Drop)]
pub struct Board {
    pub journal: Vec<Entry>,
    pub most: usize,
}

impl Turned for Board {
    type Basis = usize;

    ghost history = { λ board. board.journal.items };

    ghost basis = { λ board. board.most };
}

impl Board {
    /// An empty journal, with room for so many entries.
    pub fn new(alloc: Global, most: usize) -> Option<Board>
        ensures { IfSome result (λ board. board.journal.items ≡ []) }
    {
        let journal = Vec::with_capacity(alloc, most).ok()?;
        Some(Board { journal, most })
    }

    // Adds the entry, where there is room below the limit.
    fn add(&mut self, entry: Entry) -> Did
        ensures most { self.new.most ≡ self.old.most }
        ensures history { Adds entry.session self.old.journal.items result self.new.journal.items }
    {
        if self.journal.len() >= self.most || self.journal.push(entry).is_err() {
            return Did::Look;
        }
        Did::Commit
    }
}

/// One more entry.
#[derive(Drop)]
pub struct Insert {
    pub entry: Entry,
}

impl Turn<Board> for Insert {
    ghost use Rattle.std.specs.Prelude.{◌≡◌};

    type Out = u64;

    ghost number = { λ turn. turn.entry.session };

    ghost serves = { λ _ _. Unit {0} };

    ghost acts = { λ _ _ _ _ _. Unit {0} };

    ghost gives = { λ _ note out. out ≡ note };

    fn act(&mut self, value: &mut Board) -> Did {
        value.add(self.entry)
    }

    fn out(self, note: u64) -> u64 {
        note
    }
}

/// One more entry, of a turn that doesn't end before two other passes have come to the turnstile.
#[derive(Drop)]
pub struct Meeting<'a> {
    pub entry: Entry,
    pub inside: &'a AtomicU64,
    pub arrived: &'a AtomicU64,
}

/// Waits until the count is `least` or more.
pub fn wait_for(count: &AtomicU64, least: u64) {
    for _ in 0..u64::MAX {
        if count.load(Ordering::SeqCst) >= least {
            return;
        }
        thread::yield_now();
    }
}

impl<'a> Turn<Board> for Meeting<'a> {
    ghost use Rattle.std.specs.Prelude.{◌≡◌};

    type Out = u64;

    ghost number = { λ turn. turn.entry.session };

    ghost serves = { λ _ _. Unit {0} };

    ghost acts = { λ _ _ _ _ _. Unit {0} };

    ghost gives = { λ _ note out. out ≡ note };

    fn act(&mut self, value: &mut Board) -> Did {
        self.inside.store(1, Ordering::SeqCst);
        wait_for(self.arrived, 2);
        value.add(self.entry)
    }

    fn out(self, note: u64) -> u64 {
        note
    }
}
