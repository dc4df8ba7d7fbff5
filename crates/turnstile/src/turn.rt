//! What is turned, and what a turn does with it.
ghost use Rattle.std.specs.Prelude.{◌≡◌, ℕ, List, [], ◌∷◌, ◌++◌};
ghost use Rattle.history_core.specs.declared.entry.Entry.{Entry};
ghost use Rattle.turnstile.specs.Turns.{Adds};

/// A value with a history, and with a basis: plain data that no turn changes, and that every pass has too.
pub trait Turned: Send + Drop {
    type Basis;

    ghost history: { Self → List Entry };

    ghost basis: { Self → Self.Basis };
}

/// What a turn did: it added one entry, or it left the history as it was.
#[derive(Clone, Copy, Drop)]
pub enum Did {
    Commit,
    Look,
}

/// What a pass does in its turn.
pub trait Turn<T: Turned> {
    ghost use Rattle.turnstile.specs.declared.turn.Did.{Did};

    type Out;

    /// The number of the pass for which it acts.
    ghost number: { Self → ℕ };

    /// The bases on which it may act.
    ghost serves: { Self → T.Basis → Type 0 };

    /// The turn and the value before a call of `act`, its answer, and the turn and the value after it.
    ghost acts: { Self → T → Did → Self → T → Type 0 };

    /// What is answered for a turn that has acted, and its note.
    ghost gives: { Self → ℕ → Self.Out → Type 0 };

    /// Acts on the value. It answers `Commit` where it added an entry of the pass's number, `Look` where the history is as before.
    fn act(&mut self, value: &mut T) -> Did
        requires { serves self.old (T.basis value.old) }
        ensures basis { T.basis value.new ≡ T.basis value.old }
        ensures history { Adds (number self.old) (T.history value.old) result (T.history value.new) }
        ensures acts { acts self.old value.old result self.new value.new };

    /// The answer, once the turn is over. The note is the length of the history that the turn left.
    fn out(self, note: u64) -> Self::Out
        ensures { gives self note result };
}
