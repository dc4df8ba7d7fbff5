//! The right to take turns.
ghost use Rattle.std.specs.Prelude.{◌≡◌, ◌≤◌, []};
ghost use Rattle.turnstile.specs.declared.view.Stage.TheVariants.{Idle};

use crate::rule::TurnSeat;
use crate::turn::Turned;

/// The right to so many turns, under a number. Contracts see it as what it knows, `Known`. One that is dropped is never
/// joined.
#[derive(Drop)]
pub struct Pass<T: Turned> {
    pub(crate) seat: TurnSeat<T>,
    pub(crate) number: u32,
    pub(crate) quota: u64,
    pub(crate) made: u32,
    pub(crate) unjoined: u32,
    ghost empty: { seat.me.1 ≡ [] },
    ghost idle: { seat.me.0.stage ≡ Idle },
    ghost number_is: { number ≡ seat.me.0.number },
    ghost quota_is: { quota ≡ seat.me.0.quota },
    ghost made_is: { made ≡ seat.me.0.made },
    ghost unjoined_is: { unjoined ≡ seat.me.0.unjoined },
    ghost fewer: { unjoined ≤ made },
}

impl<T: Turned> Pass<T> {
    ghost use Rattle.turnstile.specs.Names.{known};

    /// Its number; the root has 0.
    pub fn number(&self) -> u32
        ensures { result ≡ (known self.now).number }
    {
        self.number
    }

    /// How many turns it may still take.
    pub fn quota(&self) -> u64
        ensures { result ≡ (known self.now).quota }
    {
        self.quota
    }

    /// How many passes were split off this one, the root, and have not joined yet.
    pub fn splits_out(&self) -> u32
        ensures { result ≡ (known self.now).unjoined }
    {
        self.unjoined
    }
}
