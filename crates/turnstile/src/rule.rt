//! The rule of the table, and what each step tells the pass that makes it.
use crate::turn::Turned;
use crate::view::View;
use atomic_table::{Join, Play, Seat, Split, Table, TableRule};
use std::alloc::Global;
use std::marker::{Brand, PhantomData};
use std::snapshot::Snapshot;

// The words of the table: the length of the history, the next ticket, the ticket that is served, and the door.
pub(crate) const COUNT: usize = 0;

pub(crate) const TICKET: usize = 1;

pub(crate) const SERVING: usize = 2;

pub(crate) const DOOR: usize = 3;

pub struct Turns<T> {
    of: PhantomData<T>,
}

impl<T: Turned> TableRule<Option<T>, View<T::Basis>, Snapshot<T>> for Turns<T> {
    ghost use Rattle.turnstile.specs.proving.Rules.{Turning, root};

    ghost holds = { λ key. Turning T.history T.basis (T.basis key.value) };

    ghost first = { λ key. root (T.basis key.value) };
}

pub type TurnTable<T> = Table<Option<T>, View<<T as Turned>::Basis>, Snapshot<T>, Turns<T>, Global>;

pub type TurnSeat<T> = Seat<Option<T>, View<<T as Turned>::Basis>>;

/// A step at the door, which tells nothing.
pub(crate) struct Knock;

impl<T: Turned> Play<Option<T>, View<T::Basis>> for Knock {
    ghost use Rattle.turnstile.specs.proving.Steps.{Knocks};

    ghost then = { Knocks };
}

pub(crate) struct Draw;

impl<T: Turned> Play<Option<T>, View<T::Basis>> for Draw {
    ghost use Rattle.turnstile.specs.proving.Steps.{Draws};

    ghost then = { Draws };
}

pub(crate) struct Poll<T> {
    of: PhantomData<T>,
}

impl<T: Turned> Play<Option<T>, View<T::Basis>> for Poll<T> {
    ghost use Rattle.turnstile.specs.proving.Steps.{Polls};

    ghost then = { Polls T.history T.basis };
}

pub(crate) struct Commit<T> {
    of: PhantomData<T>,
}

impl<T: Turned> Play<Option<T>, View<T::Basis>> for Commit<T> {
    ghost use Rattle.turnstile.specs.proving.Steps.{Commits};

    ghost then = { Commits T.history };
}

pub(crate) struct Look<T> {
    of: PhantomData<T>,
}

impl<T: Turned> Play<Option<T>, View<T::Basis>> for Look<T> {
    ghost use Rattle.turnstile.specs.proving.Steps.{Looks};

    ghost then = { Looks T.history };
}

pub(crate) struct PassOn;

impl<T: Turned> Play<Option<T>, View<T::Basis>> for PassOn {
    ghost use Rattle.turnstile.specs.proving.Steps.{PassesOn};

    ghost then = { PassesOn };
}

/// The quota that a new pass gets. Each call picks it.
pub(crate) trait Part {
    ghost use Rattle.std.specs.Prelude.{ℕ};

    ghost part: { ℕ };
}

impl Part for Brand {
    ghost part = { 0 };
}

pub(crate) struct Cut<Q> {
    of: PhantomData<Q>,
}

impl<G, Q: Part> Split<View<G>> for Cut<Q> {
    ghost use Rattle.turnstile.specs.proving.Rules.{parted, newcomer};

    ghost left = { parted Q.part };

    ghost right = { newcomer Q.part };
}

pub(crate) struct Glue;

impl<G> Join<View<G>> for Glue {
    ghost use Rattle.turnstile.specs.proving.Rules.{joined, nobody};

    ghost both = { joined };

    ghost spent = { nobody };
}

/// A look at what the root knows once a pass has joined.
pub(crate) struct Check;

impl<T: Turned> Play<Option<T>, View<T::Basis>> for Check {
    ghost use Rattle.turnstile.specs.proving.Steps.{Checks};

    ghost then = { Checks };
}
