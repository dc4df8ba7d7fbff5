//! The board that threads share: a slot for each job, and two words. Word 0 is how many jobs are done, word 1 the next job.
use crate::job::{Job, JobFault};
use atomic_table::{Join, Play, Seat, Shared, Split, Table, TableRule};
use std::alloc::Global;
use std::collections::LinkedList;
use std::marker::{Brand, PhantomData};
use std::snapshot::Snapshot;

/// A job, nothing while a worker has it, or what came of it.
#[derive(Drop)]
pub enum Slot<J, X> {
    Ready(J),
    Taken,
    Done(X),
}

/// What a worker is about: it was joined to another, has no job, or holds the job of a number.
pub enum Stage<J> {
    Spent,
    Free,
    Holds(u64, J),
}

/// What a worker knows. No value of it is made.
pub struct Worker<J> {
    pub stage: Stage<J>,
    /// How often it may still claim.
    pub quota: u64,
    /// The numbers of the jobs that it has counted as done.
    pub listed: LinkedList<u64>,
    /// It found no job left.
    pub ended: bool,
    /// It is the worker that others are split from and joined to.
    pub root: bool,
    /// How many others aren't joined yet, as the root knows it.
    pub unjoined: u64,
}

/// The rule of the board.
pub struct Claiming<J> {
    of: PhantomData<J>,
}

impl<J: Job> TableRule<Slot<J, Result<J::Out, JobFault<J::Fault>>>, Worker<J>, Snapshot<Vec<J>>>
    for Claiming<J> {
    ghost use Rattle.piece_claims.specs.Jobs.{Answers};
    ghost use Rattle.piece_claims.specs.proving.Rule.{Claimed, opener};

    ghost holds = { λ key. Claimed (Answers J.gives J.fault) key.value.items };

    ghost first = { λ _. opener };
}

pub type Outcome<J> = Result<<J as Job>::Out, JobFault<<J as Job>::Fault>>;

pub type Place<J> = Seat<Slot<J, Outcome<J>>, Worker<J>>;

pub type SharedBoard<J> = Shared<Slot<J, Outcome<J>>, Worker<J>, Snapshot<Vec<J>>, Claiming<J>>;

pub type Board<J> = Table<Slot<J, Outcome<J>>, Worker<J>, Snapshot<Vec<J>>, Claiming<J>, Global>;

/// A worker with no job claims the next one, or finds that none is left.
pub(crate) struct Claim;

impl<J, X> Play<Slot<J, X>, Worker<J>> for Claim {
    ghost use Rattle.piece_claims.specs.proving.Rule.{Claims};

    ghost then = { Claims };
}

/// A worker counts the job that it holds as done, and its outcome goes home with that.
pub(crate) struct Count;

impl<J, X> Play<Slot<J, X>, Worker<J>> for Count {
    ghost use Rattle.piece_claims.specs.proving.Rule.{Counts};

    ghost then = { Counts };
}

/// How often a new worker may claim. Each call picks it.
pub(crate) trait Part {
    ghost use Rattle.std.specs.Prelude.{ℕ};

    ghost part: { ℕ };
}

impl Part for Brand {
    ghost part = { 0 };
}

/// The root gives a part of its quota to a new worker.
pub(crate) struct Cut<Q> {
    of: PhantomData<Q>,
}

impl<J, Q: Part> Split<Worker<J>> for Cut<Q> {
    ghost use Rattle.piece_claims.specs.proving.Rule.{parted, newcomer};

    ghost left = { parted Q.part };

    ghost right = { newcomer Q.part };
}

/// The root takes over what a worker has counted.
pub(crate) struct Glue;

impl<J> Join<Worker<J>> for Glue {
    ghost use Rattle.piece_claims.specs.proving.Rule.{joined, nobody};

    ghost both = { joined };

    ghost spent = { nobody };
}
