//! The turnstile: a table with four words and one slot, in which the value is at home between turns.
ghost use Rattle.std.specs.Prelude.{◌≡◌, ◌≤◌, ◌<◌, ◌^◌, ◌-◌, [], ◌∷◌, Some, IfOk, IfErr};
ghost use Rattle.turnstile.specs.declared.view.Stage.TheVariants.{Waits};
ghost use Rattle.turnstile.specs.Known.{first_known, after_split, new_pass, after_join, IsLonger, Settled};
ghost use Rattle.turnstile.specs.Turns.{Serves, TookTurn};
ghost use Rattle.turnstile.specs.proving.Steps.{HasTurn, HasActed, Settles};
ghost use Rattle.turnstile.specs.proving.Rules.{parted, newcomer};

use crate::pass::Pass;
use crate::rule::{
    COUNT, Check, Commit, Cut, DOOR, Draw, Glue, Knock, Look, Part, PassOn, Poll, SERVING, TICKET,
    TurnSeat, TurnTable,
};
use crate::turn::{Did, Turn, Turned};
use atomic_table::{Refused, Table};
use std::alloc::Global;
use std::marker::Brand;
use std::snapshot::Snapshot;
use std::sync::Wait;

// The door: nobody is behind it, one thread is, or one is and others may sleep in front of it.
const OPEN: u64 = 0;

const SHUT: u64 = 1;

const CROWDED: u64 = 2;

// The quota of the root at the start.
const QUOTA: u64 = (1 << 62) - 1;

/// A value that threads take in turn.
///
/// A pass draws a ticket and acts when its number is served. That alone keeps two from acting at once, and the history one.
/// In front stands a door by which one thread at a time comes to draw: a ticket has to be served in its order, and its
/// thread may be asleep, while any thread that is awake may come through the door.
#[derive(Drop)]
pub struct Turnstile<T: Turned> {
    table: TurnTable<T>,
    ghost sized: { (table.shared.table_id.words ≡ 4) × (table.shared.table_id.slots ≡ 1) },
}

impl<T: Turned> Turnstile<T> {
    ghost use Rattle.turnstile.specs.Names.{known, origin, identity};

    /// A turnstile of this value, and its root pass, which has number 0.
    ///
    /// # Errors
    ///
    /// The value, where there is no room.
    pub fn new(alloc: Global, value: T) -> Result<(Turnstile<T>, Pass<T>), T>
        requires { T.history value ≡ [] }
        ensures ok { IfOk result (λ r. (origin r.1 ≡ identity r.0) × (known r.1 ≡ first_known (T.basis value))) }
        ensures err { IfErr result (λ v. v ≡ value) }
    {
        let Ok(mut slots) = Vec::with_capacity(alloc, 1) else {
            return Err(value);
        };
        let about = Snapshot::of(&value);
        slots.push_reserved(Some(value));
        match Table::new(alloc, &[0, 0, 0, OPEN], slots, &about) {
            Ok((table, seat)) => Ok((
                Turnstile { table },
                Pass {
                    seat,
                    number: 0,
                    quota: QUOTA,
                    made: 0,
                    unjoined: 0,
                },
            )),
            Err(Refused { mut slots }) => Err(slots.pop().unwrap().unwrap()),
        }
    }

    // Comes through the door. It sleeps in front of it while another thread is behind it.
    fn enter<W: Wait>(&self, rt: &W, seat: &mut TurnSeat<T>)
        requires { seat.old.table_id ≡ self.now.table.shared.table_id }
        ensures { (seat.new.table_id ≡ seat.old.table_id) × (seat.new.me ≡ seat.old.me) }
    {
        let shared = &self.table.shared;
        if shared.compare_exchange::<Knock>(seat, DOOR, OPEN, SHUT) == OPEN {
            return;
        }
        for _ in rt.forever() {
            if shared.swap::<Knock>(seat, DOOR, CROWDED) == OPEN {
                return;
            }
            shared.park(rt, DOOR, CROWDED as u32);
        }
        unreachable!()
    }

    // Opens the door, and wakes one of those who may sleep in front of it.
    fn leave(&self, seat: &mut TurnSeat<T>)
        requires { seat.old.table_id ≡ self.now.table.shared.table_id }
        ensures { (seat.new.table_id ≡ seat.old.table_id) × (seat.new.me ≡ seat.old.me) }
    {
        let shared = &self.table.shared;
        if shared.swap::<Knock>(seat, DOOR, OPEN) == CROWDED {
            shared.wake_one(DOOR);
        }
    }

    // Waits until the ticket is served, and takes the value.
    fn wait_turn<W: Wait>(&self, rt: &W, seat: &mut TurnSeat<T>, ticket: u64)
        requires table { seat.old.table_id ≡ self.now.table.shared.table_id }
        requires waits { (seat.old.me.0.stage ≡ Waits ticket) × (seat.old.me.1 ≡ []) }
        ensures table { seat.new.table_id ≡ seat.old.table_id }
        ensures turn { HasTurn T.history T.basis ticket seat.old.me.0 seat.new.me }
    {
        let shared = &self.table.shared;
        for _ in rt.forever() {
            let found = shared.load::<Poll<T>>(seat, SERVING);
            if found == ticket {
                return;
            }
            shared.park(rt, SERVING, (found % (1 << 32)) as u32);
        }
        unreachable!()
    }

    // Moves the history on, and answers its length.
    fn settle(&self, seat: &mut TurnSeat<T>, did: Did) -> u64
        requires table { seat.old.table_id ≡ self.now.table.shared.table_id }
        requires acted { HasActed T.history did seat.old.me }
        ensures table { seat.new.table_id ≡ seat.old.table_id }
        ensures settled { Settles T.history did seat.old.me result seat.new.me }
    {
        let shared = &self.table.shared;
        match did {
            Did::Commit => shared.fetch_add::<Commit<T>>(seat, COUNT, 1) + 1,
            Did::Look => shared.load::<Look<T>>(seat, COUNT),
        }
    }

    // Draws a ticket, waits until it is served, and has the pass act once.
    fn turn_once<W: Wait, J: Turn<T>>(&self, rt: &W, pass: &mut Pass<T>, mut turn: J) -> J::Out
        requires table { origin pass.old ≡ identity self.now }
        requires number { J.number turn ≡ (known pass.old).number }
        requires serves { Serves J.serves turn (known pass.old) }
        requires quota { 1 ≤ (known pass.old).quota }
        ensures table { origin pass.new ≡ origin pass.old }
        ensures turned { TookTurn T.history T.basis J.acts J.gives turn (known pass.old) result (known pass.new) }
    {
        let shared = &self.table.shared;
        let ticket = shared.fetch_add::<Draw>(&mut pass.seat, TICKET, 1);
        pass.quota -= 1;
        self.wait_turn(rt, &mut pass.seat, ticket);
        let mut value = shared.exchange(&mut pass.seat, 0, None).unwrap();
        let did = turn.act(&mut value);
        drop(shared.exchange(&mut pass.seat, 0, Some(value)));
        let note = self.settle(&mut pass.seat, did);
        let served = shared.fetch_add::<PassOn>(&mut pass.seat, SERVING, 1);
        if shared.peek(TICKET) != served.wrapping_add(1) {
            shared.wake_all(SERVING);
        }
        turn.out(note)
    }

    /// Waits for the pass's turn, and has it act once. It uses one of the pass's quota.
    pub fn with_turn<W: Wait, J: Turn<T>>(&self, rt: &W, pass: &mut Pass<T>, turn: J) -> J::Out
        requires table { origin pass.old ≡ identity self.now }
        requires number { J.number turn ≡ (known pass.old).number }
        requires serves { Serves J.serves turn (known pass.old) }
        requires quota { 1 ≤ (known pass.old).quota }
        ensures table { origin pass.new ≡ origin pass.old }
        ensures turned { TookTurn T.history T.basis J.acts J.gives turn (known pass.old) result (known pass.new) }
    {
        self.enter(rt, &mut pass.seat);
        let out = self.turn_once(rt, pass, turn);
        self.leave(&mut pass.seat);
        out
    }

    fn cut<Q: Part>(&self, root: &mut Pass<T>, quota: u64) -> Pass<T>
        requires part { quota ≡ Q.part }
        requires table { origin root.old ≡ identity self.now }
        requires root { (known root.old).number ≡ 0 }
        requires quota { quota < (known root.old).quota }
        requires made { (known root.old).made < 2 ^ 32 - 1 }
        ensures table { (origin root.new ≡ origin root.old) × (origin result ≡ origin root.old) }
        ensures root { known root.new ≡ after_split quota (known root.old) }
        ensures new { known result ≡ new_pass quota (known root.old) }
    {
        let seat = self.table.shared.split_seat::<Cut<Q>>(&mut root.seat);
        root.made += 1;
        root.unjoined += 1;
        root.quota -= quota;
        Pass {
            seat,
            number: root.made,
            quota,
            made: 0,
            unjoined: 0,
        }
    }

    /// A pass of the next number, which has seen what the root has. The root loses the quota that it gets.
    pub fn split(&self, root: &mut Pass<T>, quota: u64) -> Pass<T>
        requires table { origin root.old ≡ identity self.now }
        requires root { (known root.old).number ≡ 0 }
        requires quota { quota < (known root.old).quota }
        requires made { (known root.old).made < 2 ^ 32 - 1 }
        ensures table { (origin root.new ≡ origin root.old) × (origin result ≡ origin root.old) }
        ensures root { known root.new ≡ after_split quota (known root.old) }
        ensures new { known result ≡ new_pass quota (known root.old) }
    {
        self.cut::<Brand>(root, quota)
    }

    /// The root takes another pass in, and keeps its number and its entries.
    pub fn join(&self, root: &mut Pass<T>, pass: Pass<T>)
        requires table { (origin root.old ≡ identity self.now) × (origin pass ≡ identity self.now) }
        requires root { (known root.old).number ≡ 0 }
        ensures table { origin root.new ≡ origin root.old }
        ensures root { known root.new ≡ after_join (known root.old) (known pass) }
        ensures longer { IsLonger (known root.old).seen (known pass).seen (known root.new).seen }
        ensures settled { (known root.new).unjoined ≡ 0 → Settled (known root.new) }
    {
        let Pass {
            seat,
            number: _,
            quota: _,
            made: _,
            unjoined: _,
        } = pass;
        self.table.shared.join_seat::<Glue>(&mut root.seat, seat);
        self.table.shared.load::<Check>(&mut root.seat, COUNT);
        root.unjoined = root.unjoined.saturating_sub(1);
    }

    /// The value, once every pass has joined.
    pub fn close(self, root: Pass<T>) -> T
        requires table { origin root ≡ identity self }
        requires root { (known root).number ≡ 0 }
        requires joined { (known root).unjoined ≡ 0 }
        ensures history { T.history result ≡ (known root).seen }
        ensures basis { (known root).basis ≡ Some (T.basis result) }
        ensures settled { Settled (known root) }
    {
        let Turnstile { table } = self;
        let Pass {
            seat,
            number: _,
            quota: _,
            made: _,
            unjoined: _,
        } = root;
        let mut closed = table.close_with(seat);
        let value = closed.take(0).unwrap();
        closed.free();
        value
    }
}
