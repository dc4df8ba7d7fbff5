//! Sessions on threads, each of which takes turns with a pass of its own.
ghost use Rattle.std.specs.Prelude.{◌≡◌, ◌≤◌, ◌<◌, ◌+◌, ◌-◌, ◌^◌};
ghost use denote.Param.Send.{IsSync};
ghost use Rattle.turnstile.specs.Names.{known, origin, identity};

use crate::board::{Board, Insert, Meeting, wait_for};
use std::alloc::Global;
use std::sync::Wait;
use std::sync::atomic::{AtomicU64, Ordering};
use std::thread::{Threads, join};
use turnstile::{Entry, Pass, Turnstile};

/// Takes so many turns, and says whether their notes rose.
fn session<R: Wait>(
    rt: &R,
    turnstile: &Turnstile<Board>,
    mut pass: Pass<Board>,
    turns: u32,
) -> (Pass<Board>, bool)
    requires { origin pass ≡ identity turnstile.now }
    ensures { origin result.0 ≡ identity turnstile.now }
{
    let mut last = 0;
    let mut rises = true;
    for seq in 0..turns {
        if pass.quota() == 0 {
            return (pass, false);
        }
        let session = pass.number();
        let entry = Entry { session, seq };
        let note = turnstile.with_turn(rt, &mut pass, Insert { entry });
        rises = rises && note > last;
        last = note;
    }
    (pass, rises)
}

/// So many sessions at once, each on a thread of its own. It says whether the notes of each rose.
fn spread<R: Threads + Wait + Sync>(
    rt: &R,
    turnstile: &Turnstile<Board>,
    mut root: Pass<Board>,
    threads: u32,
    turns: u32,
) -> (Pass<Board>, bool)
    requires table { origin root ≡ identity turnstile.now }
    requires root { ((known root).number ≡ 0) × ((known root).made + threads < 2 ^ 32 - 1) }
    ensures { (origin result.0 ≡ identity turnstile.now) × ((known result.0).number ≡ 0) }
{
    if threads == 0 {
        return (root, true);
    }
    if root.quota() <= turns as u64 {
        return (root, false);
    }
    let pass = turnstile.split(&mut root, turns as u64);
    let ((pass, rises), (mut root, others)) = join(
        rt,
        || -> (Pass<Board>, bool)
            requires { origin pass ≡ identity turnstile.now }
            ensures { origin result.0 ≡ identity turnstile.entry.now }
        { session(rt, turnstile, pass, turns) },
        || -> (Pass<Board>, bool)
            requires { IsSync R.row × (origin root ≡ identity turnstile.now) × ((known root).number ≡ 0) × ((known root).made + threads ≤ 2 ^ 32 - 1) × (0 < threads) }
            ensures { (origin result.0 ≡ identity turnstile.entry.now) × ((known result.0).number ≡ 0) }
        { spread(rt, turnstile, root, threads - 1, turns) },
    );
    turnstile.join(&mut root, pass);
    (root, rises && others)
}

/// The journal that so many sessions leave which take so many turns each, and whether the notes of each session rose.
pub fn run_sessions<R: Threads + Wait + Sync>(
    rt: &R,
    alloc: Global,
    threads: u32,
    turns: u32,
) -> Option<(Vec<Entry>, bool)>
    requires { threads < 2 ^ 31 }
{
    let board = Board::new(alloc, threads as usize * turns as usize)?;
    let (turnstile, root) = Turnstile::new(alloc, board).ok()?;
    let (root, rises) = spread(rt, &turnstile, root, threads, turns);
    if root.splits_out() != 0 {
        return None;
    }
    let Board { journal, most: _ } = turnstile.close(root);
    Some((journal, rises))
}

/// Comes to the turnstile while another pass is in turn, and then takes a turn.
fn come_late<R: Wait>(
    rt: &R,
    turnstile: &Turnstile<Board>,
    mut pass: Pass<Board>,
    inside: &AtomicU64,
    arrived: &AtomicU64,
) -> Pass<Board>
    requires { (origin pass ≡ identity turnstile.now) × (1 ≤ (known pass).quota) }
    ensures { origin result ≡ identity turnstile.now }
{
    wait_for(inside, 1);
    arrived.fetch_add(1, Ordering::SeqCst);
    let session = pass.number();
    let entry = Entry { session, seq: 0 };
    turnstile.with_turn(rt, &mut pass, Insert { entry });
    pass
}

/// Takes a turn that ends once two others have come.
fn come_first<R: Wait>(
    rt: &R,
    turnstile: &Turnstile<Board>,
    mut pass: Pass<Board>,
    inside: &AtomicU64,
    arrived: &AtomicU64,
) -> Pass<Board>
    requires { (origin pass ≡ identity turnstile.now) × (1 ≤ (known pass).quota) }
    ensures { origin result ≡ identity turnstile.now }
{
    let session = pass.number();
    let meeting = Meeting {
        entry: Entry { session, seq: 0 },
        inside,
        arrived,
    };
    turnstile.with_turn(rt, &mut pass, meeting);
    pass
}

/// Three passes at once, of which the later two wait while the first is in turn.
fn meet<R: Threads + Wait + Sync>(
    rt: &R,
    turnstile: &Turnstile<Board>,
    one: Pass<Board>,
    two: Pass<Board>,
    three: Pass<Board>,
) -> (Pass<Board>, Pass<Board>, Pass<Board>)
    requires one { (origin one ≡ identity turnstile.now) × (1 ≤ (known one).quota) }
    requires two { (origin two ≡ identity turnstile.now) × (1 ≤ (known two).quota) }
    requires three { (origin three ≡ identity turnstile.now) × (1 ≤ (known three).quota) }
    ensures { (origin result.0 ≡ identity turnstile.now) × (origin result.1 ≡ identity turnstile.now) × (origin result.2 ≡ identity turnstile.now) }
{
    let inside = AtomicU64::new(0);
    let arrived = AtomicU64::new(0);
    let (inside, arrived) = (&inside, &arrived);
    let (one, (two, three)) = join(
        rt,
        || -> Pass<Board>
            requires { (origin one ≡ identity turnstile.now) × (1 ≤ (known one).quota) }
            ensures { origin result ≡ identity turnstile.entry.now }
        { come_first(rt, turnstile, one, inside, arrived) },
        || -> (Pass<Board>, Pass<Board>)
            requires { IsSync R.row × (origin two ≡ identity turnstile.now) × (1 ≤ (known two).quota) × (origin three ≡ identity turnstile.now) × (1 ≤ (known three).quota) }
            ensures { (origin result.0 ≡ identity turnstile.entry.now) × (origin result.1 ≡ identity turnstile.entry.now) }
        { come_both(rt, turnstile, two, three, inside, arrived) },
    );
    (one, two, three)
}

fn come_both<R: Threads + Wait + Sync>(
    rt: &R,
    turnstile: &Turnstile<Board>,
    two: Pass<Board>,
    three: Pass<Board>,
    inside: &AtomicU64,
    arrived: &AtomicU64,
) -> (Pass<Board>, Pass<Board>)
    requires two { (origin two ≡ identity turnstile.now) × (1 ≤ (known two).quota) }
    requires three { (origin three ≡ identity turnstile.now) × (1 ≤ (known three).quota) }
    ensures { (origin result.0 ≡ identity turnstile.now) × (origin result.1 ≡ identity turnstile.now) }
{
    join(
        rt,
        || -> Pass<Board>
            requires { (origin two ≡ identity turnstile.now) × (1 ≤ (known two).quota) }
            ensures { origin result ≡ identity turnstile.entry.now }
        { come_late(rt, turnstile, two, inside, arrived) },
        || -> Pass<Board>
            requires { (origin three ≡ identity turnstile.now) × (1 ≤ (known three).quota) }
            ensures { origin result ≡ identity turnstile.entry.now }
        { come_late(rt, turnstile, three, inside, arrived) },
    )
}

/// The journal of such a meeting.
pub fn run_meeting<R: Threads + Wait + Sync>(rt: &R, alloc: Global) -> Option<Vec<Entry>> {
    let board = Board::new(alloc, 3)?;
    let (turnstile, mut root) = Turnstile::new(alloc, board).ok()?;
    let one = turnstile.split(&mut root, 1);
    let two = turnstile.split(&mut root, 1);
    let three = turnstile.split(&mut root, 1);
    let (one, two, three) = meet(rt, &turnstile, one, two, three);
    turnstile.join(&mut root, one);
    turnstile.join(&mut root, two);
    turnstile.join(&mut root, three);
    if root.splits_out() != 0 {
        return None;
    }
    let Board { journal, most: _ } = turnstile.close(root);
    Some(journal)
}
