//! The workers: the root splits one off for each further thread, and joins it again when no job is left.
ghost use Rattle.std.specs.Prelude.{◌≡◌, ◌+◌, ◌-◌, ◌^◌, ◌<◌, [], true, length};
ghost use Rattle.piece_claims.specs.declared.board.Stage.TheVariants.{Free};
ghost use denote.Param.Send.{IsSync};
ghost use Rattle.piece_claims.specs.proving.Rule.{IsAt, IsReady, IsRoot, HasEnded, parted, newcomer};

use crate::board::{Cut, Glue, Part, Place, SharedBoard};
use crate::job::Job;
use crate::worker::work_on;
use std::marker::Brand;
use std::thread::{Threads, join};

fn cut<J: Job, Q: Part>(board: &SharedBoard<J>, root: &mut Place<J>, quota: u64) -> Place<J>
    requires part { quota ≡ Q.part }
    requires table { IsAt board.now.key.value.items board.now.table_id root.old.table_id }
    requires root { (root.old.me.0.stage ≡ Free) × (root.old.me.0.root ≡ true) }
    requires enough { (length board.now.key.value.items < quota) × (length board.now.key.value.items + quota < root.old.me.0.quota) }
    ensures table { (root.new.table_id ≡ root.old.table_id) × (result.table_id ≡ root.old.table_id) }
    ensures root { root.new.me ≡ (parted quota root.old.me.0, root.old.me.1) }
    ensures new { result.me ≡ (newcomer quota root.old.me.0, []) }
{
    board.split_seat::<Cut<Q>>(root)
}

/// A new worker that may claim so often.
fn split<J: Job>(board: &SharedBoard<J>, root: &mut Place<J>, quota: u64) -> Place<J>
    requires table { IsAt board.now.key.value.items board.now.table_id root.old.table_id }
    requires root { (root.old.me.0.stage ≡ Free) × (root.old.me.0.root ≡ true) }
    requires enough { (length board.now.key.value.items < quota) × (length board.now.key.value.items + quota < root.old.me.0.quota) }
    ensures table { (root.new.table_id ≡ root.old.table_id) × (result.table_id ≡ root.old.table_id) }
    ensures root { root.new.me ≡ (parted quota root.old.me.0, root.old.me.1) }
    ensures new { result.me ≡ (newcomer quota root.old.me.0, []) }
{
    cut::<J, Brand>(board, root, quota)
}

/// The root, in this thread, and a worker in each further one do all jobs.
pub(crate) fn spread<H: Threads + Sync, J: Job>(
    rt: &H,
    board: &SharedBoard<J>,
    mut root: Place<J>,
    count: usize,
    threads: u32,
) -> Place<J>
    requires table { IsAt board.now.key.value.items board.now.table_id root.table_id }
    requires count { (count ≡ length board.now.key.value.items) × (count < 2 ^ 32) }
    requires ready { IsRoot count threads root.me }
    ensures table { result.table_id ≡ root.table_id }
    ensures ended { HasEnded root.me result.me }
{
    if threads <= 1 {
        return work_on(board, root, count);
    }
    let place = split(board, &mut root, count as u64 + 1);
    let (done, mut root) = join(
        rt,
        || -> Place<J>
            requires { IsAt board.now.key.value.items board.now.table_id place.table_id × (count ≡ length board.now.key.value.items) × IsReady place.me }
            ensures { (result.table_id ≡ place.table_id) × HasEnded place.me result.me }
        { work_on(board, place, count) },
        || -> Place<J>
            requires { IsAt board.now.key.value.items board.now.table_id root.table_id × (count ≡ length board.now.key.value.items) × (count < 2 ^ 32) × IsRoot count (threads - 1) root.me × (1 < threads) }
            ensures { (result.table_id ≡ root.table_id) × HasEnded root.me result.me }
        { spread(rt, board, root, count, threads - 1) },
    );
    board.join_seat::<Glue>(&mut root, done);
    root
}
