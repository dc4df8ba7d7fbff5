//! One worker: it claims a job, does it, puts its outcome home and counts it, until no job is left.
ghost use Rattle.std.specs.Prelude.{◌≡◌, ◌∷◌, [], length, MatchOption};
ghost use Rattle.piece_claims.specs.declared.board.Slot.TheVariants.{Taken};
ghost use Rattle.piece_claims.specs.declared.board.Stage.TheVariants.{Holds};
ghost use Rattle.piece_claims.specs.Jobs.{Answers};
ghost use Rattle.piece_claims.specs.proving.Rule.{IsAt, IsReady, HasTaken, HasReturned, HasEnded};

use crate::board::{Claim, Count, Outcome, Place, SharedBoard, Slot};
use crate::job::Job;

/// The next job with its number, or none where all are claimed.
fn claim<J: Job>(board: &SharedBoard<J>, place: &mut Place<J>, count: usize) -> Option<(usize, J)>
    requires table { IsAt board.now.key.value.items board.now.table_id place.old.table_id }
    requires count { count ≡ length board.now.key.value.items }
    requires ready { IsReady place.old.me }
    ensures table { place.new.table_id ≡ place.old.table_id }
    ensures claimed { MatchOption result (HasEnded place.old.me place.new.me) (λ it. HasTaken place.old.me it.0 it.1 place.new.me) }
{
    let found = board.fetch_add::<Claim>(place, 1, 1);
    if found >= count as u64 {
        return None;
    }
    let number = found as usize;
    let Slot::Ready(job) = board.exchange(place, number, Slot::Taken) else {
        unreachable!()
    };
    Some((number, job))
}

/// Puts the outcome of the job that is held home, and counts it.
fn finish<J: Job>(board: &SharedBoard<J>, place: &mut Place<J>, number: usize, outcome: Outcome<J>)
    requires table { IsAt board.now.key.value.items board.now.table_id place.old.table_id }
    requires held { (job : J) × (place.old.me.0.stage ≡ Holds number job) × Answers J.gives J.fault job outcome }
    requires taken { place.old.me.1 ≡ (number, Taken) ∷ [] }
    ensures table { place.new.table_id ≡ place.old.table_id }
    ensures free { HasReturned place.old.me place.new.me }
{
    drop(board.exchange(place, number, Slot::Done(outcome)));
    board.fetch_add::<Count>(place, 0, 1);
}

/// Does jobs until none is left.
pub(crate) fn work_on<J: Job>(board: &SharedBoard<J>, mut place: Place<J>, count: usize) -> Place<J>
    requires table { IsAt board.now.key.value.items board.now.table_id place.table_id }
    requires count { count ≡ length board.now.key.value.items }
    requires ready { IsReady place.me }
    ensures table { result.table_id ≡ place.table_id }
    ensures ended { HasEnded place.me result.me }
{
    while let Some((number, job)) = claim(board, &mut place, count) {
        finish(board, &mut place, number, job.work());
    }
    place
}
