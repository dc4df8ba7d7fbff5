//! The rules on sessions.
ghost use Rattle.request_rules.specs.Answers.{Says};
ghost use Rattle.script_rules.specs.Sessions.{judged_session};
ghost use Rattle.std.specs.Prelude.{◌≡◌, ◌<◌, IfOk};

use refusals::{LimitName, Why};
use request_rules::Refusal;

/// How many sessions a script may have (this project's own choice).
const MOST_SESSIONS: u64 = 32;

/// The head of a session behind `before` sessions, with its number and the place of that number in the line, by its rules
/// in their order: at most 32 sessions, and a number that is one more than that of the session before, from 1 on (this
/// project's own choice).
///
/// # Errors
///
/// The first rule that is broken.
pub fn judge_session(before: u64, at: u64, number: i128) -> Result<(), Refusal>
    ensures judged { Says (λ u. u) result (judged_session before at number) }
    ensures few { IfOk result (λ _. before < 32) }
{
    if before >= MOST_SESSIONS {
        return Err(Refusal::Broken(Why::Limit(LimitName::Sessions)));
    }
    if number != before as i128 + 1 {
        return Err(Refusal::Broken(Why::SessionOrder(at)));
    }
    Ok(())
}
