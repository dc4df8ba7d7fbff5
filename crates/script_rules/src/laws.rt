//! What holds of views and sessions that break no rule, as the contract of a function that does nothing.
ghost use Rattle.script_rules.specs.Laws.{SessionsAreNumbered, ViewsAreFound};

/// What the rules come to for a whole script: each of its views is found by its name, at its own place, and its sessions
/// are numbered from 1 on.
pub fn law_script_rules()
    ensures views { ViewsAreFound }
    ensures sessions { SessionsAreNumbered }
{}
