//! The rules on what the lines of a script ask for behind its table, in their order, and the first that is broken.
//!
//! specs/Views.antt has the rules on a view and on the name of one, and specs/Sessions.antt those on the head of a session.
//! specs/Laws.antt says what they come to for all views and all sessions of a script.
#![tactic(auto)]

mod laws;
mod sessions;
mod views;

pub use laws::law_script_rules;
pub use sessions::judge_session;
pub use views::{find_view, judge_view};
