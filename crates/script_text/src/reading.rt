//! The lines of a script, one after the other.
ghost use Rattle.request_rules.specs.Views.{schema_of};
ghost use Rattle.script_text.specs.Answers.{AreSessions, AreViews, IsScriptAnswer, script_of};
ghost use Rattle.script_text.specs.Scripts.{of_table};
ghost use Rattle.script_text.specs.proving.Taking.{IsJudgedAt, ReadsOn, Steps};
ghost use Rattle.std.specs.Prelude.{◌≡◌, ◌≤◌, ◌<◌, ◌^◌, ℕ, List, [], length, IfOk};

use crate::forms::read_form;
use crate::placing::{is_blank, line_1, line_at};
use crate::script::Script;
use crate::steps::{Step, add_line};
use agg_defs::{Schema, Views};
use refusals::RequestFault;
use request_rules::Refusal;
use request_text::{no_form, on_line, schema_in};
use std::alloc::Global;
use value_lists::Seq;

/// The script of a table alone.
fn of_table(alloc: Global, schema: Schema) -> Script
    ensures table { result.views.schema ≡ schema }
    ensures none { (text : List ℕ) → script_of text result ≡ of_table (schema_of schema) }
    ensures sessions { (text : List ℕ) → AreSessions text result }
    ensures views { result.views.list ≡ [] }
{
    Script {
        views: Views {
            schema,
            list: Seq::new(alloc),
        },
        sessions: Seq::new(alloc),
    }
}

/// What a line adds to a script that was read up to it, where the line's end is at a place of the text.
fn read_line(
    alloc: Global,
    text: &[u8],
    script: Script,
    line: &[u8],
    behind: usize,
) -> Result<Step, Refusal>
    requires short { length text.now < 2 ^ 32 }
    requires line { length line.now ≤ length text.now }
    requires within { behind ≤ length text.now }
    requires views { AreViews script.views }
    requires sessions { AreSessions text.now script }
    ensures { Steps text.now behind (IsJudgedAt text.now script line.now behind) result }
{
    if is_blank(line) {
        return Ok(Step {
            script,
            at: behind,
            rows: 0,
        });
    }
    match read_form(alloc, !script.sessions.is_empty(), line) {
        Ok(form) => add_line(alloc, text, behind, script, &form),
        Err(fault) => Err(no_form(fault)),
    }
}

/// Reads the lines from a place on, the first of which is line 2.
fn read_lines(
    alloc: Global,
    text: &[u8],
    table: Script,
    from: usize,
) -> Result<Script, RequestFault>
    requires short { length text.now < 2 ^ 32 }
    requires within { from ≤ length text.now }
    requires views { AreViews table.views }
    requires sessions { AreSessions text.now table }
    ensures { ReadsOn text.now table from result }
{
    let mut script = table;
    let mut at = from;
    let mut number = 2u64;
    while at < text.len() {
        let (line, behind) = line_at(text, at);
        match read_line(alloc, text, script, line, behind) {
            Ok(step) => {
                script = step.script;
                at = step.at;
                number += 1 + step.rows;
            }
            Err(refusal) => return Err(on_line(number, refusal)),
        }
    }
    Ok(script)
}

/// The script of a text: line 1 is a table, as `TABLE k UInt8, x UInt64`; then come views of its rows, as
/// `VIEW v SELECT sum(x) GROUP BY k`, and then sessions, each with its head `SESSION 1` and its statements `INSERT 2` and
/// `LOAD v 2` with so many lines behind them, `READ v` and `STATES v` (manual: "SELECT", "GROUP BY"; scripts, their limits
/// and the order of refusals are this project's own choice). A line ends with a newline or with the text. Behind line 1 and
/// apart from lines of rows, lines that are empty or hold spaces alone are skipped. Lines of rows aren't read here. The text
/// has fewer than 2^32 bytes.
///
/// # Errors
///
/// [`RequestFault::Bad`] with the first line that is refused and why. A line that is none in its place has the place of
/// the first token that goes on with no line that may stand there: a view stands before the first session, a statement
/// behind the head of one. Then come the rules of the line: those of [`judge_table`](request_rules::judge_table),
/// [`judge_view`](script_rules::judge_view), [`judge_session`](script_rules::judge_session) and
/// [`find_view`](script_rules::find_view), and last, that as many lines follow as the statement asks for. A text without
/// a line is refused as an empty line 1. [`RequestFault::OutOfMemory`] where there is no room for the script.
pub fn read_script(alloc: Global, text: &[u8]) -> Result<Script, RequestFault>
    requires { length text.now < 2 ^ 32 }
    ensures script { IsScriptAnswer text.now result }
    ensures views { IfOk result (λ script. AreViews script.views) }
    ensures sessions { IfOk result (AreSessions text.now) }
{
    let (line, behind) = line_1(text);
    match schema_in(alloc, line) {
        Ok(schema) => read_lines(alloc, text, of_table(alloc, schema), behind),
        Err(refusal) => Err(on_line(1, refusal)),
    }
}
