//! What a line adds to a script.
ghost use Rattle.line_forms.specs.ScriptLines as forms;
ghost use Rattle.line_forms.specs.Views.{line_of, name_of, select_of};
ghost use Rattle.request_rules.specs.Answers.{Says};
ghost use Rattle.request_rules.specs.Selects.{AreFewCalls};
ghost use Rattle.script_text.specs.Answers.{AreSessions, AreViews, AreWithin, IsStatement, rows_of, script_of, statement_of};
ghost use Rattle.script_text.specs.Lines.{lines_at};
ghost use Rattle.script_text.specs.Scripts.{with_statement};
ghost use Rattle.script_text.specs.Steps as rules;
ghost use Rattle.script_text.specs.proving.Taking.{IsAdded, IsFewLine, IsTaken, Steps, alone};
ghost use Rattle.std.specs.Prelude.{◌≡◌, ◌≤◌, ◌<◌, ◌^◌, ℕ, List, length, IfOk};

use crate::placing::place_behind;
use crate::script::{Lines, Script, Session, Statement};
use line_forms::{WrittenLine, WrittenName, WrittenSelect};
use refusals::Why;
use request_rules::Refusal;
use script_rules::{find_view, judge_session, judge_view};
use std::alloc::Global;
use value_lists::{OutOfMemory, Seq};

/// A script with what a line adds to it, the place behind the line and its lines of rows, and how many these are.
#[derive(Drop)]
pub(crate) struct Step {
    pub(crate) script: Script,
    pub(crate) at: usize,
    pub(crate) rows: u64,
}

/// So many lines of rows that begin at a place of a text.
fn rows_at(text: &[u8], at: usize, count: u128) -> Result<Lines, Refusal>
    requires short { length text.now < 2 ^ 32 }
    requires within { at ≤ length text.now }
    ensures taken { Says (rows_of text.now) result (rules.rows_taken at count (lines_at text.now at)) }
    ensures all { IfOk result (λ lines. lines.count ≡ count) }
    ensures behind { IfOk result (λ lines. IsTaken text.now at lines.to lines.count) }
    ensures within { IfOk result (AreWithin text.now) }
{
    match place_behind(text, at, count) {
        Some(to) => Ok(Lines {
            from: at,
            to,
            count: count as u64,
        }),
        None => Err(Refusal::Broken(Why::Lines)),
    }
}

/// Adds a view over the table.
fn add_view(
    alloc: Global,
    mut script: Script,
    name: &WrittenName,
    select: &WrittenSelect,
) -> Result<Script, Refusal>
    requires few { AreFewCalls (select_of select.now).calls }
    requires views { AreViews script.views }
    ensures added { (text : List ℕ) → Says (script_of text) result (rules.view_added (script_of text script) (name_of name.now) (select_of select.now)) }
    ensures views { IfOk result (λ after. AreViews after.views) }
    ensures sessions { (text : List ℕ) → AreSessions text script → IfOk result (AreSessions text) }
{
    let views = script.views.list.as_slice();
    let view = judge_view(alloc, &script.views.schema, views, name, select)?;
    script.views.list.push(view)?;
    Ok(script)
}

/// Adds a session of this number, which stands at a place of its line.
fn add_session(alloc: Global, mut script: Script, at: u64, number: i128) -> Result<Script, Refusal>
    ensures added { (text : List ℕ) → Says (script_of text) result (rules.session_added (script_of text script) at number) }
    ensures views { IfOk result (λ after. after.views ≡ script.views) }
    ensures sessions { (text : List ℕ) → AreSessions text script → IfOk result (AreSessions text) }
{
    judge_session(script.sessions.len() as u64, at, number)?;
    script.sessions.push(Session {
        statements: Seq::new(alloc),
    })?;
    Ok(script)
}

/// Adds a statement to the last session.
fn add_statement(mut script: Script, statement: Statement) -> Result<Script, OutOfMemory>
    ensures added { (text : List ℕ) → IfOk result (λ after. script_of text after ≡ with_statement (script_of text script) (statement_of text statement)) }
    ensures views { IfOk result (λ after. after.views ≡ script.views) }
    ensures sessions { (text : List ℕ) → AreSessions text script → IsStatement text (length script.views.list) statement → IfOk result (AreSessions text) }
{
    if let Some(mut session) = script.sessions.pop() {
        session.statements.push(statement)?;
        script.sessions.push(session)?;
    }
    Ok(script)
}

/// Adds the statement that reads a view.
fn add_read(script: Script, name: &WrittenName) -> Result<Script, Refusal>
    requires { AreViews script.views }
    ensures added { (text : List ℕ) → Says (script_of text) result (rules.read_added (script_of text script) (name_of name.now)) }
    ensures views { IfOk result (λ after. after.views ≡ script.views) }
    ensures sessions { (text : List ℕ) → AreSessions text script → IfOk result (AreSessions text) }
{
    let view = find_view(script.views.list.as_slice(), name)?;
    let after = add_statement(script, Statement::Read { view })?;
    Ok(after)
}

/// Adds the statement that reads the states of a view.
fn add_states(script: Script, name: &WrittenName) -> Result<Script, Refusal>
    requires { AreViews script.views }
    ensures added { (text : List ℕ) → Says (script_of text) result (rules.states_added (script_of text script) (name_of name.now)) }
    ensures views { IfOk result (λ after. after.views ≡ script.views) }
    ensures sessions { (text : List ℕ) → AreSessions text script → IfOk result (AreSessions text) }
{
    let view = find_view(script.views.list.as_slice(), name)?;
    let after = add_statement(script, Statement::States { view })?;
    Ok(after)
}

/// Adds the statement that inserts so many lines, which begin at a place of the text.
fn add_insert(text: &[u8], at: usize, script: Script, count: u128) -> Result<Step, Refusal>
    requires short { length text.now < 2 ^ 32 }
    requires within { at ≤ length text.now }
    requires views { AreViews script.views }
    requires sessions { AreSessions text.now script }
    ensures { Steps text.now at (IsAdded text.now script at (forms.Insert count)) result }
{
    let lines = rows_at(text, at, count)?;
    let script = add_statement(script, Statement::Insert(lines))?;
    Ok(Step {
        script,
        at: lines.to,
        rows: lines.count,
    })
}

/// Adds the statement that loads so many lines into a view.
fn add_load(
    text: &[u8],
    at: usize,
    script: Script,
    name: &WrittenName,
    count: u128,
) -> Result<Step, Refusal>
    requires short { length text.now < 2 ^ 32 }
    requires within { at ≤ length text.now }
    requires views { AreViews script.views }
    requires sessions { AreSessions text.now script }
    ensures { Steps text.now at (IsAdded text.now script at (forms.Load (name_of name.now) count)) result }
{
    let view = find_view(script.views.list.as_slice(), name)?;
    let lines = rows_at(text, at, count)?;
    let script = add_statement(script, Statement::Load { view, lines })?;
    Ok(Step {
        script,
        at: lines.to,
        rows: lines.count,
    })
}

/// The step of a line without rows, whose end is at a place.
fn alone(at: usize, script: Result<Script, Refusal>) -> Result<Step, Refusal>
    ensures { result ≡ alone at script }
{
    match script {
        Ok(script) => Ok(Step {
            script,
            at,
            rows: 0,
        }),
        Err(refusal) => Err(refusal),
    }
}

/// Adds to a script what a line asks for, whose end is at a place of the text, by its rules in their order.
///
/// # Errors
///
/// The first rule that is broken, or [`Refusal::OutOfMemory`] where there is no room for what the line adds.
pub(crate) fn add_line(
    alloc: Global,
    text: &[u8],
    at: usize,
    script: Script,
    form: &WrittenLine,
) -> Result<Step, Refusal>
    requires few { IsFewLine (line_of form.now) }
    requires short { length text.now < 2 ^ 32 }
    requires within { at ≤ length text.now }
    requires views { AreViews script.views }
    requires sessions { AreSessions text.now script }
    ensures { Steps text.now at (IsAdded text.now script at (line_of form.now)) result }
{
    match form {
        WrittenLine::View { name, select } => alone(at, add_view(alloc, script, name, select)),
        WrittenLine::Session { at: place, number } => {
            alone(at, add_session(alloc, script, *place, *number))
        }
        WrittenLine::Insert { count } => add_insert(text, at, script, *count),
        WrittenLine::Load { view, count } => add_load(text, at, script, view, *count),
        WrittenLine::Read { view } => alone(at, add_read(script, view)),
        WrittenLine::States { view } => alone(at, add_states(script, view)),
    }
}
