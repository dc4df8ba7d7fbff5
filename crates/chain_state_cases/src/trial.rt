//! A call over rows: what its states are fed, and whether they are as a case wants them.
ghost use Rattle.std.specs.Prelude.{◌≡◌, ◌<◌, ◌≤◌, ◌-◌, ◌↔◌, All, length, IfOk, IsTrue, OnOk};
ghost use Rattle.agg_terms.specs.Lists.{Each};
ghost use Rattle.chain_states.specs.Calls.{IsStateOf};

use crate::cases::Case;
use agg_defs::Legal;
use agg_typing::law_typing;
use agg_values::fits;
use chain_states::{ReadyCall, State, add_fresh, feed_places};
use state_codec::{Codec, encode, law_legal_types_have_states};
use std::alloc::Global;
use tsv_values::write_value;
use typed_columns::{Args, Column, Item};
use value_types::{Bytes, OutOfMemory, Value};

/// A call that is ready, the rows that it takes as columns, and the case that says what is wanted.
#[derive(Drop)]
pub(crate) struct Trial<'a> {
    pub(crate) alloc: Global,
    case: &'a Case,
    pub(crate) call: &'a ReadyCall,
    columns: &'a [Column],
    /// The numbers of the call's columns among these.
    arguments: &'a [u32],
    /// How many rows there are.
    pub(crate) count: usize,
    ghost few: { length arguments.now ≤ 64 },
    ghost within: { All (λ a. a < length columns.now) arguments.now },
    ghost long: { All (λ c. count ≤ length c.values) columns.now },
}

fn are_within(arguments: &[u32], columns: &[Column]) -> bool
    ensures { IsTrue result ↔ All (λ a. a < length columns.now) arguments.now }
{
    arguments
        .iter()
        .all(|argument| (*argument as usize) < columns.len())
}

fn are_long(columns: &[Column], count: usize) -> bool
    ensures { IsTrue result ↔ All (λ c. count ≤ length c.values) columns.now }
{
    columns.iter().all(|column| count <= column.len())
}

/// Lends the argument that columns have at a number.
fn lend_item<'a>(columns: &'a [Column], argument: u32, number: usize) -> Item<'a>
    requires column { argument < length columns.now }
    requires within { All (λ c. number < length c.values) columns.now }
{
    columns[argument as usize].item(number)
}

/// Lends the row of arguments that columns have at a number.
fn lend_row<'a>(columns: &'a [Column], arguments: &[u32], number: usize, row: &mut Args<'a>)
    requires few { length arguments.now ≤ 64 }
    requires columns { All (λ a. a < length columns.now) arguments.now }
    requires within { All (λ c. number < length c.values) columns.now }
{
    row.clear();
    for i in 0..arguments.len() {
        row.push(lend_item(columns, arguments[i], number));
    }
}

/// The text of a call's value; a word that is the text of none where it isn't one of the result's type.
fn text_of(alloc: Global, legal: &Legal, value: &Value) -> Result<Bytes, OutOfMemory> {
    law_typing();
    law_legal_types_have_states();
    let ty = legal.result();
    if fits(value, ty) {
        write_value(alloc, &Codec, ty, value)
    } else {
        Bytes::from_slice(alloc, b"of another type")
    }
}

impl<'a> Trial<'a> {
    /// None where a column has too few values, or an argument is none of them.
    pub(crate) fn new(
        alloc: Global,
        case: &'a Case,
        call: &'a ReadyCall,
        columns: &'a [Column],
        arguments: &'a [u32],
        count: usize,
    ) -> Option<Trial<'a>> {
        let is_over = are_within(arguments, columns) && are_long(columns, count);
        if !is_over || arguments.len() > 64 {
            return None;
        }
        Some(Trial {
            alloc,
            case,
            call,
            columns,
            arguments,
            count,
        })
    }

    /// Feeds rows to a state, one by one.
    pub(crate) fn feed(&self, state: &mut State, from: usize, to: usize) -> Result<(), OutOfMemory>
        requires within { to ≤ self.now.count }
        requires shape { IsStateOf self.now.call.now state.old }
        ensures { OnOk result (IsStateOf self.now.call.now state.new) }
    {
        let mut row = Args::new();
        for number in from..to {
            lend_row(self.columns, self.arguments, number, &mut row);
            state.feed(self.alloc, self.call, &row)?;
        }
        Ok(())
    }

    /// States of no rows.
    pub(crate) fn fresh_states(&self, count: usize) -> Result<Vec<State>, OutOfMemory>
        ensures shape { IfOk result (λ states. Each (IsStateOf self.now.call.now) states.items) }
        ensures count { IfOk result (λ states. length states.items ≡ count) }
    {
        let mut states = Vec::new(self.alloc);
        add_fresh(self.call, self.alloc, &mut states, count)?;
        Ok(states)
    }

    /// Feeds rows to the states at their places, all at once.
    pub(crate) fn feed_at(
        &self,
        states: &mut Vec<State>,
        places: &[u32],
        from: usize,
        to: usize,
    ) -> Result<(), OutOfMemory>
        requires shape { Each (IsStateOf self.now.call.now) states.old.items }
        requires places { All (λ p. p < length states.old.items) places.now }
        requires order { from ≤ to }
        requires count { length places.now ≡ to - from }
        requires within { to ≤ self.now.count }
        ensures shape { OnOk result (Each (IsStateOf self.now.call.now) states.new.items) }
        ensures count { OnOk result (length states.new.items ≡ length states.old.items) }
    {
        feed_places(
            self.call,
            self.alloc,
            states,
            places,
            self.columns,
            self.arguments,
            from,
            to,
        )
    }

    /// The bytes of a state.
    pub(crate) fn bytes_of(&self, state: &State) -> Result<Bytes, OutOfMemory> {
        let tree = state.tree(self.alloc)?;
        encode(self.alloc, self.call.legal(), &tree)
    }

    /// Whether a state comes to the value that is wanted.
    fn has_value(&self, state: &State) -> Result<bool, OutOfMemory>
        requires { IsStateOf self.now.call.now state.now }
    {
        let value = state.finish(self.alloc, self.call)?;
        let text = text_of(self.alloc, self.call.legal(), &value)?;
        Ok(text.as_slice() == self.case.value.as_slice())
    }

    /// Whether a state has the bytes that are wanted.
    fn has_bytes(&self, state: &State) -> Result<bool, OutOfMemory> {
        let bytes = self.bytes_of(state)?;
        let digits = hex::encode(self.alloc, bytes.as_slice())?;
        Ok(digits.as_bytes() == self.case.state.as_slice())
    }

    /// Whether a state is as the case wants it.
    pub(crate) fn is_wanted(&self, state: &State) -> Result<bool, OutOfMemory>
        requires { IsStateOf self.now.call.now state.now }
    {
        let is_fed = state.is_fed(self.alloc, self.call)?;
        Ok(is_fed == self.case.is_fed && self.has_value(state)? && self.has_bytes(state)?)
    }
}
