//! The ways in which rows are fed to states. Each is tried with the rows cut at every place.
ghost use Rattle.std.specs.Prelude.{◌≡◌, ◌<◌, ◌≤◌, ◌+◌, All, length, IfOk, OnOk};
ghost use Rattle.agg_terms.specs.Lists.{Each};
ghost use Rattle.chain_states.specs.Calls.{IsStateOf};

use crate::trial::Trial;
use chain_states::State;
use state_codec::{DecodeFault, decode};
use std::alloc::Global;
use value_types::{OutOfMemory, Tree};

/// A way to come to a state of all rows.
#[derive(Clone, Copy, PartialEq, Eq)]
pub(crate) enum Way {
    RowByRow,
    /// By one call for all rows before the cut, and by one for those behind it.
    AtOnce,
    /// Those before the cut and those behind it to two states among three, by one call; the three are merged.
    ByPlaces,
    /// A state of those before the cut, merged with one of those behind it.
    TwoParts,
    /// Those before the cut in two states more; the last two are merged first.
    ThreeParts,
    /// Copied at the cut; the state and its copy are both fed on.
    Copied,
    FromTree,
    FromBytes,
}

impl Way {
    pub(crate) const ALL: [Way; 8] = [
        Way::RowByRow,
        Way::AtOnce,
        Way::ByPlaces,
        Way::TwoParts,
        Way::ThreeParts,
        Way::Copied,
        Way::FromTree,
        Way::FromBytes,
    ];
}

/// The place of a row among three states.
fn place_of(number: usize, cut: usize) -> u32
    ensures { result < 3 }
{
    if number < cut { 0 } else { 2 }
}

/// The places of rows: the first of three states for those before the cut, the last for those behind it.
fn places(alloc: Global, cut: usize, count: usize) -> Result<Vec<u32>, OutOfMemory>
    ensures within { IfOk result (λ places. All (λ p. p < 3) places.items) }
    ensures count { IfOk result (λ places. length places.items ≡ count) }
{
    let mut places = Vec::new(alloc);
    for number in 0..count {
        places.push(place_of(number, cut))?;
    }
    Ok(places)
}

impl Trial<'_> {
    /// The state of rows, fed one by one.
    fn fed(&self, from: usize, to: usize) -> Result<State, OutOfMemory>
        requires { to ≤ self.now.count }
        ensures { IfOk result (λ state. IsStateOf self.now.call.now state) }
    {
        let mut state = State::fresh(self.alloc, self.call)?;
        self.feed(&mut state, from, to)?;
        Ok(state)
    }

    /// Whether a state of the rows before the cut is as wanted once it is fed those behind it.
    fn is_wanted_behind(&self, cut: usize, state: &mut State) -> Result<bool, OutOfMemory>
        requires { IsStateOf self.now.call.now state.old }
    {
        self.feed(state, cut, self.count)?;
        self.is_wanted(state)
    }

    fn row_by_row(&self, cut: usize) -> Result<bool, OutOfMemory>
        requires { cut ≤ self.now.count }
    {
        let mut state = self.fed(0, cut)?;
        self.is_wanted_behind(cut, &mut state)
    }

    /// Feeds rows to the first of three states.
    fn feed_first(&self, states: &mut Vec<State>, from: usize, to: usize) -> Result<(), OutOfMemory>
        requires shape { Each (IsStateOf self.now.call.now) states.old.items }
        requires three { length states.old.items ≡ 3 }
        requires order { from ≤ to }
        requires within { to ≤ self.now.count }
        ensures shape { OnOk result (Each (IsStateOf self.now.call.now) states.new.items) }
        ensures three { OnOk result (length states.new.items ≡ 3) }
    {
        let count = to - from;
        let places = places(self.alloc, count, count)?;
        self.feed_at(states, &places, from, to)
    }

    fn first_is_wanted(&self, states: &[State]) -> Result<bool, OutOfMemory>
        requires { Each (IsStateOf self.now.call.now) states.now }
    {
        match states {
            [first, ..] => self.is_wanted(first),
            [] => Ok(false),
        }
    }

    fn at_once(&self, cut: usize) -> Result<bool, OutOfMemory>
        requires { cut ≤ self.now.count }
    {
        let mut states = self.fresh_states(3)?;
        self.feed_first(&mut states, 0, cut)?;
        self.feed_first(&mut states, cut, self.count)?;
        self.first_is_wanted(&states)
    }

    /// Three states, with the rows before the cut in the first and those behind it in the last.
    fn placed(&self, cut: usize) -> Result<Vec<State>, OutOfMemory>
        ensures { IfOk result (λ states. Each (IsStateOf self.now.call.now) states.items) }
    {
        let places = places(self.alloc, cut, self.count)?;
        let mut states = self.fresh_states(3)?;
        self.feed_at(&mut states, &places, 0, self.count)?;
        Ok(states)
    }

    /// Merges states behind one another.
    fn merge_all(&self, state: &mut State, later: &[State]) -> Result<(), OutOfMemory>
        requires first { IsStateOf self.now.call.now state.old }
        requires later { Each (IsStateOf self.now.call.now) later.now }
        ensures { OnOk result (IsStateOf self.now.call.now state.new) }
    {
        match later {
            [] => Ok(()),
            [next, rest @ ..] => {
                state.merge(self.alloc, self.call, next)?;
                self.merge_all(state, rest)
            }
        }
    }

    fn merged_are_wanted(&self, states: &[State]) -> Result<bool, OutOfMemory>
        requires { Each (IsStateOf self.now.call.now) states.now }
    {
        let mut all = State::fresh(self.alloc, self.call)?;
        self.merge_all(&mut all, states)?;
        self.is_wanted(&all)
    }

    fn by_places(&self, cut: usize) -> Result<bool, OutOfMemory> {
        let states = self.placed(cut)?;
        self.merged_are_wanted(&states)
    }

    /// Merges the state of rows behind another one.
    fn merge_fed(&self, state: &mut State, from: usize, to: usize) -> Result<(), OutOfMemory>
        requires within { to ≤ self.now.count }
        requires shape { IsStateOf self.now.call.now state.old }
        ensures { OnOk result (IsStateOf self.now.call.now state.new) }
    {
        let later = self.fed(from, to)?;
        state.merge(self.alloc, self.call, &later)
    }

    /// The state of the rows from a place on, merged of two parts.
    fn joined(&self, from: usize, cut: usize) -> Result<State, OutOfMemory>
        requires { cut ≤ self.now.count }
        ensures { IfOk result (λ state. IsStateOf self.now.call.now state) }
    {
        let mut state = self.fed(from, cut)?;
        self.merge_fed(&mut state, cut, self.count)?;
        Ok(state)
    }

    fn of_two_parts(&self, cut: usize) -> Result<bool, OutOfMemory>
        requires { cut ≤ self.now.count }
    {
        let state = self.joined(0, cut)?;
        self.is_wanted(&state)
    }

    /// Merges what is merged of two parts behind a state.
    fn merge_joined(&self, state: &mut State, from: usize, cut: usize) -> Result<(), OutOfMemory>
        requires within { cut ≤ self.now.count }
        requires shape { IsStateOf self.now.call.now state.old }
        ensures { OnOk result (IsStateOf self.now.call.now state.new) }
    {
        let later = self.joined(from, cut)?;
        state.merge(self.alloc, self.call, &later)
    }

    fn of_three_parts(&self, cut: usize) -> Result<bool, OutOfMemory>
        requires { cut ≤ self.now.count }
    {
        let half = cut / 2;
        let mut state = self.fed(0, half)?;
        self.merge_joined(&mut state, half, cut)?;
        self.is_wanted(&state)
    }

    /// Whether a state and its copy are both as wanted once they are fed the rows behind the cut.
    fn both_are_wanted(&self, cut: usize, state: &mut State) -> Result<bool, OutOfMemory>
        requires { IsStateOf self.now.call.now state.old }
    {
        let mut copy = state.copy(self.alloc, self.call)?;
        Ok(self.is_wanted_behind(cut, &mut copy)? && self.is_wanted_behind(cut, state)?)
    }

    fn copied(&self, cut: usize) -> Result<bool, OutOfMemory>
        requires { cut ≤ self.now.count }
    {
        let mut state = self.fed(0, cut)?;
        self.both_are_wanted(cut, &mut state)
    }

    fn loaded_is_wanted(&self, cut: usize, tree: &Tree) -> Result<bool, OutOfMemory> {
        let mut state = State::from_tree(self.alloc, self.call, tree)?;
        self.is_wanted_behind(cut, &mut state)
    }

    fn from_tree(&self, cut: usize) -> Result<bool, OutOfMemory>
        requires { cut ≤ self.now.count }
    {
        let tree = self.fed(0, cut)?.tree(self.alloc)?;
        self.loaded_is_wanted(cut, &tree)
    }

    fn decoded_is_wanted(&self, cut: usize, bytes: &[u8]) -> Result<bool, OutOfMemory> {
        match decode(self.alloc, self.call.legal(), bytes) {
            Ok(tree) => self.loaded_is_wanted(cut, &tree),
            Err(DecodeFault::Bad(_)) => Ok(false),
            Err(DecodeFault::OutOfMemory) => Err(OutOfMemory),
        }
    }

    fn from_bytes(&self, cut: usize) -> Result<bool, OutOfMemory>
        requires { cut ≤ self.now.count }
    {
        let state = self.fed(0, cut)?;
        let bytes = self.bytes_of(&state)?;
        self.decoded_is_wanted(cut, bytes.as_slice())
    }

    /// Whether one way comes to what is wanted, with the rows cut at one place.
    fn comes_out(&self, way: Way, cut: usize) -> Result<bool, OutOfMemory>
        requires { cut ≤ self.now.count }
    {
        match way {
            Way::RowByRow => self.row_by_row(cut),
            Way::AtOnce => self.at_once(cut),
            Way::ByPlaces => self.by_places(cut),
            Way::TwoParts => self.of_two_parts(cut),
            Way::ThreeParts => self.of_three_parts(cut),
            Way::Copied => self.copied(cut),
            Way::FromTree => self.from_tree(cut),
            Way::FromBytes => self.from_bytes(cut),
        }
    }

    /// Whether a way comes to what is wanted wherever the rows are cut.
    pub(crate) fn goes_as_wanted(&self, way: Way) -> Result<bool, OutOfMemory> {
        for cut in 0..=self.count {
            if !self.comes_out(way, cut)? {
                return Ok(false);
            }
        }
        Ok(true)
    }
}
