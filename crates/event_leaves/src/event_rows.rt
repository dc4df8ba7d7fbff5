//! What is kept of rows: whether there was one, and the events of those that meet some condition, by time.
ghost use Rattle.std.specs.Prelude.{◌≡◌, ◌≤◌, ◌<◌, ◌%◌, ◌^◌, [], map, false, IfOk, IsOk, OnErr, OnOk};
ghost use Rattle.agg_terms.specs.Lists.{Each, NotFalling};
ghost use Rattle.agg_terms.specs.Order.{ascending};
ghost use Rattle.agg_terms.specs.Trees.{by_time};
ghost use Rattle.value_types.specs.Folds.{event_of, tree_of};
ghost use Rattle.window_funnel.specs.Conditions.{cut_to};
ghost use Rattle.event_leaves.specs.Kept.{IsKept, Kept, event_tree, joined, kept_of, no_rows, stored_events, has_rows, with_row};
ghost use Rattle.event_leaves.specs.Rows.{argument};

use crate::event_list::{add, insert, merge};
use crate::row::event;
use std::alloc::Global;
use std::marker::Model;
use typed_columns::Item;
use value_types::{Event, OutOfMemory, Seq, Tree};

/// What is kept of rows of a time and so many conditions.
#[derive(Drop)]
pub struct EventRows {
    conditions: u32,
    is_fed: bool,
    events: Vec<Event>,
}

impl Model for EventRows {
    ghost Value = { Kept };

    ghost view = { λ a. record { conditions = a.conditions; is_fed = a.is_fed; events = map event_of a.events.items } };

    ghost invariant = { λ a. IsKept (record { conditions = a.conditions; is_fed = a.is_fed; events = map event_of a.events.items }) };
}

impl EventRows {
    /// No rows. Takes no memory.
    pub fn new(alloc: Global, conditions: u32) -> EventRows
        requires some { 1 ≤ conditions }
        requires most { conditions ≤ 32 }
        ensures { result ≡ no_rows conditions }
    {
        EventRows {
            conditions,
            is_fed: false,
            events: Vec::new(alloc),
        }
    }

    /// Adds a row.
    ///
    /// # Errors
    ///
    /// [`OutOfMemory`] where there is no room; nothing is changed.
    pub fn feed(&mut self, row: &[Item<'_>]) -> Result<(), OutOfMemory>
        ensures sound { IsKept self.old }
        ensures ok { OnOk result (self.new ≡ with_row self.old (map argument row.now)) }
        ensures err { OnErr result (self.new ≡ self.old) }
    {
        let event = event(self.conditions, row);
        add(&mut self.events, event)?;
        self.is_fed = true;
        Ok(())
    }

    /// Adds later rows, of as many conditions.
    ///
    /// # Errors
    ///
    /// [`OutOfMemory`] where there is no room; nothing is changed.
    pub fn merge(&mut self, alloc: Global, later: &EventRows) -> Result<(), OutOfMemory>
        requires { self.old.conditions ≡ later.now.conditions }
        ensures sound { IsKept self.old }
        ensures later_sound { IsKept later.now }
        ensures ok { OnOk result (self.new ≡ joined self.old later.now) }
        ensures err { OnErr result (self.new ≡ self.old) }
    {
        merge(alloc, &mut self.events, later.events.as_slice())?;
        self.is_fed |= later.is_fed;
        Ok(())
    }

    /// How many conditions there are.
    pub fn conditions(&self) -> u32
        ensures conditions { result ≡ self.now.conditions }
        ensures some { 1 ≤ result }
        ensures most { result ≤ 32 }
    {
        self.conditions
    }

    /// Whether there was a row.
    pub fn is_fed(&self) -> bool
        ensures { result ≡ self.now.is_fed }
    {
        self.is_fed
    }

    /// The events, by time.
    pub fn events(&self) -> &[Event]
        ensures events { map event_of result.now ≡ self.now.events }
        ensures sound { IsKept self.now }
    {
        self.events.as_slice()
    }

    /// The tree of these rows.
    ///
    /// # Errors
    ///
    /// [`OutOfMemory`] where there is no room for it.
    #[tactic(auto, using(value_types::proofs::FoldLaws::tree_laws))]
    pub fn tree(&self, alloc: Global) -> Result<Tree, OutOfMemory>
        ensures { IfOk result (λ tree. tree_of tree ≡ event_tree self.now.is_fed self.now.events) }
    {
        if self.is_fed {
            Ok(Tree::Events(Seq::from_slice(alloc, self.events.as_slice())?))
        } else {
            Ok(Tree::Empty)
        }
    }

    /// The same rows again.
    ///
    /// # Errors
    ///
    /// [`OutOfMemory`] where there is no room for them.
    pub fn copy(&self, alloc: Global) -> Result<EventRows, OutOfMemory>
        ensures { IfOk result (λ copied. copied ≡ self.now) }
    {
        Ok(EventRows {
            conditions: self.conditions,
            is_fed: self.is_fed,
            events: Vec::from_slice(alloc, self.events.as_slice())?,
        })
    }

    /// The rows of a tree. Of a tree that is none of so many conditions, the events are put in order, and conditions
    /// beyond are left out.
    ///
    /// # Errors
    ///
    /// [`OutOfMemory`] where there is no room for them.
    pub fn from_tree(alloc: Global, conditions: u32, tree: &Tree) -> Result<EventRows, OutOfMemory>
        requires some { 1 ≤ conditions }
        requires most { conditions ≤ 32 }
        ensures { IfOk result (λ rows. rows ≡ kept_of conditions (tree_of tree.now)) }
    {
        Ok(EventRows {
            conditions,
            is_fed: holds_rows(tree),
            events: in_order(alloc, conditions, tree_events(tree))?,
        })
    }
}

/// Whether a tree is one of rows.
#[tactic(auto, using(value_types::proofs::FoldLaws::tree_laws))]
fn holds_rows(tree: &Tree) -> bool
    ensures { result ≡ has_rows (tree_of tree.now) }
{
    match tree {
        Tree::Events(_) => true,
        _ => false,
    }
}

/// The events of a tree.
#[tactic(auto, using(value_types::proofs::FoldLaws::tree_laws))]
fn tree_events(tree: &Tree) -> &[Event]
    ensures { map event_of result.now ≡ stored_events (tree_of tree.now) }
{
    match tree {
        Tree::Events(events) => events.as_slice(),
        _ => &[],
    }
}

/// An event without the conditions beyond so many.
fn cut(conditions: u32, event: Event) -> Event
    requires { conditions ≤ 32 }
    ensures { event_of result ≡ cut_to conditions (event_of event) }
{
    let beyond = 1u64 << conditions;
    Event {
        time: event.time,
        mask: (u64::from(event.mask) % beyond) as u32,
    }
}

/// The events by time, each without the conditions beyond so many.
fn in_order(alloc: Global, conditions: u32, events: &[Event]) -> Result<Vec<Event>, OutOfMemory>
    requires { conditions ≤ 32 }
    ensures { IfOk result (λ all. map event_of all.items ≡ ascending by_time (map (cut_to conditions) (map event_of events.now))) }
{
    let mut all = Vec::with_capacity(alloc, events.len())?;
    for event in events {
        insert(&mut all, cut(conditions, *event))?;
    }
    Ok(all)
}
