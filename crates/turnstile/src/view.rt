//! What the rule knows of a pass. No value of these types is made.
use history_core::Entry;
use std::collections::LinkedList;

/// Where a pass stands: taken in by the root, without a ticket, with a ticket that it waits for, in turn with the history
/// that it found, or in turn once it has acted.
pub enum Stage {
    Spent,
    Idle,
    Waits(u64),
    InTurn(u64, LinkedList<Entry>),
    Acted(u64),
}

pub struct View<G> {
    pub stage: Stage,
    pub number: u32,
    pub quota: u64,
    pub mine: LinkedList<Entry>,
    pub seen: LinkedList<Entry>,
    /// Of the two lists that met at the last join, the shorter.
    pub shorter: LinkedList<Entry>,
    pub basis: Option<G>,
    pub made: u32,
    pub unjoined: u32,
    pub kept: LinkedList<(u32, LinkedList<Entry>)>,
}
