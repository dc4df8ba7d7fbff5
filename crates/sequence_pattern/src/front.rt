//! What is kept of the hits of an item.

/// The hits of an item so far: the time of the earliest, and the place and the time of the latest.
#[derive(Clone, Copy, Debug)]
pub struct Seen {
    pub earliest: u64,
    pub place: usize,
    pub latest: u64,
}

/// How far an item has come: the place that it takes next, and its hits before.
#[derive(Clone, Copy, Debug)]
pub struct Front {
    pub next: usize,
    pub seen: Option<Seen>,
}
