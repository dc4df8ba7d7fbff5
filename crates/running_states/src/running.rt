//! A state has the shape of its tree: most suffixes add nothing to the state of the chain inside.
use boxed_leaves::BoxedState;
use distinct_rows::DistinctRows;
use int_leaves::IntState;
use value_types::Value;

/// What the rows of a chain leave, 32 bytes: what is large stands behind a pointer.
#[derive(Drop)]
pub enum Running {
    /// A function that keeps one word.
    Int(IntState),
    /// A function that keeps more.
    Boxed(BoxedState),
    /// -ForEach and -Resample: a state for each place.
    Slots(Vec<Running>),
    /// -Map: a state for each key, by rising keys.
    Keyed(Vec<(Value, Running)>),
    /// -Distinct: the first row of each kind, in the order of the rows.
    Rows(Box<DistinctRows>),
}

const _: () = prove!(size_of::<Running>() == 32);
