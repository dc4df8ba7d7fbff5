//! Equal copies of values and trees.
ghost use Rattle.std.specs.Prelude.{◌≡◌, IfOk};

use crate::{KeyedTree, Tree, Value};
use std::alloc::Global;
use value_lists::{OutOfMemory, Seq};

impl Value {
    /// An equal value.
    ///
    /// # Errors
    ///
    /// [`OutOfMemory`] where there is no room for it.
    #[cycle(copy_value)]
    pub fn copy(&self, alloc: Global) -> Result<Value, OutOfMemory>
        ensures { IfOk result (λ value. value ≡ self.now) }
    {
        match self {
            Value::Num(number) => Ok(Value::Num(*number)),
            Value::Bytes(bytes) => Ok(Value::Bytes(Seq::from_slice(alloc, bytes.as_slice())?)),
            Value::Nil => Ok(Value::Nil),
            Value::List(items) => Ok(Value::List(copy_values(alloc, items.as_slice())?)),
            Value::Pairs(pairs) => Ok(Value::Pairs(copy_pairs(alloc, pairs.as_slice())?)),
            Value::Cell(tree) => Ok(Value::Cell(tree.copy(alloc)?)),
        }
    }
}

impl Tree {
    /// An equal tree.
    ///
    /// # Errors
    ///
    /// [`OutOfMemory`] where there is no room for it.
    #[cycle(copy_value)]
    pub fn copy(&self, alloc: Global) -> Result<Tree, OutOfMemory>
        ensures { IfOk result (λ tree. tree ≡ self.now) }
    {
        match self {
            Tree::Empty => Ok(Tree::Empty),
            Tree::Word(word) => Ok(Tree::Word(*word)),
            Tree::Tuple(items) => Ok(Tree::Tuple(copy_values(alloc, items.as_slice())?)),
            Tree::Values(items) => Ok(Tree::Values(copy_values(alloc, items.as_slice())?)),
            Tree::Rows(rows) => Ok(Tree::Rows(copy_rows(alloc, rows.as_slice())?)),
            Tree::Events(events) => Ok(Tree::Events(Seq::from_slice(alloc, events.as_slice())?)),
            Tree::Slots(slots) => Ok(Tree::Slots(copy_trees(alloc, slots.as_slice())?)),
            Tree::Keyed(entries) => Ok(Tree::Keyed(copy_keyed(alloc, entries.as_slice())?)),
        }
    }
}

/// An equal list of values.
///
/// # Errors
///
/// [`OutOfMemory`] where there is no room for it.
#[cycle(copy_value)]
pub fn copy_values(alloc: Global, items: &[Value]) -> Result<Seq<Value>, OutOfMemory>
    ensures { IfOk result (λ copied. copied ≡ items.now) }
{
    let mut copied = Seq::new(alloc);
    copied.reserve(items.len())?;
    for item in items {
        copied.push(item.copy(alloc)?)?;
    }
    Ok(copied)
}

/// An equal list of trees.
///
/// # Errors
///
/// [`OutOfMemory`] where there is no room for it.
#[cycle(copy_value)]
pub fn copy_trees(alloc: Global, trees: &[Tree]) -> Result<Seq<Tree>, OutOfMemory>
    ensures { IfOk result (λ copied. copied ≡ trees.now) }
{
    let mut copied = Seq::new(alloc);
    copied.reserve(trees.len())?;
    for tree in trees {
        copied.push(tree.copy(alloc)?)?;
    }
    Ok(copied)
}

#[cycle(copy_value)]
fn copy_pairs(alloc: Global, pairs: &[(Value, Value)]) -> Result<Seq<(Value, Value)>, OutOfMemory>
    ensures { IfOk result (λ copied. copied ≡ pairs.now) }
{
    let mut copied = Seq::new(alloc);
    copied.reserve(pairs.len())?;
    for pair in pairs {
        let key = pair.0.copy(alloc)?;
        copied.push((key, pair.1.copy(alloc)?))?;
    }
    Ok(copied)
}

/// An equal list of rows.
///
/// # Errors
///
/// [`OutOfMemory`] where there is no room for it.
#[cycle(copy_value)]
pub fn copy_rows(alloc: Global, rows: &[Seq<Value>]) -> Result<Seq<Seq<Value>>, OutOfMemory>
    ensures { IfOk result (λ copied. copied ≡ rows.now) }
{
    let mut copied = Seq::new(alloc);
    copied.reserve(rows.len())?;
    for row in rows {
        let mut copied_row = Seq::new(alloc);
        copied_row.reserve(row.len())?;
        for item in row.as_slice() {
            copied_row.push(item.copy(alloc)?)?;
        }
        copied.push(copied_row)?;
    }
    Ok(copied)
}

#[cycle(copy_value)]
fn copy_keyed(alloc: Global, entries: &[KeyedTree]) -> Result<Seq<KeyedTree>, OutOfMemory>
    ensures { IfOk result (λ copied. copied ≡ entries.now) }
{
    let mut copied = Seq::new(alloc);
    copied.reserve(entries.len())?;
    for entry in entries {
        let key = entry.key.copy(alloc)?;
        let tree = entry.tree.copy(alloc)?;
        copied.push(KeyedTree { key, tree })?;
    }
    Ok(copied)
}
