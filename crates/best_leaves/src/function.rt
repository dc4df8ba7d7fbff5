//! The functions that keep their best row.
ghost use Rattle.std.specs.Prelude.{◌≡◌};
ghost use Rattle.value_types.specs.Folds.{leaf_of};
ghost use Rattle.best_leaves.specs.Best.{compared_place, wins as wins_by};
ghost use Rattle.best_leaves.specs.Made.{function_leaf};
ghost use Rattle.best_leaves.specs.Served.{IsServedFunction};

use std::cmp::Ordering;
use value_types::Leaf;

/// A function that keeps its best row.
#[derive(Clone, Copy)]
pub enum Function {
    Min,
    Max,
    ArgMin,
    ArgMax,
}

/// The function, one of these.
pub fn function_of(leaf: &Leaf) -> Function
    requires { IsServedFunction (leaf_of leaf.now) }
    ensures { function_leaf result ≡ leaf_of leaf.now }
{
    match leaf {
        Leaf::Min => Function::Min,
        Leaf::Max => Function::Max,
        Leaf::ArgMin => Function::ArgMin,
        _ => Function::ArgMax,
    }
}

/// The place of the argument that is compared: the second of argMin and argMax.
pub fn place_compared(function: Function) -> usize
    ensures { result ≡ compared_place function }
{
    match function {
        Function::Min | Function::Max => 0,
        Function::ArgMin | Function::ArgMax => 1,
    }
}

/// Whether a value that stands so to another one beats it. An equal one does not.
pub fn wins(function: Function, order: Ordering) -> bool
    ensures { result ≡ wins_by function order }
{
    match function {
        Function::Min | Function::ArgMin => order.is_lt(),
        Function::Max | Function::ArgMax => order.is_gt(),
    }
}
