//! The functions that keep one word.
ghost use Rattle.std.specs.Prelude.{◌≡◌};
ghost use Rattle.value_types.specs.Folds.{leaf_of};
ghost use Rattle.int_leaves.specs.Parts.{function_leaf};
ghost use Rattle.int_leaves.specs.Served.{IsServedFunction};

use value_types::Leaf;

/// A function that keeps one word.
#[derive(Clone, Copy)]
pub enum Function {
    Count,
    Sum,
    Min,
    Max,
    BitAnd,
    BitOr,
    BitXor,
    Retention,
}

/// The function, one of these.
pub fn function_of(leaf: &Leaf) -> Function
    requires { IsServedFunction (leaf_of leaf.now) }
    ensures { function_leaf result ≡ leaf_of leaf.now }
{
    match leaf {
        Leaf::Count => Function::Count,
        Leaf::Sum => Function::Sum,
        Leaf::Min => Function::Min,
        Leaf::Max => Function::Max,
        Leaf::BitAnd => Function::BitAnd,
        Leaf::BitOr => Function::BitOr,
        Leaf::BitXor => Function::BitXor,
        _ => Function::Retention,
    }
}
