//! Defaults of types, and what stands for the meaning over no rows.
ghost use Rattle.std.specs.Prelude.{◌≡◌, ◌+◌, IfOk, map, replicate};
ghost use Rattle.agg_terms.specs.Chains.{Str};
ghost use Rattle.agg_terms.specs.Types as types_in;
ghost use Rattle.agg_meaning.specs.Results as results;
ghost use Rattle.value_types.specs.Folds.{chain_of, leaf_of, tree_of, ty_of, value_of};

use std::alloc::Global;
use value_types::{Chain, Leaf, OutOfMemory, Seq, Tree, Ty, Value, bare, is_nullable};

/// The first type; `text`, which is String, where there is none.
pub fn first_type<'a>(types: &'a [Ty], text: &'a Ty) -> &'a Ty
    requires { ty_of text.now ≡ Str }
    ensures { ty_of result.now ≡ types_in.first_type (map ty_of types.now) }
{
    match types {
        [] => text,
        [first, ..] => first,
    }
}

/// Whether some argument may be NULL.
pub fn any_nullable(types: &[Ty]) -> bool
    ensures { result ≡ types_in.any_null (map ty_of types.now) }
{
    match types {
        [] => false,
        [first, rest @ ..] => is_nullable(first) || any_nullable(rest),
    }
}

/// The state of no rows of a function.
fn blank_leaf(alloc: Global, leaf: &Leaf) -> Tree
    ensures { tree_of result ≡ results.leaf_blank (leaf_of leaf.now) }
{
    match leaf {
        Leaf::GroupArray(_) => Tree::Values(Seq::new(alloc)),
        Leaf::QuantileExact(_) => Tree::Values(Seq::new(alloc)),
        Leaf::UniqExact => Tree::Rows(Seq::new(alloc)),
        _ => Tree::Empty,
    }
}

/// How many intervals Resample has.
pub fn intervals(start: i64, end: i64, step: u64) -> u128
    ensures { result ≡ types_in.intervals start end step }
{
    if step == 0 {
        return 0;
    }
    (u128::from(end.abs_diff(start)) + u128::from(step - 1)) / u128::from(step)
}

/// So many copies of a tree.
fn copies(alloc: Global, count: u128, tree: &Tree) -> Result<Seq<Tree>, OutOfMemory>
    ensures { IfOk result (λ all. map tree_of all ≡ replicate count (tree_of tree.now)) }
{
    let mut all = Seq::new(alloc);
    for copied in 0..count {
        all.push(tree.copy(alloc)?)?;
    }
    Ok(all)
}

/// The state of no rows of a chain.
///
/// # Errors
///
/// [`OutOfMemory`] where there is no room for it.
pub fn blank_of(alloc: Global, chain: &Chain) -> Result<Tree, OutOfMemory>
    ensures { IfOk result (λ tree. tree_of tree ≡ results.blank (chain_of chain.now)) }
{
    match chain {
        Chain::Leaf(leaf) => Ok(blank_leaf(alloc, leaf)),
        Chain::If(of) => blank_of(alloc, of.get()),
        Chain::Array(of) => blank_of(alloc, of.get()),
        Chain::OrNull(of) => blank_of(alloc, of.get()),
        Chain::OrDefault(of) => blank_of(alloc, of.get()),
        Chain::State(of) => blank_of(alloc, of.get()),
        Chain::Merge(of) => blank_of(alloc, of.get()),
        Chain::MapOf(_) => Ok(Tree::Keyed(Seq::new(alloc))),
        Chain::ForEach(_) => Ok(Tree::Slots(Seq::new(alloc))),
        Chain::Distinct(_) => Ok(Tree::Rows(Seq::new(alloc))),
        Chain::Resample(start, end, step, of) => {
            let blank = blank_of(alloc, of.get())?;
            let count = intervals(*start, *end, *step);
            Ok(Tree::Slots(copies(alloc, count, &blank)?))
        }
    }
}

/// The default of a type.
///
/// # Errors
///
/// [`OutOfMemory`] where there is no room for it.
pub fn default_of(alloc: Global, ty: &Ty) -> Result<Value, OutOfMemory>
    ensures { IfOk result (λ value. value_of value ≡ results.default (ty_of ty.now)) }
{
    match ty {
        Ty::Str => Ok(Value::Bytes(Seq::new(alloc))),
        Ty::Arr(_) => Ok(Value::List(Seq::new(alloc))),
        Ty::Map(_, _) => Ok(Value::Pairs(Seq::new(alloc))),
        Ty::Nullable(_) => Ok(Value::Nil),
        Ty::State(chain, _) => Ok(Value::Cell(blank_of(alloc, chain.get())?)),
        _ => Ok(Value::Num(0)),
    }
}

/// NULL where an argument may be NULL, else the default of the first argument's type.
fn nothing_of_first(alloc: Global, types: &[Ty]) -> Result<Value, OutOfMemory>
    ensures { IfOk result (λ value. value_of value ≡ results.default (results.nullable_if (types_in.any_null (map ty_of types.now)) (types_in.bare (types_in.first_type (map ty_of types.now))))) }
{
    if any_nullable(types) {
        return Ok(Value::Nil);
    }
    let text = Ty::Str;
    default_of(alloc, bare(first_type(types, &text)))
}

/// The default of a sum's type.
#[tactic(auto, using(crate::proofs::SumDefaults::sum_default))]
fn nothing_of_sum(types: &[Ty]) -> Value
    ensures { value_of result ≡ results.default (results.leaf_result (leaf_of Leaf.Sum) (map ty_of types.now)) }
{
    if any_nullable(types) {
        Value::Nil
    } else {
        Value::Num(0)
    }
}

/// The default of a function's result type.
///
/// # Errors
///
/// [`OutOfMemory`] where there is no room for it.
pub fn nothing_of(alloc: Global, leaf: &Leaf, types: &[Ty]) -> Result<Value, OutOfMemory>
    ensures { IfOk result (λ value. value_of value ≡ results.default (results.leaf_result (leaf_of leaf.now) (map ty_of types.now))) }
{
    match leaf {
        Leaf::Count | Leaf::UniqExact => Ok(Value::Num(0)),
        Leaf::WindowFunnel(_, _) | Leaf::SequenceMatch(_) => Ok(Value::Num(0)),
        Leaf::GroupArray(_) | Leaf::Retention => Ok(Value::List(Seq::new(alloc))),
        Leaf::Sum => Ok(nothing_of_sum(types)),
        Leaf::Min | Leaf::Max | Leaf::ArgMin | Leaf::ArgMax => nothing_of_first(alloc, types),
        Leaf::BitAnd | Leaf::BitOr | Leaf::BitXor => nothing_of_first(alloc, types),
        Leaf::QuantileExact(_) => nothing_of_first(alloc, types),
    }
}
