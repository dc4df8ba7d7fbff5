//! What is kept of the best row as a tree, read from one, and as a result.
ghost use Rattle.std.specs.Prelude.{◌≡◌, IfOk, Some, map};
ghost use Rattle.agg_terms.specs.Trees as terms;
ghost use Rattle.agg_meaning.specs.Results.{default, nullable_if};
ghost use Rattle.value_types.specs.Folds.{tree_of, value_of};
ghost use Rattle.best_leaves.specs.Best.{kept_tree, kept_value, lone_kept, one_kept as kept_of_one, pair_kept as kept_of_two, pair_of, pairs, tree_kept, two_kept};
ghost use Rattle.best_leaves.specs.Made.{kind_ty};

use crate::best::Best;
use crate::function::Function;
use crate::kind::default_of;
use crate::made::Made;
use std::alloc::Global;
use value_types::{OutOfMemory, Seq, Tree, Value};

/// The tree of one value: a number is a word, another value a tuple of it.
#[tactic(auto, using(value_types::proofs::FoldLaws::value_laws, value_types::proofs::FoldLaws::tree_laws, crate::proofs::Trees::one_laws))]
fn one_tree(alloc: Global, value: &Value) -> Result<Tree, OutOfMemory>
    ensures { IfOk result (λ tree. tree_of tree ≡ terms.one_tree (Some (value_of value.now))) }
{
    match value {
        Value::Num(number) => Ok(Tree::Word(*number)),
        _ => {
            let mut values = Seq::new(alloc);
            values.push(value.copy(alloc)?)?;
            Ok(Tree::Tuple(values))
        }
    }
}

/// The tree of two values.
#[tactic(auto, using(value_types::proofs::FoldLaws::tree_laws))]
fn pair_tree(alloc: Global, best: &Best) -> Result<Tree, OutOfMemory>
    ensures { IfOk result (λ tree. tree_of tree ≡ terms.pair_tree (Some (pair_of best.now))) }
{
    let mut values = Seq::new(alloc);
    values.push(best.beside.copy(alloc)?)?;
    values.push(best.compared.copy(alloc)?)?;
    Ok(Tree::Tuple(values))
}

/// The tree of what is kept.
///
/// # Errors
///
/// [`OutOfMemory`] where there is no room for it.
#[tactic(auto, using(value_types::proofs::FoldLaws::tree_laws))]
pub fn tree_with(
    alloc: Global,
    function: Function,
    kept: &Option<Best>,
) -> Result<Tree, OutOfMemory>
    ensures { IfOk result (λ tree. tree_of tree ≡ kept_tree function (pairs kept.now)) }
{
    match kept {
        None => Ok(Tree::Empty),
        Some(best) => match function {
            Function::Min | Function::Max => one_tree(alloc, &best.compared),
            Function::ArgMin | Function::ArgMax => pair_tree(alloc, best),
        },
    }
}

/// What one value keeps; of more or fewer, nothing.
#[tactic(auto, using(value_types::proofs::FoldLaws::value_laws))]
fn kept_of_lone(alloc: Global, values: &[Value]) -> Result<Option<Best>, OutOfMemory>
    ensures { IfOk result (λ kept. pairs kept ≡ lone_kept (map value_of values.now)) }
{
    match values {
        [value] => {
            let compared = value.copy(alloc)?;
            Ok(Some(Best {
                beside: Value::Nil,
                compared,
            }))
        }
        _ => Ok(None),
    }
}

/// What the tree of one value keeps.
#[tactic(auto, using(value_types::proofs::FoldLaws::value_laws, value_types::proofs::FoldLaws::tree_laws))]
fn one_kept(alloc: Global, tree: &Tree) -> Result<Option<Best>, OutOfMemory>
    ensures { IfOk result (λ kept. pairs kept ≡ kept_of_one (tree_of tree.now)) }
{
    match tree {
        Tree::Word(number) => Ok(Some(Best {
            beside: Value::Nil,
            compared: Value::Num(*number),
        })),
        Tree::Tuple(values) => kept_of_lone(alloc, values.as_slice()),
        _ => Ok(None),
    }
}

/// What two values keep; of more or fewer, nothing.
fn kept_of_pair(alloc: Global, values: &[Value]) -> Result<Option<Best>, OutOfMemory>
    ensures { IfOk result (λ kept. pairs kept ≡ two_kept (map value_of values.now)) }
{
    match values {
        [beside, compared] => {
            let beside = beside.copy(alloc)?;
            let compared = compared.copy(alloc)?;
            Ok(Some(Best { beside, compared }))
        }
        _ => Ok(None),
    }
}

/// What the tree of two values keeps.
#[tactic(auto, using(value_types::proofs::FoldLaws::tree_laws))]
fn pair_kept(alloc: Global, tree: &Tree) -> Result<Option<Best>, OutOfMemory>
    ensures { IfOk result (λ kept. pairs kept ≡ kept_of_two (tree_of tree.now)) }
{
    match tree {
        Tree::Tuple(values) => kept_of_pair(alloc, values.as_slice()),
        _ => Ok(None),
    }
}

/// What is kept in a tree; nothing in one that is none of the function.
///
/// # Errors
///
/// [`OutOfMemory`] where there is no room for it.
pub fn kept_from(
    alloc: Global,
    function: Function,
    tree: &Tree,
) -> Result<Option<Best>, OutOfMemory>
    ensures { IfOk result (λ kept. pairs kept ≡ tree_kept function (tree_of tree.now)) }
{
    match function {
        Function::Min | Function::Max => one_kept(alloc, tree),
        Function::ArgMin | Function::ArgMax => pair_kept(alloc, tree),
    }
}

/// The value over no rows: NULL where the result is Nullable, else 0 or the empty string.
/// (ClickHouse manual: "Aggregate functions reference". What stands for no rows is this project's own choice.)
#[tactic(auto, using(value_types::proofs::FoldLaws::value_laws))]
fn value_of_none(alloc: Global, made: Made) -> Value
    ensures { value_of result ≡ default (nullable_if made.nullable (kind_ty made.kind)) }
{
    if made.nullable {
        Value::Nil
    } else {
        default_of(alloc, made.kind)
    }
}

/// The function's value.
///
/// # Errors
///
/// [`OutOfMemory`] where there is no room for it.
pub fn value_with(alloc: Global, made: Made, kept: &Option<Best>) -> Result<Value, OutOfMemory>
    ensures { IfOk result (λ v. value_of v ≡ kept_value made.function (default (nullable_if made.nullable (kind_ty made.kind))) (pairs kept.now)) }
{
    match kept {
        None => Ok(value_of_none(alloc, made)),
        Some(best) => match made.function {
            Function::Min | Function::Max => best.compared.copy(alloc),
            Function::ArgMin | Function::ArgMax => best.beside.copy(alloc),
        },
    }
}
