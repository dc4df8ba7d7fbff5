//! The states of functions at the front of the bytes.
ghost use Rattle.std.specs.Prelude.{◌≡◌, map, [], false, true, Ok, Some};
ghost use Rattle.agg_terms.specs.Order as order;
ghost use Rattle.agg_terms.specs.Trees.{one_tree};
ghost use Rattle.agg_terms.specs.Types.{first_type};
ghost use Rattle.state_texts.specs.declared.version.Version.TheVariants.{One};
ghost use Rattle.agg_terms.specs.Values.{Word, tuple_tree, values_tree};
ghost use Rattle.agg_values.specs.Peels.{peeled_types};
ghost use Rattle.value_types.specs.Folds.{leaf_of, tree_of, ty_of, value_of};
ghost use Rattle.state_codec.specs.Reading.{flag_at, holds_up, items_at, kept_at, leaf_at, list_at, made, or_empty, quantile_at, row_at, up_to, value_at, one_at, word_at};
ghost use Rattle.state_codec.specs.Gives.{Gives};
ghost use Rattle.state_codec.specs.proving.Views.{behind};

use crate::DecodeFault;
use crate::events::{events_at, retention_at};
use crate::rows::{set_at, tuple_at};
use crate::source::{Source, i64_at, place_of, tag_of, u64_at};
use crate::values::{least_bytes, room, value_at, values_at, with_room};
use agg_values::{Peels, compare, first_type};
use scalar_texts::StateFault;
use state_texts::Version;
use std::alloc::Global;
use value_types::{Leaf, Seq, Tree, Ty, Value, bare, is_signed};

#[tactic(auto, unfolding(crate::specs::Reading::flag_at))]
fn signed_word_at(whole: usize, bytes: &[u8]) -> Result<(Tree, &[u8]), DecodeFault>
    ensures { Gives (λ x. (tree_of x.0, x.1.now)) result (made (or_empty Word) (flag_at whole (word_at true) bytes.now)) }
{
    let (is_some, rest) = tag_of(whole, bytes)?;
    if !is_some {
        return Ok((Tree::Empty, rest));
    }
    let (word, rest) = i64_at(rest)?;
    Ok((Tree::Word(word as i128), rest))
}

#[tactic(auto, unfolding(crate::specs::Reading::flag_at))]
fn whole_word_at(whole: usize, bytes: &[u8]) -> Result<(Tree, &[u8]), DecodeFault>
    ensures { Gives (λ x. (tree_of x.0, x.1.now)) result (made (or_empty Word) (flag_at whole (word_at false) bytes.now)) }
{
    let (is_some, rest) = tag_of(whole, bytes)?;
    if !is_some {
        return Ok((Tree::Empty, rest));
    }
    let (word, rest) = u64_at(rest)?;
    Ok((Tree::Word(word as i128), rest))
}

/// The state of sum, over numbers with a sign or without.
fn word_at(signed: bool, whole: usize, bytes: &[u8]) -> Result<(Tree, &[u8]), DecodeFault>
    ensures { Gives (λ x. (tree_of x.0, x.1.now)) result (made (or_empty Word) (flag_at whole (word_at signed) bytes.now)) }
{
    if signed {
        signed_word_at(whole, bytes)
    } else {
        whole_word_at(whole, bytes)
    }
}

/// The tree of one value: a number is a word, another value a tuple.
fn one_tree(alloc: Global, value: Value) -> Result<Tree, DecodeFault>
    ensures { Gives tree_of result (Ok (one_tree (Some (value_of value)))) }
{
    match value {
        Value::Num(number) => Ok(Tree::Word(number)),
        _ => {
            let mut items = with_room(alloc, 1);
            items.push(value)?;
            Ok(Tree::Tuple(items))
        }
    }
}

/// The state of the functions that keep one value of the type.
#[tactic(auto, unfolding(crate::specs::Reading::flag_at))]
fn one_at<'b>(
    ty: &Ty,
    alloc: Global,
    whole: usize,
    bytes: &'b [u8],
) -> Result<(Tree, &'b [u8]), DecodeFault>
    ensures { Gives (λ x. (tree_of x.0, x.1.now)) result (one_at whole (ty_of ty.now) bytes.now) }
{
    let (is_some, rest) = tag_of(whole, bytes)?;
    if !is_some {
        return Ok((Tree::Empty, rest));
    }
    let (value, rest) = value_at(ty, alloc, whole, rest)?;
    Ok((one_tree(alloc, value)?, rest))
}

/// The state of the functions that keep a tuple.
#[tactic(auto, unfolding(crate::specs::Reading::flag_at))]
fn pair_at<'b>(
    types: &[Ty],
    peels: &Peels<'_>,
    alloc: Global,
    whole: usize,
    bytes: &'b [u8],
) -> Result<(Tree, &'b [u8]), DecodeFault>
    ensures { Gives (λ x. (tree_of x.0, x.1.now)) result (made (or_empty tuple_tree) (flag_at whole (row_at whole (peeled_types peels.now types.now)) bytes.now)) }
{
    let (is_some, rest) = tag_of(whole, bytes)?;
    if !is_some {
        return Ok((Tree::Empty, rest));
    }
    let (row, rest) = tuple_at(types, peels, alloc, whole, rest)?;
    Ok((Tree::Tuple(row), rest))
}

fn is_up_to(most: &Option<u32>, count: u64) -> bool
    ensures { result ≡ up_to most.now count }
{
    match most {
        None => true,
        Some(most) => count <= u64::from(*most),
    }
}

/// The state of groupArray: its length is judged before any value.
#[tactic(auto, unfolding(crate::specs::Reading::list_at, crate::specs::Reading::kept_at))]
fn group_at<'b>(
    ty: &Ty,
    most: &Option<u32>,
    alloc: Global,
    whole: usize,
    bytes: &'b [u8],
) -> Result<(Tree, &'b [u8]), DecodeFault>
    ensures { Gives (λ x. (tree_of x.0, x.1.now)) result (made values_tree (list_at whole (up_to most.now) (λ earlier. value_at whole (ty_of ty.now)) bytes.now)) }
{
    let (count, rest) = u64_at(bytes)?;
    if !is_up_to(most, count) {
        return Err(DecodeFault::Bad(StateFault::NotCanonical(place_of(whole, bytes))));
    }
    let (items, rest) = values_at(ty, alloc, whole, count, rest)?;
    Ok((Tree::Values(items), rest))
}

/// Whether the value is not below the last of those before it.
#[tactic(auto, using(crate::proofs::Last::last_laws))]
fn is_not_below(earlier: &[Value], value: &Value) -> bool
    ensures { result ≡ holds_up order.compare (behind (map value_of earlier.now)) (value_of value.now) }
{
    match earlier.split_last() {
        Some((last, _)) => compare(last, value).is_le(),
        None => true,
    }
}

/// A value that is not below the last of those before it.
#[tactic(auto, unfolding(crate::specs::Reading::kept_at))]
fn next_value_at<'b>(
    ty: &Ty,
    alloc: Global,
    earlier: &Seq<Value>,
    whole: usize,
    bytes: &'b [u8],
) -> Result<(Value, &'b [u8]), DecodeFault>
    ensures { Gives (λ x. (value_of x.0, x.1.now)) result
        (kept_at whole (holds_up order.compare (behind (map value_of earlier.now))) (value_at whole (ty_of ty.now)) bytes.now) }
{
    let (value, rest) = value_at(ty, alloc, whole, bytes)?;
    if !is_not_below(earlier.as_slice(), &value) {
        return Err(DecodeFault::Bad(StateFault::NotCanonical(place_of(whole, bytes))));
    }
    Ok((value, rest))
}

/// So many values, none below the one before it.
fn ascending_at<'b>(
    ty: &Ty,
    alloc: Global,
    whole: usize,
    count: u64,
    bytes: &'b [u8],
) -> Result<(Seq<Value>, &'b [u8]), DecodeFault>
    ensures { Gives (λ x. (map value_of x.0, x.1.now)) result
        (items_at (λ earlier. kept_at whole (holds_up order.compare earlier) (value_at whole (ty_of ty.now))) count [] bytes.now) }
{
    let mut items = with_room(alloc, room(u128::from(count), bytes, least_bytes(ty)));
    let mut rest = bytes;
    for _ in 0..count {
        let (value, after) = next_value_at(ty, alloc, &items, whole, rest)?;
        items.push(value)?;
        rest = after;
    }
    Ok((items, rest))
}

/// The state of quantileExact in version 1.
#[tactic(auto, unfolding(crate::specs::Reading::list_at, crate::specs::Reading::kept_at))]
fn first_quantile_at<'b>(
    ty: &Ty,
    alloc: Global,
    whole: usize,
    bytes: &'b [u8],
) -> Result<(Tree, &'b [u8]), DecodeFault>
    ensures { Gives (λ x. (tree_of x.0, x.1.now)) result (quantile_at One whole (ty_of ty.now) bytes.now) }
{
    let (count, rest) = u64_at(bytes)?;
    let (items, rest) = ascending_at(ty, alloc, whole, count, rest)?;
    Ok((Tree::Values(items), rest))
}

/// The state of quantileExact.
fn quantile_of<'b>(ty: &Ty, from: Source, bytes: &'b [u8]) -> Result<(Tree, &'b [u8]), DecodeFault>
    ensures { Gives (λ x. (tree_of x.0, x.1.now)) result (quantile_at from.version from.whole (ty_of ty.now) bytes.now) }
{
    match from.version {
        Version::One => first_quantile_at(ty, from.alloc, from.whole, bytes),
    }
}

/// The state of a function over these types, of which the first is lent apart.
fn leaf_over<'b>(
    leaf: &Leaf,
    first: &Ty,
    types: &[Ty],
    peels: &Peels<'_>,
    from: Source,
    bytes: &'b [u8],
) -> Result<(Tree, &'b [u8]), DecodeFault>
    requires { ty_of first.now ≡ first_type (peeled_types peels.now types.now) }
    ensures { Gives (λ x. (tree_of x.0, x.1.now)) result (leaf_at from.version from.whole (leaf_of leaf.now) (peeled_types peels.now types.now) bytes.now) }
{
    let (alloc, whole) = (from.alloc, from.whole);
    match leaf {
        Leaf::Count => word_at(false, whole, bytes),
        Leaf::Sum => word_at(is_signed(first), whole, bytes),
        Leaf::Min | Leaf::Max => one_at(bare(first), alloc, whole, bytes),
        Leaf::ArgMin | Leaf::ArgMax => pair_at(types, peels, alloc, whole, bytes),
        Leaf::BitAnd | Leaf::BitOr | Leaf::BitXor => one_at(bare(first), alloc, whole, bytes),
        Leaf::GroupArray(most) => group_at(bare(first), most, alloc, whole, bytes),
        Leaf::UniqExact => set_at(types, peels, alloc, whole, bytes),
        Leaf::QuantileExact(_) => quantile_of(bare(first), from, bytes),
        Leaf::WindowFunnel(_, _) | Leaf::SequenceMatch(_) => {
            events_at(types.len().saturating_sub(1), alloc, whole, bytes)
        }
        Leaf::Retention => retention_at(types.len(), whole, bytes),
    }
}

/// The state of a function over these types.
pub(crate) fn leaf_at<'b>(
    leaf: &Leaf,
    types: &[Ty],
    peels: &Peels<'_>,
    from: Source,
    bytes: &'b [u8],
) -> Result<(Tree, &'b [u8]), DecodeFault>
    ensures { Gives (λ x. (tree_of x.0, x.1.now)) result (leaf_at from.version from.whole (leaf_of leaf.now) (peeled_types peels.now types.now) bytes.now) }
{
    let text = Ty::Str;
    leaf_over(
        leaf,
        first_type(types, peels, &text),
        types,
        peels,
        from,
        bytes,
    )
}

/// The fewest bytes that the state of a function has.
pub(crate) fn least_leaf_bytes(leaf: &Leaf) -> usize {
    match leaf {
        Leaf::GroupArray(_) | Leaf::UniqExact | Leaf::QuantileExact(_) => 8,
        _ => 1,
    }
}
