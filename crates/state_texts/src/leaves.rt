//! The states of functions as bytes.
ghost use Rattle.std.specs.Prelude.{◌≡◌, ◌≤◌, ◌++◌, map, OnOk};
ghost use Rattle.agg_terms.specs.Values as family;
ghost use Rattle.agg_values.specs.Peels.{peeled_types};
ghost use Rattle.value_types.specs.Folds.{event_of, leaf_of, tree_of, ty_of, value_of};
ghost use Rattle.state_texts.specs.Figures.{number_text};
ghost use Rattle.state_texts.specs.Texts.{event_text, events_of, flag_text, leaf_text, list_text, one_of, quantile_text, row_of, row_text, value_text, word_of};

use crate::Version;
use crate::numbers::{put_count, put_mask, put_number};
use crate::values::{put_row, put_rows, put_value, put_values};
use agg_values::{Peels, first_type};
use value_types::{Event, Leaf, OutOfMemory, Seq, Tree, Ty, Value, bare};

#[tactic(auto, using(crate::proofs::Written::tree_kinds))]
fn values_in(tree: &Tree) -> &[Value]
    ensures { map value_of result.now ≡ family.values_of (tree_of tree.now) }
{
    match tree {
        Tree::Values(values) => values.as_slice(),
        _ => &[],
    }
}

#[tactic(auto, using(crate::proofs::Written::tree_kinds))]
pub(crate) fn rows_in(tree: &Tree) -> &[Seq<Value>]
    ensures { map (map value_of) result.now ≡ family.rows_of (tree_of tree.now) }
{
    match tree {
        Tree::Rows(rows) => rows.as_slice(),
        _ => &[],
    }
}

/// A number in so many bytes behind 01, or 00 where there is none.
#[tactic(auto, using(crate::proofs::Written::tree_kinds))]
fn put_word(tree: &Tree, width: usize, out: &mut Vec<u8>) -> Result<(), OutOfMemory>
    requires { width ≤ 16 }
    ensures { OnOk result (out.new.items ≡ out.old.items ++ flag_text (number_text width) (word_of (tree_of tree.now))) }
{
    match tree {
        Tree::Word(word) => {
            out.push(1)?;
            put_number(*word, width, out)
        }
        _ => {
            out.push(0)?;
            Ok(())
        }
    }
}

/// A value of the type behind 01, or 00 where there is none.
#[tactic(auto, using(crate::proofs::Written::tree_kinds))]
fn put_one(ty: &Ty, tree: &Tree, out: &mut Vec<u8>) -> Result<(), OutOfMemory>
    ensures { OnOk result (out.new.items ≡ out.old.items ++ flag_text (value_text (ty_of ty.now)) (one_of (tree_of tree.now))) }
{
    match tree {
        Tree::Word(word) => {
            out.push(1)?;
            put_value(ty, &Value::Num(*word), out)
        }
        Tree::Tuple(values) => match values.as_slice() {
            [value, ..] => {
                out.push(1)?;
                put_value(ty, value, out)
            }
            [] => {
                out.push(0)?;
                Ok(())
            }
        },
        _ => {
            out.push(0)?;
            Ok(())
        }
    }
}

/// A tuple behind 01, or 00 where there is none.
#[tactic(auto, using(crate::proofs::Written::tree_kinds))]
fn put_tuple(
    types: &[Ty],
    peels: &Peels<'_>,
    tree: &Tree,
    out: &mut Vec<u8>,
) -> Result<(), OutOfMemory>
    ensures { OnOk result (out.new.items ≡ out.old.items ++ flag_text (row_text (peeled_types peels.now types.now)) (row_of (tree_of tree.now))) }
{
    match tree {
        Tree::Tuple(values) => {
            out.push(1)?;
            put_row(types, peels, values.as_slice(), out)
        }
        _ => {
            out.push(0)?;
            Ok(())
        }
    }
}

fn put_event(event: &Event, out: &mut Vec<u8>) -> Result<(), OutOfMemory>
    ensures { OnOk result (out.new.items ≡ out.old.items ++ event_text (event_of event.now)) }
{
    put_count(event.time, out)?;
    put_mask(event.mask, out)
}

fn put_all_events(events: &[Event], out: &mut Vec<u8>) -> Result<(), OutOfMemory>
    ensures { OnOk result (out.new.items ≡ out.old.items ++ list_text event_text (map event_of events.now)) }
{
    put_count(events.len() as u64, out)?;
    for event in events {
        put_event(event, out)?;
    }
    Ok(())
}

/// Events behind 01, or 00 where no rows were fed.
#[tactic(auto, using(crate::proofs::Written::tree_kinds))]
fn put_events(tree: &Tree, out: &mut Vec<u8>) -> Result<(), OutOfMemory>
    ensures { OnOk result (out.new.items ≡ out.old.items ++ flag_text (list_text event_text) (events_of (tree_of tree.now))) }
{
    match tree {
        Tree::Events(events) => {
            out.push(1)?;
            put_all_events(events.as_slice(), out)
        }
        _ => {
            out.push(0)?;
            Ok(())
        }
    }
}

fn put_quantile(
    version: Version,
    ty: &Ty,
    tree: &Tree,
    out: &mut Vec<u8>,
) -> Result<(), OutOfMemory>
    ensures { OnOk result (out.new.items ≡ out.old.items ++ quantile_text version (ty_of ty.now) (tree_of tree.now)) }
{
    match version {
        Version::One => put_values(ty, values_in(tree), out),
    }
}

/// The state of a function over these types.
pub(crate) fn put_leaf(
    leaf: &Leaf,
    types: &[Ty],
    peels: &Peels<'_>,
    version: Version,
    tree: &Tree,
    out: &mut Vec<u8>,
) -> Result<(), OutOfMemory>
    ensures { OnOk result (out.new.items ≡ out.old.items ++ leaf_text version (leaf_of leaf.now) (peeled_types peels.now types.now) (tree_of tree.now)) }
{
    let text = Ty::Str;
    let first = bare(first_type(types, peels, &text));
    match leaf {
        Leaf::Count | Leaf::Sum => put_word(tree, 8, out),
        Leaf::Min | Leaf::Max => put_one(first, tree, out),
        Leaf::ArgMin | Leaf::ArgMax => put_tuple(types, peels, tree, out),
        Leaf::BitAnd | Leaf::BitOr | Leaf::BitXor => put_one(first, tree, out),
        Leaf::GroupArray(_) => put_values(first, values_in(tree), out),
        Leaf::UniqExact => put_rows(types, peels, rows_in(tree), out),
        Leaf::QuantileExact(_) => put_quantile(version, first, tree, out),
        Leaf::WindowFunnel(_, _) | Leaf::SequenceMatch(_) => put_events(tree, out),
        Leaf::Retention => put_word(tree, 4, out),
    }
}
