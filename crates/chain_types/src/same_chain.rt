//! Whether two chains are the same, link by link and parameter by parameter.
ghost use Rattle.agg_typing.specs.Same as same;
ghost use Rattle.std.specs.Prelude.{◌≡◌, map};
ghost use Rattle.value_types.specs.Folds.{chain_of, item_of, leaf_of, link_of, op_of, pattern_of};

use value_types::{Chain, Leaf, Op, PatItem, PatLink, Pattern};

fn same_op(a: Op, b: Op) -> bool
    ensures { result ≡ same.same_op (op_of a) (op_of b) }
{
    match (a, b) {
        (Op::Less, Op::Less) => true,
        (Op::LessEq, Op::LessEq) => true,
        (Op::Equal, Op::Equal) => true,
        (Op::GreaterEq, Op::GreaterEq) => true,
        (Op::Greater, Op::Greater) => true,
        _ => false,
    }
}

fn same_item(a: PatItem, b: PatItem) -> bool
    ensures { result ≡ same.same_item (item_of a) (item_of b) }
{
    match (a, b) {
        (PatItem::Cond(i), PatItem::Cond(j)) => i == j,
        (PatItem::Any, PatItem::Any) => true,
        _ => false,
    }
}

fn same_link(a: PatLink, b: PatLink) -> bool
    ensures { result ≡ same.same_link (link_of a) (link_of b) }
{
    match (a, b) {
        (PatLink::Next, PatLink::Next) => true,
        (PatLink::Gap, PatLink::Gap) => true,
        (PatLink::Time(o, i), PatLink::Time(p, j)) => same_op(o, p) && i == j,
        _ => false,
    }
}

fn same_items(a: &[PatItem], b: &[PatItem]) -> bool
    ensures { result ≡ same.same_list same.same_item (map item_of a.now) (map item_of b.now) }
{
    match a {
        [] => match b {
            [] => true,
            _ => false,
        },
        [x, xs @ ..] => match b {
            [] => false,
            [y, ys @ ..] => same_item(*x, *y) && same_items(xs, ys),
        },
    }
}

fn same_links(a: &[PatLink], b: &[PatLink]) -> bool
    ensures { result ≡ same.same_list same.same_link (map link_of a.now) (map link_of b.now) }
{
    match a {
        [] => match b {
            [] => true,
            _ => false,
        },
        [x, xs @ ..] => match b {
            [] => false,
            [y, ys @ ..] => same_link(*x, *y) && same_links(xs, ys),
        },
    }
}

fn same_pattern(a: &Pattern, b: &Pattern) -> bool
    ensures { result ≡ same.same_pattern (pattern_of a.now) (pattern_of b.now) }
{
    same_items(a.items.as_slice(), b.items.as_slice())
        && same_links(a.links.as_slice(), b.links.as_slice())
}

fn same_most(a: Option<u32>, b: Option<u32>) -> bool
    ensures { result ≡ same.same_most a b }
{
    match a {
        None => match b {
            None => true,
            Some(_) => false,
        },
        Some(m) => match b {
            None => false,
            Some(n) => m == n,
        },
    }
}

fn same_bool(a: bool, b: bool) -> bool
    ensures { result ≡ same.same_bool a b }
{
    if a { b } else { !b }
}

fn same_int(a: i64, b: i64) -> bool
    ensures { result ≡ same.same_int a b }
{
    a <= b && b <= a
}

fn same_leaf(a: &Leaf, b: &Leaf) -> bool
    ensures { result ≡ same.same_leaf (leaf_of a.now) (leaf_of b.now) }
{
    match a {
        Leaf::Count => matches!(b, Leaf::Count),
        Leaf::Sum => matches!(b, Leaf::Sum),
        Leaf::Min => matches!(b, Leaf::Min),
        Leaf::Max => matches!(b, Leaf::Max),
        Leaf::ArgMin => matches!(b, Leaf::ArgMin),
        Leaf::ArgMax => matches!(b, Leaf::ArgMax),
        Leaf::BitAnd => matches!(b, Leaf::BitAnd),
        Leaf::BitOr => matches!(b, Leaf::BitOr),
        Leaf::BitXor => matches!(b, Leaf::BitXor),
        Leaf::UniqExact => matches!(b, Leaf::UniqExact),
        Leaf::Retention => matches!(b, Leaf::Retention),
        Leaf::GroupArray(m) => match b {
            Leaf::GroupArray(n) => same_most(*m, *n),
            _ => false,
        },
        Leaf::QuantileExact(l) => match b {
            Leaf::QuantileExact(m) => *l == *m,
            _ => false,
        },
        Leaf::WindowFunnel(w, s) => match b {
            Leaf::WindowFunnel(v, t) => *w == *v && same_bool(*s, *t),
            _ => false,
        },
        Leaf::SequenceMatch(p) => match b {
            Leaf::SequenceMatch(q) => same_pattern(p, q),
            _ => false,
        },
    }
}

/// Whether two chains are the same.
pub fn same_chain(a: &Chain, b: &Chain) -> bool
    ensures { result ≡ same.same_chain (chain_of a.now) (chain_of b.now) }
{
    match a {
        Chain::Leaf(f) => match b {
            Chain::Leaf(g) => same_leaf(f, g),
            _ => false,
        },
        Chain::If(c) => match b {
            Chain::If(d) => same_chain(c.get(), d.get()),
            _ => false,
        },
        Chain::Array(c) => match b {
            Chain::Array(d) => same_chain(c.get(), d.get()),
            _ => false,
        },
        Chain::MapOf(c) => match b {
            Chain::MapOf(d) => same_chain(c.get(), d.get()),
            _ => false,
        },
        Chain::ForEach(c) => match b {
            Chain::ForEach(d) => same_chain(c.get(), d.get()),
            _ => false,
        },
        Chain::OrNull(c) => match b {
            Chain::OrNull(d) => same_chain(c.get(), d.get()),
            _ => false,
        },
        Chain::OrDefault(c) => match b {
            Chain::OrDefault(d) => same_chain(c.get(), d.get()),
            _ => false,
        },
        Chain::Distinct(c) => match b {
            Chain::Distinct(d) => same_chain(c.get(), d.get()),
            _ => false,
        },
        Chain::State(c) => match b {
            Chain::State(d) => same_chain(c.get(), d.get()),
            _ => false,
        },
        Chain::Merge(c) => match b {
            Chain::Merge(d) => same_chain(c.get(), d.get()),
            _ => false,
        },
        Chain::Resample(s, e, k, c) => match b {
            Chain::Resample(t, f, l, d) => {
                same_int(*s, *t) && (same_int(*e, *f) && (*k == *l && same_chain(c.get(), d.get())))
            }
            _ => false,
        },
    }
}
