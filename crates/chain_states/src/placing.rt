//! Rows of columns fed to states by their places: the chain is judged once, then one loop.
ghost use Rattle.std.specs.Prelude.{◌≡◌, ◌<◌, ◌≤◌, ◌-◌, ◌++◌, ◌∷◌, [], false, true, All, length, map, IfOk, IfSome, IsTrue, OnOk};
ghost use Rattle.agg_terms.specs.Chains.{If};
ghost use Rattle.agg_terms.specs.Lists.{Each};
ghost use Rattle.agg_meaning.specs.Lawful.{IsSound};
ghost use Rattle.agg_typing.specs.Legal.{function_of};
ghost use Rattle.value_types.specs.Folds.{chain_of, ty_of};
ghost use Rattle.running_states.specs.Served.{is_served};
ghost use Rattle.chain_states.specs.Calls.{AddsFresh, IsStateOf, TakeByPlace, argument_rows};
ghost use Rattle.chain_states.specs.proving.Places.{AreStates, FeedsAt, IsConditions, IsFedAs, row_of, rows_from, with_condition, with_if};

use crate::function_places::feed_few;
use crate::lending::feed_lent;
use crate::ready::ReadyCall;
use crate::state::State;
use std::alloc::Global;
use typed_columns::Column;
use value_types::{Chain, OutOfMemory, Ty};

/// The chain inside of suffixes that keep what it keeps and take rows as it does.
#[tactic(auto, using(crate::proofs::Inside::as_itself))]
fn inside(chain: &Chain) -> &Chain
    ensures { IsFedAs (chain_of chain.now) (chain_of result.now) }
{
    match chain {
        Chain::OrNull(of) => inside(of.get()),
        Chain::OrDefault(of) => inside(of.get()),
        Chain::State(of) => inside(of.get()),
        _ => chain,
    }
}

/// Feeds rows to states of a chain, but for those left out, by the loop that its function and its arguments ask for.
#[tactic(auto, using(value_types::proofs::FoldLaws::chain_laws))]
fn feed_kept(
    chain: &Chain,
    alloc: Global,
    types: &[Ty],
    states: &mut Vec<State>,
    places: &[u32],
    columns: &[Column],
    arguments: &[u32],
    conditions: Option<&[u8]>,
    from: usize,
    to: usize,
) -> Result<(), OutOfMemory>
    requires sound { IsSound (chain_of chain.now) }
    requires served { is_served (function_of (chain_of chain.now)) (map ty_of types.now) ≡ true }
    requires shape { AreStates (chain_of chain.now) (map ty_of types.now) states.old.items }
    requires places { All (λ p. p < length states.old.items) places.now }
    requires order { from ≤ to }
    requires count { length places.now ≡ to - from }
    requires few { length arguments.now ≤ 64 }
    requires columns { All (λ a. a < length columns.now) arguments.now }
    requires within { All (λ c. to ≤ length c.values) columns.now }
    requires conditions { IfSome conditions (λ all. to ≤ length all.now) }
    ensures shape { OnOk result (AreStates (chain_of chain.now) (map ty_of types.now) states.new.items) }
    ensures rows { OnOk result (FeedsAt (with_if conditions.entry (chain_of chain.now)) (map ty_of types.now) places.now (rows_from (with_condition (λ all. all.now) conditions.entry (row_of columns.now arguments.now)) from (to - from)) states.old.items states.new.items) }
{
    if let Chain::Leaf(leaf) = chain {
        if feed_few(
            leaf, alloc, types, states, places, columns, arguments, conditions, from, to,
        )? {
            return Ok(());
        }
    }
    feed_lent(
        chain, alloc, types, states, places, columns, arguments, conditions, from, to,
    )
}

/// Feeds rows to states of a chain, but for those left out.
fn feed_rows(
    chain: &Chain,
    alloc: Global,
    types: &[Ty],
    states: &mut Vec<State>,
    places: &[u32],
    columns: &[Column],
    arguments: &[u32],
    conditions: Option<&[u8]>,
    from: usize,
    to: usize,
) -> Result<(), OutOfMemory>
    requires sound { IsSound (chain_of chain.now) }
    requires served { is_served (function_of (chain_of chain.now)) (map ty_of types.now) ≡ true }
    requires shape { AreStates (chain_of chain.now) (map ty_of types.now) states.old.items }
    requires places { All (λ p. p < length states.old.items) places.now }
    requires order { from ≤ to }
    requires count { length places.now ≡ to - from }
    requires few { length arguments.now ≤ 64 }
    requires columns { All (λ a. a < length columns.now) arguments.now }
    requires within { All (λ c. to ≤ length c.values) columns.now }
    requires conditions { IfSome conditions (λ all. to ≤ length all.now) }
    ensures shape { OnOk result (AreStates (chain_of chain.now) (map ty_of types.now) states.new.items) }
    ensures rows { OnOk result (FeedsAt (with_if conditions.entry (chain_of chain.now)) (map ty_of types.now) places.now (rows_from (with_condition (λ all. all.now) conditions.entry (row_of columns.now arguments.now)) from (to - from)) states.old.items states.new.items) }
{
    let inner = inside(chain);
    feed_kept(
        inner, alloc, types, states, places, columns, arguments, conditions, from, to,
    )
}

/// Feeds the rows whose condition is met: a condition is read in its own column, before its row is lent.
fn feed_where(
    of: &Chain,
    alloc: Global,
    types: &[Ty],
    states: &mut Vec<State>,
    places: &[u32],
    columns: &[Column],
    arguments: &[u32],
    condition: u32,
    conditions: &[u8],
    from: usize,
    to: usize,
) -> Result<(), OutOfMemory>
    requires sound { IsSound (chain_of of.now) }
    requires served { is_served (function_of (chain_of of.now)) (map ty_of types.now) ≡ true }
    requires shape { AreStates (chain_of of.now) (map ty_of types.now) states.old.items }
    requires places { All (λ p. p < length states.old.items) places.now }
    requires order { from ≤ to }
    requires count { length places.now ≡ to - from }
    requires few { length arguments.now ≤ 64 }
    requires columns { All (λ a. a < length columns.now) arguments.now }
    requires within { All (λ c. to ≤ length c.values) columns.now }
    requires conditions { IsConditions columns.now condition conditions.now }
    requires long { to ≤ length conditions.now }
    ensures shape { OnOk result (AreStates (chain_of of.now) (map ty_of types.now) states.new.items) }
    ensures rows { OnOk result (FeedsAt (If (chain_of of.now)) (map ty_of types.now) places.now (argument_rows columns.now (arguments.now ++ condition ∷ []) from (to - from)) states.old.items states.new.items) }
{
    feed_rows(
        of,
        alloc,
        types,
        states,
        places,
        columns,
        arguments,
        Some(conditions),
        from,
        to,
    )
}

/// Feeds rows to states of a chain with a condition that is no Nullable; false where it is one.
fn feed_if(
    of: &Chain,
    alloc: Global,
    types: &[Ty],
    states: &mut Vec<State>,
    places: &[u32],
    columns: &[Column],
    arguments: &[u32],
    from: usize,
    to: usize,
) -> Result<bool, OutOfMemory>
    requires sound { IsSound (chain_of of.now) }
    requires served { is_served (function_of (chain_of of.now)) (map ty_of types.now) ≡ true }
    requires shape { AreStates (chain_of of.now) (map ty_of types.now) states.old.items }
    requires places { All (λ p. p < length states.old.items) places.now }
    requires order { from ≤ to }
    requires count { length places.now ≡ to - from }
    requires few { length arguments.now ≤ 64 }
    requires columns { All (λ a. a < length columns.now) arguments.now }
    requires within { All (λ c. to ≤ length c.values) columns.now }
    ensures shape { OnOk result (AreStates (chain_of of.now) (map ty_of types.now) states.new.items) }
    ensures rows { IfOk result (λ done. IsTrue done → FeedsAt (If (chain_of of.now)) (map ty_of types.now) places.now (argument_rows columns.now arguments.now from (to - from)) states.old.items states.new.items) }
    ensures none { IfOk result (λ done. done ≡ false → states.new ≡ states.old) }
{
    match arguments {
        [inner @ .., condition] => match columns[*condition as usize].numbers_u8() {
            Some(conditions) => {
                feed_where(
                    of, alloc, types, states, places, columns, inner, *condition, conditions, from,
                    to,
                )?;
                Ok(true)
            }
            None => Ok(false),
        },
        [] => Ok(false),
    }
}

/// Feeds rows to states of a chain; those with a condition by it.
#[tactic(auto, using(value_types::proofs::FoldLaws::chain_laws))]
fn feed_inner(
    chain: &Chain,
    alloc: Global,
    types: &[Ty],
    states: &mut Vec<State>,
    places: &[u32],
    columns: &[Column],
    arguments: &[u32],
    from: usize,
    to: usize,
) -> Result<(), OutOfMemory>
    requires sound { IsSound (chain_of chain.now) }
    requires served { is_served (function_of (chain_of chain.now)) (map ty_of types.now) ≡ true }
    requires shape { AreStates (chain_of chain.now) (map ty_of types.now) states.old.items }
    requires places { All (λ p. p < length states.old.items) places.now }
    requires order { from ≤ to }
    requires count { length places.now ≡ to - from }
    requires few { length arguments.now ≤ 64 }
    requires columns { All (λ a. a < length columns.now) arguments.now }
    requires within { All (λ c. to ≤ length c.values) columns.now }
    ensures shape { OnOk result (AreStates (chain_of chain.now) (map ty_of types.now) states.new.items) }
    ensures rows { OnOk result (FeedsAt (chain_of chain.now) (map ty_of types.now) places.now (argument_rows columns.now arguments.now from (to - from)) states.old.items states.new.items) }
{
    if let Chain::If(of) = chain {
        if feed_if(
            of.get(),
            alloc,
            types,
            states,
            places,
            columns,
            arguments,
            from,
            to,
        )? {
            return Ok(());
        }
    }
    feed_rows(
        chain, alloc, types, states, places, columns, arguments, None, from, to,
    )
}

/// Feeds rows to states of a chain.
fn feed_chain(
    chain: &Chain,
    alloc: Global,
    types: &[Ty],
    states: &mut Vec<State>,
    places: &[u32],
    columns: &[Column],
    arguments: &[u32],
    from: usize,
    to: usize,
) -> Result<(), OutOfMemory>
    requires sound { IsSound (chain_of chain.now) }
    requires served { is_served (function_of (chain_of chain.now)) (map ty_of types.now) ≡ true }
    requires shape { AreStates (chain_of chain.now) (map ty_of types.now) states.old.items }
    requires places { All (λ p. p < length states.old.items) places.now }
    requires order { from ≤ to }
    requires count { length places.now ≡ to - from }
    requires few { length arguments.now ≤ 64 }
    requires columns { All (λ a. a < length columns.now) arguments.now }
    requires within { All (λ c. to ≤ length c.values) columns.now }
    ensures shape { OnOk result (AreStates (chain_of chain.now) (map ty_of types.now) states.new.items) }
    ensures rows { OnOk result (FeedsAt (chain_of chain.now) (map ty_of types.now) places.now (argument_rows columns.now arguments.now from (to - from)) states.old.items states.new.items) }
{
    let inner = inside(chain);
    feed_inner(
        inner, alloc, types, states, places, columns, arguments, from, to,
    )
}

/// Feeds each row from `from` on and below `to` to the state at its place. `arguments` are the numbers of the call's
/// columns among these.
///
/// # Errors
///
/// [`OutOfMemory`] where there is no room; the states are then of unknown content.
#[tactic(auto, using(crate::proofs::Said::place_laws))]
pub fn feed_places(
    call: &ReadyCall,
    alloc: Global,
    states: &mut Vec<State>,
    places: &[u32],
    columns: &[Column],
    arguments: &[u32],
    from: usize,
    to: usize,
) -> Result<(), OutOfMemory>
    requires shape { Each (IsStateOf call.now) states.old.items }
    requires places { All (λ p. p < length states.old.items) places.now }
    requires order { from ≤ to }
    requires count { length places.now ≡ to - from }
    requires few { length arguments.now ≤ 64 }
    requires columns { All (λ a. a < length columns.now) arguments.now }
    requires within { All (λ c. to ≤ length c.values) columns.now }
    ensures shape { OnOk result (Each (IsStateOf call.now) states.new.items) }
    ensures rows { OnOk result (TakeByPlace call.now places.now (argument_rows columns.now arguments.now from (to - from)) states.old.items states.new.items) }
{
    let chain = call.chain();
    let types = call.types();
    feed_chain(
        chain, alloc, types, states, places, columns, arguments, from, to,
    )
}

/// Adds states of no rows, this many, behind those in the list.
///
/// # Errors
///
/// [`OutOfMemory`] where there is no room for them; some may have been added.
pub fn add_fresh(
    call: &ReadyCall,
    alloc: Global,
    states: &mut Vec<State>,
    count: usize,
) -> Result<(), OutOfMemory>
    requires { Each (IsStateOf call.now) states.old.items }
    ensures shape { OnOk result (Each (IsStateOf call.now) states.new.items) }
    ensures fresh { OnOk result (AddsFresh call.now count states.old.items states.new.items) }
{
    states.reserve(count)?;
    for _i in 0..count {
        states.push(State::fresh(alloc, call)?)?;
    }
    Ok(())
}
