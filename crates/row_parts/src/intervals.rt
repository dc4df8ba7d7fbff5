//! The intervals of -Resample: interval j holds the keys from start + j * step on, below start + (j + 1) * step and below
//! end, so that a key's interval is computed, not searched. ClickHouse manual: "Aggregate function combinators", -Resample.
ghost use Rattle.std.specs.Prelude.{◌≡◌, ◌<◌, ◌<ℤ◌, ℕ, false, true, IfNone, IfSome};
ghost use Rattle.agg_terms.specs.Types.{intervals};
ghost use Rattle.agg_meaning.specs.Picks.{is_inside};

/// How many intervals there are.
#[tactic(auto, using(crate::proofs::IntervalPlaces::count_laws))]
pub fn count_intervals(start: i64, end: i64, step: u64) -> usize
    requires order { start <ℤ end }
    requires step { 0 < step }
    ensures { result ≡ intervals start end step }
{
    let width = (i128::from(end) - i128::from(start)) as u128;
    let step = u128::from(step);
    ((width + (step - 1)) / step) as usize
}

/// The number of a key's interval, None where it lies in none.
#[tactic(auto, using(crate::proofs::IntervalPlaces::place_laws))]
pub fn interval_of(start: i64, end: i64, step: u64, key: i128) -> Option<usize>
    requires order { start <ℤ end }
    requires step { 0 < step }
    ensures some { IfSome result (λ j. (j < intervals start end step) × (is_inside start end step j key ≡ true)) }
    ensures none { IfNone result ((j : ℕ) → is_inside start end step j key ≡ false) }
{
    if key < i128::from(start) || key >= i128::from(end) {
        return None;
    }
    let past = (key - i128::from(start)) as u128;
    Some((past / u128::from(step)) as usize)
}
