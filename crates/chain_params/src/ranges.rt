//! The three parameters of a `Resample`.
ghost use Rattle.agg_terms.specs.Types.{intervals};
ghost use Rattle.agg_typing.specs.Parameters as parameters;
ghost use Rattle.chain_params.specs.Faults.{Gives};
ghost use Rattle.chain_params.specs.Literals.{literal_of, range_of};
ghost use Rattle.std.specs.Prelude.{◌≡◌, ◌<◌, ◌≤◌, ◌+◌, ◌<ℤ◌, ◌^◌, ◌*◌, IfOk, map};

use crate::ChainFault;
use crate::literals::{int64, natural};
use value_types::Literal;

/// The most intervals of `Resample`s in one another, multiplied (this project's own limit).
pub const MOST_INTERVALS: u128 = 65536;

/// The parameters of a `Resample`, and its intervals multiplied with those of the `Resample`s further out.
#[derive(Clone, Copy, Debug)]
pub struct ResampleRange {
    pub start: i64,
    pub end: i64,
    pub step: u64,
    pub intervals: u64,
}

fn interval_count(start: i64, end: i64, step: u64) -> u128
    requires order { start <ℤ end }
    requires some { 0 < step }
    ensures count { result ≡ intervals start end step }
    ensures bound { result < 2 ^ 65 }
{
    let width = (end as i128 - start as i128) as u128;
    (width + (step - 1) as u128) / step as u128
}

/// Reads the start, the end and the step that stand behind `before` other parameters.
/// The start is below the end, and the step is 1 or more (manual: "Aggregate function combinators", -Resample).
pub fn read_range(
    further_out: u64,
    before: u32,
    params: &[Literal],
) -> Result<ResampleRange, ChainFault>
    requires further_out { further_out ≤ 65536 }
    requires before { before + 3 < 2 ^ 32 }
    ensures range { Gives range_of result (parameters.read_range further_out before (map literal_of params.now)) }
    ensures intervals { IfOk result (λ range. range.intervals ≡ further_out * parameters.interval_count (range_of range)) }
    ensures bound { IfOk result (λ range. range.intervals ≤ 65536) }
{
    match params {
        [start, end, step] => {
            let start = match int64(start) {
                Some(start) => start,
                None => return Err(ChainFault::BadParam(before + 1)),
            };
            let end = match int64(end) {
                Some(end) => end,
                None => return Err(ChainFault::BadParam(before + 2)),
            };
            if start >= end {
                return Err(ChainFault::BadParam(before + 2));
            }
            let step = match natural(1, u64::MAX, step) {
                Some(step) => step,
                None => return Err(ChainFault::BadParam(before + 3)),
            };
            let intervals = further_out as u128 * interval_count(start, end, step);
            if intervals > MOST_INTERVALS {
                return Err(ChainFault::BadParam(before + 3));
            }
            Ok(ResampleRange {
                start,
                end,
                step,
                intervals: intervals as u64,
            })
        }
        _ => Err(ChainFault::ParamCount),
    }
}
