// The sine of one number of units, an end at a time.

ghost use Rattle.std.specs.Prelude.{◌≡◌, pos, neg_ℤ, ◌^◌, ◌≤ℤ◌, ◌<ℤ◌};
ghost use Rattle.fix_interval.specs.Ends.{IsInside};
ghost use Rattle.fix_interval.specs.Ranges.{point};
ghost use Rattle.trig_laws.specs.Quarter.{radian_ends};
ghost use Rattle.trig_laws.specs.SinCos.{sin_cos_of, turn_of};
ghost use Rattle.trig_laws.specs.Chains.{sine_ends, cosine_ends};
ghost use Rattle.fix_interval.specs.Intervals.{ends_64};

use crate::eighth::{eighth_cosine_high, eighth_cosine_low, eighth_sine_high, eighth_sine_low};
use crate::quarters::{left, nearest_quarter};
use crate::radians::in_radians;
use crate::square::square;
use crate::unit_iv::UnitIv;
use fix_interval::Iv64;

/// Where a number of units stands: its nearest quarter turn, from 0 to 3, and the radians from there with their square.
#[derive(Clone, Copy)]
struct Place {
    quarter: i64,
    radians: Iv64,
    square: UnitIv,
}

#[inline(always)]
fn place_of(k: i64) -> Place
    requires low { neg_ℤ (pos (2 ^ 60)) ≤ℤ k }
    requires high { k ≤ℤ pos (2 ^ 60) }
    ensures pair { sin_cos_of (point k) ≡ turn_of result.quarter (sine_ends (ends_64 result.radians) result.square.lo result.square.hi) (cosine_ends result.square.lo result.square.hi) }
    ensures small { IsInside (ends_64 result.radians) radian_ends }
    ensures quarter_low { pos 0 ≤ℤ result.quarter }
    ensures quarter_high { result.quarter <ℤ pos 4 }
{
    let quarter = nearest_quarter(k);
    let radians = in_radians(left(Iv64 { lo: k, hi: k }, quarter));
    Place {
        quarter: quarter.rem_euclid(4),
        radians,
        square: square(radians),
    }
}

/// The lower end of the sine of `k` units of 2^-38 of a turn, as `sin_cos` answers it, at a part of the cost.
pub fn sine_low(k: i64) -> i64
    requires low { neg_ℤ (pos (2 ^ 60)) ≤ℤ k }
    requires high { k ≤ℤ pos (2 ^ 60) }
    ensures exact { result ≡ (sin_cos_of (point k)).sine.lo }
    ensures above { neg_ℤ (pos (2 ^ 38)) ≤ℤ result }
    ensures below { result ≤ℤ pos (2 ^ 38) }
{
    let place = place_of(k);
    if place.quarter == 0 {
        eighth_sine_low(place.radians.lo, place.square)
    } else if place.quarter == 1 {
        eighth_cosine_low(place.square)
    } else if place.quarter == 2 {
        -eighth_sine_high(place.radians.hi, place.square)
    } else {
        -eighth_cosine_high(place.square)
    }
}

/// The upper end of the sine of `k` units of 2^-38 of a turn.
pub fn sine_high(k: i64) -> i64
    requires low { neg_ℤ (pos (2 ^ 60)) ≤ℤ k }
    requires high { k ≤ℤ pos (2 ^ 60) }
    ensures exact { result ≡ (sin_cos_of (point k)).sine.hi }
    ensures above { neg_ℤ (pos (2 ^ 38)) ≤ℤ result }
    ensures below { result ≤ℤ pos (2 ^ 38) }
{
    let place = place_of(k);
    if place.quarter == 0 {
        eighth_sine_high(place.radians.hi, place.square)
    } else if place.quarter == 1 {
        eighth_cosine_high(place.square)
    } else if place.quarter == 2 {
        -eighth_sine_low(place.radians.lo, place.square)
    } else {
        -eighth_cosine_low(place.square)
    }
}
