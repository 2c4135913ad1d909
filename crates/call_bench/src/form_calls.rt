// Calls on forms of time, each on forms that its number determines.

ghost use Rattle.std.specs.Prelude.{◌≡◌, pos, ◌^◌, ◌<◌};
ghost use Rattle.time_forms.specs.Programs.{form, IsNumberWithin, IsFormWithin};
ghost use Rattle.site_forms.specs.Places.{place_form, IsPlaceWithin};

use crate::position_calls::{record_of, time};
use crate::sums::{scattered, spread};
use almanac_orbit::{Orbit, prepare};
use angle_forms::sin_cos;
use satellite_forms::position;
use site_forms::{TimePlace, frame};
use time_forms::{TimeForm, mul};

/// The calls on forms that are timed.
#[derive(Clone, Copy)]
pub enum FormCall {
    /// The product of two forms, narrowed.
    Product,
    /// The sine and the cosine of a form.
    Sine,
    /// The place of a satellite over a second.
    Position,
    /// The frame of a receiver.
    Frame,
}

/// From two turns below 0 to two above, turning by at most 2^20 units.
fn turns(i: u32) -> TimeForm
    ensures { IsFormWithin (form result) (2 ^ 58) }
{
    TimeForm {
        centre: (scattered(i) % 1099511627776) as i64 - 549755813888,
        turning: (scattered(i) % 2097152) as i64 - 1048576,
        remainder: (i % 1000) as i64 + 1,
    }
}

/// A part of a place, from `least` to so many units above it, turning by at most 1000 units.
fn part(i: u32, factor: u32, least: i64, most: u64) -> TimeForm
    requires low { IsNumberWithin least (2 ^ 40) }
    requires some { 0 < most }
    requires high { most < 2 ^ 40 }
    ensures { IsFormWithin (form result) (2 ^ 58) }
{
    TimeForm {
        centre: (spread(i, factor) % most) as i64 + least,
        turning: (i % 2001) as i64 - 1000,
        remainder: 4,
    }
}

/// Any latitude, at most a turn of longitude either way, and a height from -1000 m to 30000 m.
fn place(i: u32) -> TimePlace
    ensures { IsPlaceWithin (place_form result) (2 ^ 58) }
{
    TimePlace {
        lat: part(i, 2654435761, -68719476736, 137438953470),
        lon: part(i, 2246822519, -274877906944, 549755813886),
        height: part(i, 3266489917, -274877906, 8521215112),
    }
}

/// 31 times the sum before, and the numbers of a form times 1, 3 and 5, for each form: what is left of it in 64 bits, which
/// costs little beside a product of forms.
#[inline(always)]
fn onto(before: i64, forms: &[TimeForm]) -> i64 {
    let mut sum = before;
    for f in forms {
        sum = sum
            .wrapping_mul(31)
            .wrapping_add(f.centre)
            .wrapping_add(f.turning.wrapping_mul(3))
            .wrapping_add(f.remainder.wrapping_mul(5));
    }
    sum
}

fn sum_of_products(n: u32) -> i64 {
    let mut sum: i64 = 0;
    for i in 0..n {
        if let Some(product) = mul(turns(i), turns(i ^ 1)) {
            sum = onto(sum, &[product]);
        }
    }
    sum
}

fn sum_of_sines(n: u32) -> i64 {
    let mut sum: i64 = 0;
    for i in 0..n {
        if let Some(pair) = sin_cos(turns(i)) {
            sum = onto(sum, &[pair.sine, pair.cosine]);
        }
    }
    sum
}

fn sum_over(orbit: &Orbit, n: u32) -> i64
    requires toa { orbit.now.toa_ms ≡ pos 1414022400000 }
{
    let mut sum: i64 = 0;
    for i in 0..n {
        if let Some(place) = position(orbit, time(i), 500) {
            sum = onto(sum, &place);
        }
    }
    sum
}

fn sum_of_frames(n: u32) -> i64 {
    let mut sum: i64 = 0;
    for i in 0..n {
        if let Some(found) = frame(&place(i)) {
            sum = onto(sum, &found.position);
            sum = onto(sum, &found.east);
            sum = onto(sum, &found.north);
            sum = onto(sum, &found.up);
        }
    }
    sum
}

/// The sum of N calls.
pub fn sum_of(call: FormCall, n: u32) -> i64 {
    match call {
        FormCall::Product => sum_of_products(n),
        FormCall::Sine => sum_of_sines(n),
        FormCall::Position => sum_over(&prepare(&record_of()), n),
        FormCall::Frame => sum_of_frames(n),
    }
}
