// When a YUMA and a SEM almanac describe the same orbits. They write angles in different units, and round
// each number to digits of their own.

use raim_model::{AlmRecord, Angle, Dec};

// Pi, in units of 10^-15.
const PI: i128 = 3_141_592_653_589_793;

const PLACES_OF_PI: u32 = 15;

// How many places of an angle and of a rate are counted, and the first place in which they may differ by one.
const ANGLE_PLACES: u32 = 20;

const ANGLE_TOLERANCE: u32 = 9;

const RATE_PLACES: u32 = 27;

const RATE_TOLERANCE: u32 = 18;

// How many places of an eccentricity and of a root of an axis are counted.
const PLACES: u32 = 30;

// YUMA writes ten digits of an eccentricity below a tenth, and six places of the root: the place in which
// each may differ by one.
const ECCENTRICITY_TOLERANCE: u32 = 11;

const ROOT_TOLERANCE: u32 = 6;

// The decimal in units of that place, cut behind it. None where it is too large.
fn units(d: Dec, places: u32) -> Option<i128> {
    let digits = i128::from(d.digits);
    let size = match places.checked_sub(u32::from(d.places)) {
        Some(more) => digits.checked_mul(10i128.checked_pow(more)?)?,
        None => digits.checked_div(10i128.checked_pow(u32::from(d.places) - places)?)?,
    };
    if d.neg {
        size.checked_neg()
    } else {
        Some(size)
    }
}

// An angle of a SEM almanac in semicircles, in those units.
fn semicircles(angle: Angle, places: u32) -> Option<i128> {
    match angle {
        Angle::Rad(_) => None,
        Angle::Semi(d) => units(d, places),
        Angle::Semi30(d) => units(d, places)?.checked_add(units(Dec::new(false, 3, 1), places)?),
    }
}

// Whether the angle in radians is the other in semicircles, but for a unit of that place.
fn same_angle(radians: Angle, other: Angle, places: u32, tolerance: u32) -> Option<bool> {
    let Angle::Rad(radians) = radians else {
        return None;
    };
    let here = units(radians, places.checked_add(PLACES_OF_PI)?)?;
    let there = semicircles(other, places)?.checked_mul(PI)?;
    let least = places.checked_add(PLACES_OF_PI)?.checked_sub(tolerance)?;
    Some(here.checked_sub(there)?.checked_abs()? <= 10i128.checked_pow(least)?)
}

fn same_angles(yuma: &AlmRecord, sem: &AlmRecord) -> Option<bool> {
    let angle = |a, b| same_angle(a, b, ANGLE_PLACES, ANGLE_TOLERANCE);
    Some(
        angle(yuma.incl, sem.incl)?
            && angle(yuma.omega0, sem.omega0)?
            && angle(yuma.perigee, sem.perigee)?
            && angle(yuma.m0, sem.m0)?
            && same_angle(yuma.rate, sem.rate, RATE_PLACES, RATE_TOLERANCE)?,
    )
}

// Whether two decimals are the same, but for a unit of that place.
fn same_decimal(a: Dec, b: Dec, tolerance: u32) -> Option<bool> {
    let least = PLACES.checked_sub(tolerance)?;
    let apart = units(a, PLACES)?.checked_sub(units(b, PLACES)?)?;
    Some(apart.checked_abs()? <= 10i128.checked_pow(least)?)
}

fn same_record(yuma: &AlmRecord, sem: &AlmRecord) -> bool {
    yuma.prn == sem.prn
        && yuma.health == sem.health
        && yuma.toa_ms == sem.toa_ms
        && same_decimal(yuma.e, sem.e, ECCENTRICITY_TOLERANCE) == Some(true)
        && same_decimal(yuma.sqrt_a, sem.sqrt_a, ROOT_TOLERANCE) == Some(true)
        && same_angles(yuma, sem) == Some(true)
}

/// Whether the records of a YUMA almanac and of a SEM almanac agree, one by one: in PRN, health and time
/// of applicability exactly, in eccentricities to 10^-11, in roots of axes to 10^-6 square roots of a
/// metre, in angles to 10^-9 radians, and in rates to 10^-18 radians per second.
pub fn agree(yuma: &[AlmRecord], sem: &[AlmRecord]) -> bool {
    yuma.len() == sem.len() && yuma.iter().zip(sem).all(|(y, s)| same_record(y, s))
}
