// Frames of receivers, each at a place that its number determines, and looks from one receiver, each at a satellite and over a
// mask that its number determines.

ghost use Rattle.std.specs.Prelude.{pos, neg_ℤ, ◌^◌, ◌≤ℤ◌};
ghost use Rattle.fix_interval.specs.Ends.{IsInside};
ghost use Rattle.fix_interval.specs.Intervals.{ends};
ghost use Rattle.fix_interval.specs.Vectors.{vector_ends};
ghost use Rattle.site_laws.specs.Places.{IsNearEarth, widest_place};
ghost use Rattle.site_laws.specs.Frames.{IsFrame};
ghost use Rattle.site_laws.specs.Sights.{IsInReach, IsSineEnds};
ghost use Rattle.leg_place.specs.Places.{place_ends};
ghost use Rattle.wgs_position.specs.Frames.{frame_ends};

use crate::sums::{added, from, spread};
use elev_mask::{Sight, look};
use fix_interval::Iv;
use leg_place::PlaceBox;
use wgs_position::{SiteFrame, frame};

/// Which satellites are looked at.
#[derive(Clone, Copy)]
pub enum Side {
    /// Those high above the receiver.
    Above,
    /// Those beyond the Earth.
    Beyond,
}

/// Any latitude, at most three units wide.
fn latitude(i: u32) -> Iv
    ensures { IsInside (ends result) widest_place.lat }
{
    from(
        (spread(i, 2654435761) % 137438953470) as i128 - 68719476736,
        i % 4,
    )
}

/// At most a turn of longitude either way, at most three units wide.
fn longitude(i: u32) -> Iv
    ensures { IsInside (ends result) widest_place.lon }
{
    from(
        (spread(i, 2246822519) % 549755813886) as i128 - 274877906944,
        i % 4,
    )
}

/// A height from -1000 m to 30000 m, at most three units wide.
fn height(i: u32) -> Iv
    ensures { IsInside (ends result) widest_place.height }
{
    from(
        (spread(i, 3266489917) % 8521215112) as i128 - 274877906,
        i % 4,
    )
}

fn place(i: u32) -> PlaceBox
    ensures { IsNearEarth (place_ends result) }
{
    PlaceBox {
        lat: latitude(i),
        lon: longitude(i),
        height: height(i),
    }
}

/// The sum of N frames.
pub fn sum_of_frames(n: u32) -> i128 {
    let mut sum: i128 = 0;
    for i in 0..n {
        let found = frame(&place(i));
        sum = added(sum, &found.pos);
        sum = added(sum, &found.east);
        sum = added(sum, &found.north);
        sum = added(sum, &found.up);
    }
    sum
}

/// At 48 degrees north, 11 degrees east and 10000 m.
fn place_of_looks() -> PlaceBox
    ensures { IsNearEarth (place_ends result) }
{
    PlaceBox {
        lat: Iv {
            lo: 36650387592,
            hi: 36650387593,
        },
        lon: Iv {
            lo: 8399047156,
            hi: 8399047157,
        },
        height: Iv {
            lo: 2748779069,
            hi: 2748779070,
        },
    }
}

/// A component of a satellite's place, from so many Mm to ten more, at most 2^20 units wide.
fn component(least: i8, place: u64) -> Iv
    requires low { neg_ℤ (pos 25) ≤ℤ least }
    requires high { least ≤ℤ pos 15 }
    ensures { IsInside (ends result) record { lo = neg_ℤ (pos (2 ^ 46)); hi = pos (2 ^ 46) } }
{
    from(
        least as i128 * 274877906944 + (place % 2748779069440) as i128,
        (place % 1048577) as u32,
    )
}

fn satellite(side: Side, i: u32) -> [Iv; 3]
    ensures { IsInReach (vector_ends result) }
{
    let x = spread(i, 2654435761);
    let y = spread(i, 2246822519);
    let z = spread(i, 3266489917);
    match side {
        Side::Above => [component(15, x), component(-5, y), component(10, z)],
        Side::Beyond => [component(-25, x), component(-5, y), component(-20, z)],
    }
}

/// The sine of a mask from 0 to 30 degrees, at most three units wide.
fn mask(i: u32) -> Iv
    ensures { IsSineEnds (ends result) }
{
    from((spread(i, 668265263) % 137438953472) as i128, i % 4)
}

/// The sum with how a satellite is seen.
fn onto(before: i128, sight: Sight) -> i128 {
    match sight {
        Sight::Visible(direction) => added(before, &direction),
        Sight::Hidden => added(before, &[Iv::point(1)]),
        Sight::Straddle => added(before, &[Iv::point(2)]),
    }
}

/// The sum of N looks from a receiver.
fn sum_over(site: &SiteFrame, side: Side, n: u32) -> i128
    requires { IsFrame (frame_ends site.now) }
{
    let mut sum: i128 = 0;
    for i in 0..n {
        sum = onto(sum, look(site, &satellite(side, i), mask(i)));
    }
    sum
}

/// The sum of N looks.
pub fn sum_of_looks(side: Side, n: u32) -> i128 {
    sum_over(&frame(&place_of_looks()), side, n)
}
