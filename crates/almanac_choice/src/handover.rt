// The handovers between almanacs.
ghost use Rattle.std.specs.Prelude.{◌≡◌, ◌&&◌, int_lt, ◌++◌, map, filter, All, IfOk, OnOk};
ghost use Rattle.std.specs.List.{flat_map};
ghost use Rattle.raim_model.specs.Cuts.{IsCutTime};
ghost use Rattle.almanac_laws.specs.Handovers.{behind_middle, has_between, is_next, handovers_of};

use std::alloc::{AllocError, Global};

/// Whether `z` is strictly between `x` and `y`.
fn is_inside(x: i64, z: i64, y: i64) -> bool
    ensures { result ≡ (int_lt x z && int_lt z y) }
{
    x < z && z < y
}

/// Whether one of the times is strictly between `x` and `y`.
fn is_parted(times: &[i64], x: i64, y: i64) -> bool
    requires { All IsCutTime times.now }
    ensures { result ≡ has_between times.now x y }
{
    for z in times {
        if is_inside(x, *z, y) {
            return true;
        }
    }
    false
}

/// Whether `y` is the next of the times behind `x`.
fn follows(times: &[i64], x: i64, y: i64) -> bool
    requires { All IsCutTime times.now }
    ensures { result ≡ is_next times.now x y }
{
    x < y && !is_parted(times, x, y)
}

/// The first millisecond behind the middle of `x` and `y`.
fn middle(x: i64, y: i64) -> i64
    requires x { IsCutTime x }
    requires y { IsCutTime y }
    ensures { result ≡ behind_middle x y }
{
    (x + y).div_euclid(2) + 1
}

/// Adds the first millisecond behind the middle of `x` and its next time.
fn add_next(found: &mut Vec<i64>, times: &[i64], x: i64) -> Result<(), AllocError>
    requires x { IsCutTime x }
    requires times { All IsCutTime times.now }
    ensures { OnOk result (found.new.items ≡ found.old.items ++ map (behind_middle x) (filter (is_next times.now x) times.now)) }
{
    for y in times {
        if follows(times, x, *y) {
            found.push(middle(x, *y))?;
        }
    }
    Ok(())
}

/// The times at which another almanac is in force than the millisecond before, for the times of the almanacs: the first
/// millisecond behind the middle of each time and the next one, as often as the two stand in the list.
pub fn handovers(alloc: Global, times: &[i64]) -> Result<Vec<i64>, AllocError>
    requires { All IsCutTime times.now }
    ensures { IfOk result (λ found. found.items ≡ handovers_of times.now) }
{
    let mut found = Vec::new(alloc);
    for x in times {
        add_next(&mut found, times, *x)?;
    }
    Ok(found)
}
