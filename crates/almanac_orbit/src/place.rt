// The place of a satellite, from its axes and the sines and cosines of its angles.

ghost use Rattle.std.specs.Prelude.{◌≡◌, pos, neg_ℤ, ◌*◌, ◌^◌, ◌≤ℤ◌, ◌≤◌};
ghost use Rattle.fix_interval.specs.Ends.{IsInside};
ghost use Rattle.fix_interval.specs.Intervals.{ends, IsWithin};
ghost use Rattle.fix_interval.specs.Sums.{add_of, sub_of};
ghost use Rattle.fix_interval.specs.Products.{mul_of, narrow76_of, scale_int_of};
ghost use Rattle.fix_interval.specs.Ranges.{full_ends, around};
ghost use Rattle.fix_interval.specs.Pairs.{pair_ends};
ghost use Rattle.fix_interval.specs.Vectors.{vector_ends};
ghost use Rattle.orbit_laws.specs.Positions.{in_plane_x_of, in_plane_y_of, place_of};
ghost use Rattle.orbit_laws.specs.Sizes.{axis_ends, eccentricity_ends};

use fix_interval::{Iv, add, mul, narrow76, scale_int, sub};

/// `rate` times `k` to `l` milliseconds, in units of 2^-76.
fn motion_over(rate: Iv, k: i64, l: i64) -> Iv
    requires ordered { k ≤ℤ l }
    requires k_small { neg_ℤ (pos 7776000000) ≤ℤ k }
    requires l_small { l ≤ℤ pos 7776000000 }
    requires rate_small { IsInside (ends rate) (around (2 ^ 52)) }
    ensures exact { ends result ≡ scale_int_of (ends rate) k l }
    ensures small { IsInside (ends result) (around (2 ^ 85)) }
{
    scale_int(rate, k, l)
}

/// An angle that is at `start` and moves by `rate` for `k` to `l` milliseconds.
pub(crate) fn moved(start: Iv, rate: Iv, k: i64, l: i64) -> Iv
    requires ordered { k ≤ℤ l }
    requires k_small { neg_ℤ (pos 7776000000) ≤ℤ k }
    requires l_small { l ≤ℤ pos 7776000000 }
    requires start_small { IsInside (ends start) (around (2 ^ 41)) }
    requires rate_small { IsInside (ends rate) (around (2 ^ 52)) }
    ensures exact { ends result ≡ add_of (ends start) (narrow76_of (scale_int_of (ends rate) k l)) }
    ensures small { IsWithin result (2 ^ 60) }
{
    add(start, narrow76(motion_over(rate, k, l)))
}

/// The same of an angle that has turned back by `turned` before, in units of 2^-76.
pub(crate) fn moved_back(start: Iv, rate: Iv, turned: Iv, k: i64, l: i64) -> Iv
    requires ordered { k ≤ℤ l }
    requires k_small { neg_ℤ (pos 7776000000) ≤ℤ k }
    requires l_small { l ≤ℤ pos 7776000000 }
    requires start_small { IsInside (ends start) (around (2 ^ 41)) }
    requires rate_small { IsInside (ends rate) (around (2 ^ 52)) }
    requires turned_small { IsInside (ends turned) (around (2 ^ 80)) }
    ensures exact { ends result ≡ add_of (ends start) (narrow76_of (sub_of (scale_int_of (ends rate) k l) (ends turned))) }
    ensures small { IsWithin result (2 ^ 60) }
{
    add(start, narrow76(sub(motion_over(rate, k, l), turned)))
}

/// Along the line to the perigee: A (cos E - e).
pub(crate) fn perifocal_x(semi_major_axis: Iv, cosine: Iv, eccentricity: Iv) -> Iv
    requires axis { IsInside (ends semi_major_axis) axis_ends }
    requires unit { IsInside (ends cosine) full_ends }
    requires ratio { IsInside (ends eccentricity) eccentricity_ends }
    ensures { ends result ≡ mul_of (ends semi_major_axis) (sub_of (ends cosine) (ends eccentricity)) }
{
    mul(semi_major_axis, sub(cosine, eccentricity))
}

/// A component of at most 101 megametres times a sine or a cosine.
fn part(x: Iv, s: Iv) -> Iv
    requires x_small { IsInside (ends x) (around (101 * 2 ^ 38)) }
    requires unit { IsInside (ends s) full_ends }
    ensures exact { ends result ≡ mul_of (ends x) (ends s) }
    ensures small { IsInside (ends result) (around (101 * 2 ^ 38)) }
{
    mul(x, s)
}

/// Across the line to the perigee: B sin E.
pub(crate) fn perifocal_y(semi_minor_axis: Iv, sine: Iv) -> Iv
    requires axis { IsInside (ends semi_minor_axis) (around (50 * 2 ^ 38)) }
    requires unit { IsInside (ends sine) full_ends }
    ensures { ends result ≡ mul_of (ends semi_minor_axis) (ends sine) }
{
    part(semi_minor_axis, sine)
}

/// Along the line to the ascending node: (x, y) turned by the argument of perigee.
pub(crate) fn in_plane_x(x: Iv, y: Iv, sine: Iv, cosine: Iv) -> Iv
    requires x_small { IsInside (ends x) (around (101 * 2 ^ 38)) }
    requires y_small { IsInside (ends y) (around (101 * 2 ^ 38)) }
    requires sine_unit { IsInside (ends sine) full_ends }
    requires cosine_unit { IsInside (ends cosine) full_ends }
    ensures { ends result ≡ in_plane_x_of (ends x) (ends y) (pair_ends sine cosine) }
{
    sub(part(x, cosine), part(y, sine))
}

/// Across it.
pub(crate) fn in_plane_y(x: Iv, y: Iv, sine: Iv, cosine: Iv) -> Iv
    requires x_small { IsInside (ends x) (around (101 * 2 ^ 38)) }
    requires y_small { IsInside (ends y) (around (101 * 2 ^ 38)) }
    requires sine_unit { IsInside (ends sine) full_ends }
    requires cosine_unit { IsInside (ends cosine) full_ends }
    ensures { ends result ≡ in_plane_y_of (ends x) (ends y) (pair_ends sine cosine) }
{
    add(part(x, sine), part(y, cosine))
}

/// The place of (x, y), which is turned by the inclination and then by the node.
pub(crate) fn place(x: Iv, y: Iv, node: (Iv, Iv), inclination: (Iv, Iv)) -> [Iv; 3]
    requires x_small { IsInside (ends x) (around (101 * 2 ^ 38)) }
    requires y_small { IsInside (ends y) (around (101 * 2 ^ 38)) }
    requires sin_node { IsInside (ends node.0) full_ends }
    requires cos_node { IsInside (ends node.1) full_ends }
    requires sin_inclination { IsInside (ends inclination.0) full_ends }
    requires cos_inclination { IsInside (ends inclination.1) full_ends }
    ensures { vector_ends result ≡ place_of (ends x) (ends y) (pair_ends node.0 node.1) (pair_ends inclination.0 inclination.1) }
{
    let across = part(y, inclination.1);
    [
        in_plane_x(x, across, node.0, node.1),
        in_plane_y(x, across, node.0, node.1),
        part(y, inclination.0),
    ]
}
