// The direction of a satellite that is seen.

ghost use Rattle.std.specs.Prelude.{◌≡◌, pos, ◌^◌, ◌≤ℤ◌};
ghost use Rattle.fix_interval.specs.Ends.{IsInside};
ghost use Rattle.fix_interval.specs.Intervals.{ends};
ghost use Rattle.fix_interval.specs.Vectors.{VectorInside};
ghost use Rattle.site_laws.specs.Sights.{share_of, shares_of, IsDirection, widest_line, full_vector, range_ends, part_ends};
ghost use Rattle.elev_mask.specs.Components.{component_ends};
ghost use Rattle.elev_mask.specs.Sights.{direction_ends};

use crate::components::Components;
use crate::line::dot;
use fix_interval::{Iv, clamp, div};

/// 1 and a unit.
const UNIT_ONE: i128 = 274877906945;

/// What is over a direction of a line, over its length: at most 1 and a unit either way.
fn share(part: Iv, range: Iv) -> Iv
    requires part { IsInside (ends part) part_ends }
    requires far { pos (2 ^ 38) ≤ℤ range.lo }
    requires meets { (share_of (ends part) (ends range)).lo ≤ℤ (share_of (ends part) (ends range)).hi }
    ensures { ends result ≡ share_of (ends part) (ends range) }
{
    clamp(div(part, range), UNIT_ONE)
}

/// The direction of a line of a given length, with what is over the up direction.
pub(crate) fn direction(
    east: Components,
    north: Components,
    line: Components,
    range: Iv,
    up: Iv,
) -> [Iv; 3]
    requires east { VectorInside (component_ends east) full_vector }
    requires north { VectorInside (component_ends north) full_vector }
    requires line { VectorInside (component_ends line) widest_line }
    requires far { pos (2 ^ 38) ≤ℤ range.lo }
    requires up { IsInside (ends up) part_ends }
    requires meets { IsDirection (shares_of (component_ends east) (component_ends north) (component_ends line) (ends range) (ends up)) }
    ensures { direction_ends result ≡ shares_of (component_ends east) (component_ends north) (component_ends line) (ends range) (ends up) }
{
    [
        share(dot(east, line), range),
        share(dot(north, line), range),
        share(up, range),
    ]
}
