// The line from a receiver to a satellite.

ghost use Rattle.std.specs.Prelude.{◌≡◌, ◌^◌};
ghost use Rattle.fix_interval.specs.Ends.{IsInside};
ghost use Rattle.fix_interval.specs.Intervals.{ends, IsWithin};
ghost use Rattle.fix_interval.specs.Products.{mul_wide_of, sqr_wide_of};
ghost use Rattle.fix_interval.specs.Ranges.{full_ends};
ghost use Rattle.fix_interval.specs.Vectors.{VectorInside};
ghost use Rattle.site_laws.specs.Frames.{widest_frame};
ghost use Rattle.site_laws.specs.Sights.{line_of, dot_of, range_of, IsInReach, widest_line, line_ends, full_vector, range_ends, part_ends};
ghost use Rattle.elev_mask.specs.Components.{component_ends};

use crate::components::Components;
use fix_interval::{Iv, add, mul_wide, narrow76, sqr_wide, sqrt, sub};

/// From the receiver's position to the satellite.
pub(crate) fn line(position: Components, sat: Components) -> Components
    requires position { VectorInside (component_ends position) widest_frame.position }
    requires sat { IsInReach (component_ends sat) }
    ensures exact { component_ends result ≡ line_of (component_ends position) (component_ends sat) }
    ensures bound { VectorInside (component_ends result) widest_line }
{
    Components {
        x: sub(sat.x, position.x),
        y: sub(sat.y, position.y),
        z: sub(sat.z, position.z),
    }
}

/// A component of a direction times one of a line, in units of 2^-76.
fn product(direction: Iv, line: Iv) -> Iv
    requires direction { IsInside (ends direction) full_ends }
    requires line { IsInside (ends line) line_ends }
    ensures exact { ends result ≡ mul_wide_of (ends direction) (ends line) }
    ensures bound { IsWithin result (2 ^ 90) }
{
    mul_wide(direction, line)
}

/// The square of a component of a line, in units of 2^-76.
fn square(line: Iv) -> Iv
    requires { IsInside (ends line) line_ends }
    ensures exact { ends result ≡ sqr_wide_of (ends line) }
    ensures bound { IsWithin result (2 ^ 94) }
{
    sqr_wide(line)
}

/// The part of a line over a direction.
pub(crate) fn dot(direction: Components, line: Components) -> Iv
    requires direction { VectorInside (component_ends direction) full_vector }
    requires line { VectorInside (component_ends line) widest_line }
    ensures exact { ends result ≡ dot_of (component_ends direction) (component_ends line) }
    ensures bound { IsInside (ends result) part_ends }
{
    let x = product(direction.x, line.x);
    let y = product(direction.y, line.y);
    let z = product(direction.z, line.z);
    narrow76(add(add(x, y), z))
}

/// The length of a line.
pub(crate) fn length(line: Components) -> Iv
    requires { VectorInside (component_ends line) widest_line }
    ensures exact { ends result ≡ range_of (component_ends line) }
    ensures bound { IsInside (ends result) range_ends }
{
    let x = square(line.x);
    let y = square(line.y);
    let z = square(line.z);
    sqrt(add(add(x, y), z))
}
