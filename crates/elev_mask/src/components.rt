// The three components of a place or a direction, by their names.

ghost use Rattle.std.specs.Prelude.{◌≡◌};
ghost use Rattle.elev_mask.specs.Components.{component_ends};
ghost use Rattle.fix_interval.specs.Vectors.{vector_ends};

use fix_interval::Iv;

/// A vector by its components in axes that turn with the Earth.
#[derive(Clone, Copy)]
pub(crate) struct Components {
    pub(crate) x: Iv,
    pub(crate) y: Iv,
    pub(crate) z: Iv,
}

/// The components of a vector, the first along `x`.
pub(crate) fn named(v: &[Iv; 3]) -> Components
    ensures { component_ends result ≡ vector_ends v.now }
{
    Components {
        x: v[0],
        y: v[1],
        z: v[2],
    }
}
