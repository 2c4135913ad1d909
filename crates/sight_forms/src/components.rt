// The three forms of a place or a direction, by their names.

ghost use Rattle.std.specs.Prelude.{◌≡◌};
ghost use Rattle.angle_forms.specs.Vectors.{vector_form};
ghost use Rattle.sight_forms.specs.Views.{component_form};

use time_forms::TimeForm;

/// A vector by its components in axes that turn with the Earth.
#[derive(Clone, Copy)]
pub(crate) struct Components {
    pub(crate) x: TimeForm,
    pub(crate) y: TimeForm,
    pub(crate) z: TimeForm,
}

/// The components of a vector, the first along `x`.
pub(crate) fn named(v: &[TimeForm; 3]) -> Components
    ensures { component_form result ≡ vector_form v.now }
{
    Components {
        x: v[0],
        y: v[1],
        z: v[2],
    }
}
