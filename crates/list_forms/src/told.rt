// What a test of forms tells.

ghost use Rattle.std.specs.Prelude.{◌≡◌};
ghost use Rattle.slope_forms.specs.Told.{both_told};
ghost use Rattle.list_forms.specs.Views.{told, is_passing, is_failing};

use raim_model::Why;

/// What a test of forms tells of the written test at each millisecond of a piece of time.
#[derive(Clone, Copy, Debug, PartialEq, Eq)]
pub enum Told {
    /// It passes.
    Passing,
    /// It fails, for this reason.
    Failing(Why),
    /// Nothing is told.
    Unknown,
}

impl Told {
    /// Whether the test surely passes.
    pub(crate) fn passes(self) -> bool
        ensures { result ≡ is_passing (told self) }
    {
        matches!(self, Told::Passing)
    }

    /// Whether it surely fails.
    pub(crate) fn fails(self) -> bool
        ensures { result ≡ is_failing (told self) }
    {
        matches!(self, Told::Failing(_))
    }

    /// Of two tests of which any that fails decides.
    pub(crate) fn and(self, next: Told) -> Told
        ensures { told result ≡ both_told (told self) (told next) }
    {
        match self {
            Told::Passing => next,
            Told::Failing(why) => Told::Failing(why),
            Told::Unknown => if next.fails() { next } else { Told::Unknown },
        }
    }
}
