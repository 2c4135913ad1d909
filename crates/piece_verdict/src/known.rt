// What is known of a piece of time.
ghost use Rattle.std.specs.Prelude.{◌≡◌, ℕ, ℤ, slice_index_or, false};
ghost use Rattle.raim_model.specs.Solution.{Case};
ghost use Rattle.piece_verdict.specs.declared.alert.Alert.{Alert};
ghost use Rattle.piece_verdict.specs.Known.{Knows};

use crate::here::Here;
use slope_test::Marks;

/// What is known of a piece of time, by which a piece inside is judged sooner.
#[derive(Clone, Copy)]
pub struct Known {
    /// The leg and the almanac in force.
    pub(crate) here: Option<Here>,
    /// The satellites that are hidden at each millisecond, number n at place n - 1.
    pub(crate) hidden: Marks,
    /// The rows whose slopes pass.
    pub(crate) slopes: Marks,
    /// The rows without which the others pass.
    pub(crate) lists: Marks,
}

impl Known {
    /// Nothing.
    pub(crate) fn nothing() -> Known
        ensures knows { (alert : Alert) (c : Case) (first last : ℤ) → Knows alert c result first last }
        ensures none { (k : ℕ) → slice_index_or result.hidden.places k false ≡ false }
    {
        Known {
            here: None,
            hidden: Marks::none(),
            slopes: Marks::none(),
            lists: Marks::none(),
        }
    }
}
