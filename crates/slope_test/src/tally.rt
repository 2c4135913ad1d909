// How the slopes of a list come out.
ghost use Rattle.std.specs.Prelude.{◌≡◌, List, [], ◌∷◌, ◌++◌, true};
ghost use Rattle.slope_laws.specs.declared.Outcome.{Outcome};
ghost use Rattle.slope_laws.specs.declared.Outcome.TheVariants.{Passes};
ghost use Rattle.slope_laws.specs.Rows.{Removal};
ghost use Rattle.slope_laws.specs.Slopes.{slopes_of, is_fails, is_straddles, is_overflows};
ghost use Rattle.slope_test.specs.Tallies.{kept_first, IsTally};

use raim_model::{Cmp, Verdict, Why};
use slope_laws::Outcome;

/// The first satellites whose slopes overflow, fail and straddle.
#[derive(Clone, Copy)]
pub(crate) struct Tally {
    pub(crate) overflows: Option<u8>,
    pub(crate) fails: Option<u8>,
    pub(crate) straddles: Option<u8>,
}

/// The satellite kept before, and else this one where it is such.
fn keep_first(kept: Option<u8>, is: bool, prn: u8) -> Option<u8>
    ensures { result ≡ kept_first kept is prn }
{
    match kept {
        Some(first) => Some(first),
        None => { if is { Some(prn) } else { None } }
    }
}

/// Whether it passes.
pub(crate) fn passes(outcome: Outcome) -> bool
    ensures { result ≡ true → outcome ≡ Passes }
{
    matches!(outcome, Outcome::Passes)
}

/// Whether it overflows.
fn overflows(outcome: Outcome) -> bool
    ensures { result ≡ is_overflows outcome }
{
    matches!(outcome, Outcome::Overflows)
}

/// Whether it fails.
fn fails(outcome: Outcome) -> bool
    ensures { result ≡ is_fails outcome }
{
    matches!(outcome, Outcome::Fails)
}

/// Whether it straddles.
fn straddles(outcome: Outcome) -> bool
    ensures { result ≡ is_straddles outcome }
{
    matches!(outcome, Outcome::Straddles)
}

impl Tally {
    /// That of no row.
    pub(crate) fn new() -> Tally
        ensures { (outcome : Removal → Outcome) → IsTally result outcome [] }
    {
        Tally {
            overflows: None,
            fails: None,
            straddles: None,
        }
    }

    /// Counts one row more: one that passes changes nothing.
    pub(crate) fn with(self, prn: u8, came_out: Outcome) -> Tally
        ensures { (outcome : Removal → Outcome) (xs : List Removal) (x : Removal) → IsTally self outcome xs → x.row.prn ≡ prn → outcome x ≡ came_out
            → IsTally result outcome (xs ++ x ∷ []) }
    {
        if passes(came_out) {
            return self;
        }
        Tally {
            overflows: keep_first(self.overflows, overflows(came_out), prn),
            fails: keep_first(self.fails, fails(came_out), prn),
            straddles: keep_first(self.straddles, straddles(came_out), prn),
        }
    }

    /// What the slopes make of the list.
    pub(crate) fn verdict(self) -> Verdict
        ensures { (outcome : Removal → Outcome) (xs : List Removal) → IsTally self outcome xs → result ≡ slopes_of outcome xs }
    {
        match self.overflows {
            Some(prn) => Verdict::Overflow(prn),
            None => match self.fails {
                Some(_) => Verdict::Unavailable(Why::Slope),
                None => match self.straddles {
                    Some(prn) => Verdict::Undecided(Cmp::Slope(prn)),
                    None => Verdict::Available,
                },
            },
        }
    }
}
