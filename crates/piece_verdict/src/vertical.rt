// What a vertical verdict on a piece needs of a case.
ghost use Rattle.std.specs.Prelude.{◌≡◌, ◌+◌, ◌≤◌, ◌<◌, ℤ, ◌≤ℤ◌, length, map};
ghost use Rattle.raim_model.specs.CaseCuts.{MayBeJudged};
ghost use Rattle.raim_model.specs.Level.{Level};
ghost use Rattle.raim_model.specs.PointVerdict.{least_count};
ghost use Rattle.raim_model.specs.Ranges.{IsLength};
ghost use Rattle.raim_model.specs.Solution.{Solution, rows_of};
ghost use Rattle.fix_interval.specs.Intervals.{ends};
ghost use Rattle.slope_laws.specs.Rows.{NamedRowsLie};
ghost use Rattle.slope_test.specs.Named.{named};
ghost use Rattle.verdict_laws.specs.PieceVerdict.{kappa_over};
ghost use Rattle.case_laws.specs.PieceVerdict.{seen_of};
ghost use Rattle.piece_verdict.specs.Looks.{AreLooks, LeavesLooks, prns_of};

use crate::case::Case;
use crate::factor::kappa;
use crate::looks::Looks;
use crate::seen::Seen;
use fix_interval::Iv;
use slope_test::Marks;
use std::sync::ledger::Ledger;
use step_counter::Steps;

impl Case {
    /// What is seen of the usable satellites from the millisecond `first` to `last`, in one step. It takes no memory.
    pub fn looks<L: Ledger>(&self, first: i64, last: i64, steps: &mut Steps<L>) -> Looks
        requires ordered { first ≤ℤ last }
        requires rule { MayBeJudged self.now first last }
        ensures exact { AreLooks (least_count self.now.limits.exclude) (seen_of self.now first last) result }
        ensures step { steps.new ≡ steps.old + 1 }
        // too few: every solution, at every level and millisecond of the piece, sees fewer satellites than the test asks for
        ensures few { result ≡ Looks.Few → (N : Level) (t : ℤ) (s : Solution N self.now t) → first ≤ℤ t → t ≤ℤ last
            → length (rows_of s) < least_count self.now.limits.exclude }
        // rows: every solution sees the satellites of the rows
        ensures satellites { (rows : _) → result ≡ Looks.Rows rows → (N : Level) (t : ℤ) (s : Solution N self.now t) → first ≤ℤ t → t ≤ℤ last
            → map (λ row. row.prn) (named rows.items) ≡ prns_of s }
        // and its weighed rows lie in them
        ensures rows { (rows : _) → result ≡ Looks.Rows rows → (N : Level) (t : ℤ) (s : Solution N self.now t) → first ≤ℤ t → t ≤ℤ last
            → NamedRowsLie (named rows.items) (rows_of s) }
        // a piece inside has too few too, or rows of the same satellites inside these
        ensures isotone { (a b : ℤ) (inside : Looks) → first ≤ℤ a → a ≤ℤ b → b ≤ℤ last
            → AreLooks (least_count self.now.limits.exclude) (seen_of self.now a b) inside → LeavesLooks result inside }
    {
        steps.tick();
        let mut known = Marks::none();
        let mut seen = Seen::new();
        let here = self.here(first, last, None);
        let found = self.looked(here, first, last, &mut known, &mut seen);
        seen.looks(found)
    }

    /// The squared bias for `n` satellites over the square of an alert limit in millimetres, in units of 2^-38. It takes no
    /// memory.
    pub fn kappa_over(&self, n: usize, limit_mm: u32) -> Iv
        requires enough { 5 ≤ n }
        requires most { n ≤ 32 }
        requires limit { IsLength limit_mm }
        ensures { ends result ≡ kappa_over self.now.limits limit_mm n }
    {
        kappa(&self.limits, limit_mm, n)
    }

    /// Whether a faulty satellite is to be excluded, and not only detected.
    pub fn excludes(&self) -> bool
        ensures { result ≡ self.now.limits.exclude }
    {
        self.limits.exclude
    }
}
