// Fault exclusion, where some slopes and some lists may be known to pass.
ghost use Rattle.std.specs.Prelude.{◌≡◌, ◌≤◌, ◌<◌, ◌↔◌, List, length, slice_index_or, true};
ghost use Rattle.fractions.specs.Fraction.{Fraction};
ghost use Rattle.raim_model.specs.declared.Why.TheVariants.{Few};
ghost use Rattle.raim_model.specs.Geometry.{Row as ExactRow};
ghost use Rattle.raim_model.specs.PointVerdict.{reason_of};
ghost use Rattle.fix_interval.specs.Ends.{Ends, IsInside};
ghost use Rattle.fix_interval.specs.Intervals.{ends};
ghost use Rattle.fix_interval.specs.Lies.{Lies};
ghost use Rattle.geometry_laws.specs.Without.{without};
ghost use Rattle.geom_laws.specs.Gram.{sums_of};
ghost use Rattle.geom_inverse.specs.declared.Row.{Row};
ghost use Rattle.geom_inverse.specs.Views.{rows_ends, sym_ends};
ghost use Rattle.slope_laws.specs.Rows.{NamedRow, NamedRowsLie, NamedRowsInside, removals};
ghost use Rattle.slope_laws.specs.Subsets.{named_without, first_open};
ghost use Rattle.slope_laws.specs.ShiftSlopes.{squared_shift, detect_of, exclude_of};
ghost use Rattle.slope_laws.specs.Hold.{Tells, LeavesVerdict};
ghost use Rattle.slope_test.specs.Determinants.{AreDeterminants};
ghost use Rattle.slope_test.specs.Marks.{SlopesPass, ListsPass};
ghost use Rattle.slope_test.specs.Named.{named, is_pass};
ghost use Rattle.exclusion_subsets.specs.Pairs.{ArePairs};

use crate::pairs::Pairs;
use fix_interval::Iv;
use geom_inverse::{Row, Sym4, sums, sums_less};
use raim_model::{Cmp, Verdict, Why};
use slope_laws::Shift;
use slope_test::{Determinants, Marks, detect_by_sums};

/// The verdict of a list without the satellite `prn`.
fn name_without(prn: u8, verdict: Verdict) -> Verdict
    ensures { result ≡ named_without prn verdict }
{
    match verdict {
        Verdict::Undecided(Cmp::Det) => Verdict::Undecided(Cmp::DetWithout(prn)),
        Verdict::Undecided(Cmp::Slope(tested)) => {
            Verdict::Undecided(Cmp::SlopeWithout(prn, tested))
        }
        _ => verdict,
    }
}

/// Whether a list passes.
fn passes(verdict: Verdict) -> bool
    ensures { result ≡ is_pass verdict }
{
    matches!(verdict, Verdict::Available)
}

/// The verdict on the list `rest` without the row at place `j`, where the sums over all rows are at hand, and perhaps determinants
/// of them and of lists without two. Those that are worked out are known then.
fn subset(
    shift: Shift,
    rows: &[Row],
    all: &Sym4,
    j: usize,
    rest: &[Row],
    kappa_less: Iv,
    whole: &Determinants,
    pairs: &mut Pairs,
) -> Verdict
    requires few { length rows.now ≤ 32 }
    requires place { j < length rows.now }
    requires all { sym_ends all.now ≡ sums_of (rows_ends rows.now) }
    requires rest { rest.now ≡ without j rows.now }
    requires whole { AreDeterminants whole.now (rows_ends rows.now) }
    requires pairs { ArePairs pairs.old.places (rows_ends rows.now) }
    ensures verdict { result ≡ detect_of shift (without j (named rows.now)) (ends kappa_less) }
    ensures pairs { ArePairs pairs.new.places (rows_ends rows.now) }
{
    let all_less = sums_less(all, rows, j);
    let mut known = Marks::none();
    let mut dets = pairs.of_list(whole, j);
    let verdict = detect_by_sums(shift, rest, &all_less, kappa_less, &mut known, &mut dets);
    pairs.keep(rest.len(), j, &dets);
    verdict
}

/// The same with its name, where it may be known that the list passes; if it does, that is known then.
fn subset_told(
    shift: Shift,
    rows: &[Row],
    all: &Sym4,
    j: usize,
    rest: &[Row],
    kappa_less: Iv,
    known: &mut Marks,
    whole: &Determinants,
    pairs: &mut Pairs,
) -> Verdict
    requires few { length rows.now ≤ 32 }
    requires place { j < length rows.now }
    requires all { sym_ends all.now ≡ sums_of (rows_ends rows.now) }
    requires rest { rest.now ≡ without j rows.now }
    requires known { ListsPass shift (named rows.now) (ends kappa_less) known.old.places }
    requires whole { AreDeterminants whole.now (rows_ends rows.now) }
    requires pairs { ArePairs pairs.old.places (rows_ends rows.now) }
    ensures verdict { (row : Row) → result ≡ named_without (slice_index_or rows.now j row).prn (detect_of shift (without j (named rows.now)) (ends kappa_less)) }
    ensures known { ListsPass shift (named rows.now) (ends kappa_less) known.new.places }
    ensures pairs { ArePairs pairs.new.places (rows_ends rows.now) }
{
    if known.holds(j) {
        return Verdict::Available;
    }
    let detected = subset(shift, rows, all, j, rest, kappa_less, whole, pairs);
    if passes(detected) {
        known.add(j);
    }
    name_without(rows[j].prn, detected)
}

/// The first verdict on a list without one row that does not pass.
fn subsets_told(
    shift: Shift,
    rows: &[Row],
    all: &Sym4,
    kappa_less: Iv,
    known: &mut Marks,
    whole: &Determinants,
) -> Verdict
    requires few { length rows.now ≤ 32 }
    requires some { 1 ≤ length rows.now }
    requires all { sym_ends all.now ≡ sums_of (rows_ends rows.now) }
    requires known { ListsPass shift (named rows.now) (ends kappa_less) known.old.places }
    requires whole { AreDeterminants whole.now (rows_ends rows.now) }
    ensures value { result ≡ first_open (λ rest. detect_of shift rest (ends kappa_less)) (removals (named rows.now)) }
    ensures known { ListsPass shift (named rows.now) (ends kappa_less) known.new.places }
{
    let mut rest = [rows[0]; 32];
    let last = rows.len() - 1;
    for i in 0..last {
        rest[i] = rows[i + 1];
    }
    let mut pairs = Pairs::none();
    for j in 0..rows.len() {
        let verdict = subset_told(
            shift,
            rows,
            all,
            j,
            &rest[..last],
            kappa_less,
            known,
            whole,
            &mut pairs,
        );
        if !passes(verdict) {
            return verdict;
        }
        rest[j] = rows[j];
    }
    Verdict::Available
}

/// The test of a list of rows and of each without one.
fn excluded(
    shift: Shift,
    rows: &[Row],
    kappa: Iv,
    kappa_less: Iv,
    slopes: &mut Marks,
    lists: &mut Marks,
) -> Verdict
    requires few { length rows.now ≤ 32 }
    requires slopes { SlopesPass shift (named rows.now) (ends kappa) slopes.old.places }
    requires lists { ListsPass shift (named rows.now) (ends kappa_less) lists.old.places }
    ensures exact { result ≡ exclude_of shift (named rows.now) (ends kappa) (ends kappa_less) }
    ensures slopes { SlopesPass shift (named rows.now) (ends kappa) slopes.new.places }
    ensures lists { ListsPass shift (named rows.now) (ends kappa_less) lists.new.places }
{
    if rows.len() < 6 {
        return Verdict::Unavailable(Why::Few);
    }
    let all = sums(rows);
    let mut dets = Determinants::none();
    let whole = detect_by_sums(shift, rows, &all, kappa, slopes, &mut dets);
    if !passes(whole) {
        return whole;
    }
    subsets_told(shift, rows, &all, kappa_less, lists, &dets)
}

/// The test of a list of at most 32 rows, in rising PRN, for fault exclusion: that of `detect` on the whole list under `kappa`, and then
/// on each list without one row, by rising PRN of the row removed, under `kappa_less`, the factor for one row fewer. The slopes of all rows
/// at the places of `slopes`, and the lists without the row at a place of `lists`, are known to pass, and are not worked out. Those
/// that pass are known then.
pub fn exclude(
    shift: Shift,
    rows: &[Row],
    kappa: Iv,
    kappa_less: Iv,
    slopes: &mut Marks,
    lists: &mut Marks,
) -> Verdict
    requires few { length rows.now ≤ 32 }
    requires slopes { SlopesPass shift (named rows.now) (ends kappa) slopes.old.places }
    requires lists { ListsPass shift (named rows.now) (ends kappa_less) lists.old.places }
    ensures exact { result ≡ exclude_of shift (named rows.now) (ends kappa) (ends kappa_less) }
    ensures slopes { SlopesPass shift (named rows.now) (ends kappa) slopes.new.places }
    ensures lists { ListsPass shift (named rows.now) (ends kappa_less) lists.new.places }
    // what is decided is the reason of every choice of rows and factors inside, or that there is none
    ensures right { (gs : List ExactRow) (k k_less : Fraction) → NamedRowsLie (named rows.now) gs → Lies (ends kappa) 38 k → Lies (ends kappa_less) 38 k_less
        → Tells result (reason_of (squared_shift shift) true k k_less gs) }
    // what is decided on wider rows is decided on these
    ensures isotone { (wide : List NamedRow) (wide_kappa wide_less : Ends) → NamedRowsInside (named rows.now) wide → IsInside (ends kappa) wide_kappa → IsInside (ends kappa_less) wide_less
        → LeavesVerdict (exclude_of shift wide wide_kappa wide_less) result }
    // there are too few exactly below six
    ensures few { result ≡ Verdict.Unavailable Few ↔ length rows.now < 6 }
{
    excluded(shift, rows, kappa, kappa_less, slopes, lists)
}
