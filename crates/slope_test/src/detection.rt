// Fault detection, where some slopes may be known to pass.
ghost use Rattle.std.specs.Prelude.{◌≡◌, ◌≤◌, ◌<◌, ◌*◌, ◌^◌, ◌↔◌, List, length, slice_index_or, false};
ghost use Rattle.fractions.specs.Fraction.{Fraction};
ghost use Rattle.raim_model.specs.declared.Why.TheVariants.{Few};
ghost use Rattle.raim_model.specs.Geometry.{Row as ExactRow};
ghost use Rattle.raim_model.specs.PointVerdict.{reason_of};
ghost use Rattle.fix_interval.specs.Ends.{Ends, IsInside};
ghost use Rattle.fix_interval.specs.Intervals.{ends, ends_64};
ghost use Rattle.fix_interval.specs.Lies.{Lies};
ghost use Rattle.geometry_laws.specs.Without.{without};
ghost use Rattle.geom_laws.specs.Gram.{sums_of, gram_of};
ghost use Rattle.geom_laws.specs.Adjugate.{adjugate_of};
ghost use Rattle.geom_inverse.specs.declared.Row.{Row};
ghost use Rattle.geom_inverse.specs.Views.{row_ends, rows_ends, sym_ends, IsSymWithin};
ghost use Rattle.slope_laws.specs.Rows.{NamedRow, NamedRowsLie, NamedRowsInside, removals};
ghost use Rattle.slope_laws.specs.Slopes.{slopes_of};
ghost use Rattle.slope_laws.specs.ShiftSlopes.{squared_shift, outcome_of, determinant_of, detect_of};
ghost use Rattle.slope_laws.specs.Hold.{Tells, LeavesVerdict};
ghost use Rattle.slope_test.specs.Determinants.{AreDeterminants};
ghost use Rattle.slope_test.specs.Marks.{SlopesPass};
ghost use Rattle.slope_test.specs.Named.{named, slopes_over};

use crate::determinants::Determinants;
use crate::marks::Marks;
use crate::slope::{one_slope, squared};
use crate::tally::{Tally, passes};
use fix_interval::{Iv, Iv64};
use geom_inverse::{Row, Sym4, adjugate, gram_of_sums, sums};
use raim_model::{Cmp, Verdict, Why};
use slope_laws::{Outcome, Shift};

/// The least determinant of a geometry that counts as regular, 2^-10 in units of 2^-38.
const LEAST: i64 = 268435456;

/// How the slope of a row compares, where the adjugate and the determinant of all rows and the determinant of those without it
/// are at hand.
fn slope_at(
    shift: Shift,
    row: &Row,
    adj: &Sym4,
    determinant: Iv64,
    less: Iv64,
    kappa: Iv,
) -> Outcome
    requires adj_small { IsSymWithin adj.now (13 * 2 ^ 52) }
    ensures { result ≡ outcome_of shift (sym_ends adj.now) (ends_64 determinant) (ends_64 less) (row_ends row.now) (ends kappa) }
{
    one_slope(squared(shift, adj, row), determinant, less, kappa)
}

/// How the slope of the row at place `i` compares, where the sums, the adjugate and the determinant of all rows are at hand and it
/// may be known that it passes; if it does, that is known then.
fn slope_told(
    shift: Shift,
    rows: &[Row],
    i: usize,
    all: &Sym4,
    adj: &Sym4,
    determinant: Iv64,
    kappa: Iv,
    known: &mut Marks,
    dets: &mut Determinants,
) -> Outcome
    requires few { length rows.now ≤ 32 }
    requires place { i < length rows.now }
    requires all { sym_ends all.now ≡ sums_of (rows_ends rows.now) }
    requires adj { sym_ends adj.now ≡ adjugate_of (gram_of (rows_ends rows.now)) }
    requires adj_small { IsSymWithin adj.now (13 * 2 ^ 52) }
    requires determinant { ends_64 determinant ≡ determinant_of (rows_ends rows.now) }
    requires known { SlopesPass shift (named rows.now) (ends kappa) known.old.places }
    requires dets { AreDeterminants dets.old (rows_ends rows.now) }
    ensures outcome { (row : Row) → result ≡ outcome_of shift (sym_ends adj.now) (ends_64 determinant) (determinant_of (without i (rows_ends rows.now))) (row_ends (slice_index_or rows.now i row)) (ends kappa) }
    ensures known { SlopesPass shift (named rows.now) (ends kappa) known.new.places }
    ensures dets { AreDeterminants dets.new (rows_ends rows.now) }
{
    if known.holds(i) {
        return Outcome::Passes;
    }
    let less = dets.of_all_but(all, rows, i);
    let outcome = slope_at(shift, &rows[i], adj, determinant, less, kappa);
    if passes(outcome) {
        known.add(i);
    }
    outcome
}

/// What the slopes of all rows make of the list.
fn slopes_told(
    shift: Shift,
    rows: &[Row],
    all: &Sym4,
    adj: &Sym4,
    determinant: Iv64,
    kappa: Iv,
    known: &mut Marks,
    dets: &mut Determinants,
) -> Verdict
    requires few { length rows.now ≤ 32 }
    requires all { sym_ends all.now ≡ sums_of (rows_ends rows.now) }
    requires adj { sym_ends adj.now ≡ adjugate_of (gram_of (rows_ends rows.now)) }
    requires adj_small { IsSymWithin adj.now (13 * 2 ^ 52) }
    requires determinant { ends_64 determinant ≡ determinant_of (rows_ends rows.now) }
    requires known { SlopesPass shift (named rows.now) (ends kappa) known.old.places }
    requires dets { AreDeterminants dets.old (rows_ends rows.now) }
    ensures value { result ≡ slopes_of (slopes_over shift rows.now (ends kappa)) (removals (named rows.now)) }
    ensures known { SlopesPass shift (named rows.now) (ends kappa) known.new.places }
    ensures dets { AreDeterminants dets.new (rows_ends rows.now) }
{
    let mut tally = Tally::new();
    for i in 0..rows.len() {
        let outcome = slope_told(shift, rows, i, all, adj, determinant, kappa, known, dets);
        tally = tally.with(rows[i].prn, outcome);
    }
    tally.verdict()
}

/// The answer of `detect`, where the sums over the rows are at hand, and perhaps some determinants. Those that are worked out are
/// known then.
pub fn detect_by_sums(
    shift: Shift,
    rows: &[Row],
    all: &Sym4,
    kappa: Iv,
    known: &mut Marks,
    dets: &mut Determinants,
) -> Verdict
    requires few { length rows.now ≤ 32 }
    requires all { sym_ends all.now ≡ sums_of (rows_ends rows.now) }
    requires known { SlopesPass shift (named rows.now) (ends kappa) known.old.places }
    requires dets { AreDeterminants dets.old (rows_ends rows.now) }
    ensures exact { result ≡ detect_of shift (named rows.now) (ends kappa) }
    ensures known { SlopesPass shift (named rows.now) (ends kappa) known.new.places }
    ensures dets { AreDeterminants dets.new (rows_ends rows.now) }
{
    if rows.len() < 5 {
        return Verdict::Unavailable(Why::Few);
    }
    let gram = gram_of_sums(all, rows);
    let determinant = dets.of_all(&gram);
    if determinant.hi < LEAST {
        return Verdict::Unavailable(Why::Singular);
    }
    if determinant.lo < LEAST {
        return Verdict::Undecided(Cmp::Det);
    }
    let adj = adjugate(&gram);
    slopes_told(shift, rows, all, &adj, determinant, kappa, known, dets)
}

/// The test of a list of at most 32 rows, in rising PRN, for fault detection: whether the geometry is regular and each squared
/// slope of the shift, times `kappa`, the squared ratio of the bias to the alert limit, is within 1. The slopes at the places of
/// `known` are known to pass, and are not worked out. Those that pass are known then.
pub fn detect(shift: Shift, rows: &[Row], kappa: Iv, known: &mut Marks) -> Verdict
    requires few { length rows.now ≤ 32 }
    requires known { SlopesPass shift (named rows.now) (ends kappa) known.old.places }
    ensures exact { result ≡ detect_of shift (named rows.now) (ends kappa) }
    ensures known { SlopesPass shift (named rows.now) (ends kappa) known.new.places }
    // what is decided is the reason of every choice of rows and factors inside, or that there is none
    ensures right { (gs : List ExactRow) (k k_less : Fraction) → NamedRowsLie (named rows.now) gs → Lies (ends kappa) 38 k
        → Tells result (reason_of (squared_shift shift) false k k_less gs) }
    // what is decided on wider rows is decided on these
    ensures isotone { (wide : List NamedRow) (wide_kappa : Ends) → NamedRowsInside (named rows.now) wide → IsInside (ends kappa) wide_kappa
        → LeavesVerdict (detect_of shift wide wide_kappa) result }
    // there are too few exactly below five
    ensures few { result ≡ Verdict.Unavailable Few ↔ length rows.now < 5 }
{
    let all = sums(rows);
    let mut dets = Determinants::none();
    detect_by_sums(shift, rows, &all, kappa, known, &mut dets)
}
