// Determinants that are worked out once.
ghost use Rattle.std.specs.Prelude.{◌≡◌, ◌+◌, ◌*◌, ◌^◌, ◌≤◌, ◌<◌, List, length};
ghost use Rattle.fix_interval.specs.Intervals.{ends_64};
ghost use Rattle.geometry_laws.specs.Without.{without};
ghost use Rattle.geom_laws.specs.Gram.{sums_of, gram_of};
ghost use Rattle.geom_laws.specs.Rows.{RowEnds};
ghost use Rattle.geom_inverse.specs.Views.{rows_ends, sym_ends, IsSymWithin};
ghost use Rattle.slope_laws.specs.ShiftSlopes.{determinant_of};
ghost use Rattle.slope_test.specs.Determinants.{AreDeterminants};

use fix_interval::Iv64;
use geom_inverse::{Row, Sym4, det_64, det_without};

/// The determinants of a list of at most 32 rows, and of it without the row at each place, as far as they are worked out.
#[derive(Clone, Copy)]
pub struct Determinants {
    pub all: Option<Iv64>,
    pub without: [Option<Iv64>; 32],
}

impl Determinants {
    /// None is worked out.
    pub fn none() -> Determinants
        ensures { (rows : List RowEnds) → AreDeterminants result rows }
    {
        Determinants {
            all: None,
            without: [None; 32],
        }
    }

    /// That of all rows, where their matrix is at hand.
    pub(crate) fn of_all(&self, gram: &Sym4) -> Iv64
        requires small { IsSymWithin gram.now (2 ^ 43 + 2 ^ 7) }
        ensures { (rows : List RowEnds) → AreDeterminants self.now rows → sym_ends gram.now ≡ gram_of rows → ends_64 result ≡ determinant_of rows }
    {
        match self.all {
            Some(known) => known,
            None => det_64(gram),
        }
    }

    /// That without the row at place `i`, where the sums over all rows are at hand. It is worked out then.
    pub(crate) fn of_all_but(&mut self, all: &Sym4, rows: &[Row], i: usize) -> Iv64
        requires few { length rows.now ≤ 32 }
        requires place { i < length rows.now }
        requires all { sym_ends all.now ≡ sums_of (rows_ends rows.now) }
        requires known { AreDeterminants self.old (rows_ends rows.now) }
        ensures value { ends_64 result ≡ determinant_of (without i (rows_ends rows.now)) }
        ensures known { AreDeterminants self.new (rows_ends rows.now) }
    {
        if let Some(known) = self.without[i] {
            return known;
        }
        let determinant = det_without(all, rows, i);
        self.without[i] = Some(determinant);
        determinant
    }
}
