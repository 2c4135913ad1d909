// A store of determinants of lists without two rows: each serves the list without the one row and that without the other. It has
// room for those of 16 rows.
ghost use Rattle.std.specs.Prelude.{◌<◌, List};
ghost use Rattle.geometry_laws.specs.Without.{without};
ghost use Rattle.geom_laws.specs.Rows.{RowEnds};
ghost use Rattle.slope_test.specs.Determinants.{AreWithout, AreDeterminants};
ghost use Rattle.exclusion_subsets.specs.Pairs.{ArePairs};

use fix_interval::Iv64;
use slope_test::Determinants;

/// The most rows that there is room for.
const MOST: usize = 16;

/// Sixteen lines of sixteen: in the line j, at place i, the determinant without the row at place j and the i-th of the others.
#[derive(Drop)]
pub(crate) struct Pairs {
    pub(crate) places: [Option<Iv64>; 256],
}

impl Pairs {
    /// None is worked out.
    pub(crate) fn none() -> Pairs
        ensures { (rows : List RowEnds) → ArePairs result.places rows }
    {
        Pairs {
            places: [None; 256],
        }
    }

    /// Those without the row at place `j` and each row before it.
    fn line(&self, j: usize) -> [Option<Iv64>; 32]
        ensures { (rows : List RowEnds) → ArePairs self.now.places rows → AreWithout result (without j rows) }
    {
        let mut line = [None; 32];
        if j >= MOST {
            return line;
        }
        for i in 0..j {
            line[i] = self.places[MOST * j + i];
        }
        line
    }

    /// Those of the list without the row at place `j`, where those of the whole list are at hand.
    pub(crate) fn of_list(&self, whole: &Determinants, j: usize) -> Determinants
        requires { j < 32 }
        ensures { (rows : List RowEnds) → ArePairs self.now.places rows → AreDeterminants whole.now rows → AreDeterminants result (without j rows) }
    {
        Determinants {
            all: whole.without[j],
            without: self.line(j),
        }
    }

    /// Puts those of the list without the row at place `j`, which has `count` rows, into the lines of the lists behind it.
    pub(crate) fn keep(&mut self, count: usize, j: usize, dets: &Determinants)
        ensures { (rows : List RowEnds) → ArePairs self.old.places rows → AreDeterminants dets.now (without j rows) → ArePairs self.new.places rows }
    {
        for i in j..count.min(MOST - 1) {
            self.places[MOST * (i + 1) + j] = dets.without[i];
        }
    }
}
