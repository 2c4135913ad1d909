// What a row has of the adjugate: the determinant times the change of the position by a fault of the row's satellite.

ghost use Rattle.std.specs.Prelude.{◌≡◌, ◌*◌, ◌^◌};
ghost use Rattle.raim_model.specs.Geometry.{East, North, Up, Row as ExactRow, Matrix, apply};
ghost use Rattle.fix_interval.specs.Ends.{IsInside};
ghost use Rattle.fix_interval.specs.Lies.{Lies};
ghost use Rattle.fix_interval.specs.Intervals.{ends, IsWithin};
ghost use Rattle.geom_laws.specs.Rows.{RowEnds, RowLies, RowInside};
ghost use Rattle.geom_laws.specs.Symmetric.{SymEnds, SymLies, SymInside};
ghost use Rattle.geom_laws.specs.Adjugate.{inner_of, alpha_of};
ghost use Rattle.geom_inverse.specs.Views.{row_ends, sym_ends, IsSymWithin};

use crate::products::{narrow76, product};
use crate::row::Row;
use crate::sym4::Sym4;
use crate::wide_sums::plus;
use fix_interval::Iv;

/// The sum of the products of four entries with the parts of a row.
#[inline(always)]
fn inner(a: Iv, b: Iv, c: Iv, d: Iv, row: &Row) -> Iv
    requires a_small { IsWithin a (13 * 2 ^ 52) }
    requires b_small { IsWithin b (13 * 2 ^ 52) }
    requires c_small { IsWithin c (13 * 2 ^ 52) }
    requires d_small { IsWithin d (13 * 2 ^ 52) }
    ensures { ends result ≡ inner_of (ends a) (ends b) (ends c) (ends d) (row_ends row.now) }
{
    let two = plus(
        product(a.in_64_bits(), row.e),
        product(b.in_64_bits(), row.n),
    );
    let three = plus(two, product(c.in_64_bits(), row.u));
    narrow76(plus(three, product(d.in_64_bits(), row.k)))
}

/// The change to the east, times the determinant.
pub fn alpha_east(adj: &Sym4, row: &Row) -> Iv
    requires small { IsSymWithin adj.now (13 * 2 ^ 52) }
    ensures exact { ends result ≡ alpha_of (sym_ends adj.now) (row_ends row.now) East }
    ensures encloses { (X : Matrix) (g : ExactRow) → SymLies (sym_ends adj.now) X → RowLies (row_ends row.now) g
        → Lies (ends result) 38 (apply X g East) }
    ensures isotone { (a : SymEnds) (r : RowEnds) → SymInside (sym_ends adj.now) a → RowInside (row_ends row.now) r
        → IsInside (ends result) (alpha_of a r East) }
    ensures small { IsWithin result (7 * 2 ^ 55) }
{
    inner(adj.a11, adj.a12, adj.a13, adj.a14, row)
}

/// The change to the north, times the determinant.
pub fn alpha_north(adj: &Sym4, row: &Row) -> Iv
    requires small { IsSymWithin adj.now (13 * 2 ^ 52) }
    ensures exact { ends result ≡ alpha_of (sym_ends adj.now) (row_ends row.now) North }
    ensures encloses { (X : Matrix) (g : ExactRow) → SymLies (sym_ends adj.now) X → RowLies (row_ends row.now) g
        → Lies (ends result) 38 (apply X g North) }
    ensures isotone { (a : SymEnds) (r : RowEnds) → SymInside (sym_ends adj.now) a → RowInside (row_ends row.now) r
        → IsInside (ends result) (alpha_of a r North) }
    ensures small { IsWithin result (7 * 2 ^ 55) }
{
    inner(adj.a12, adj.a22, adj.a23, adj.a24, row)
}

/// The change up, times the determinant.
pub fn alpha_up(adj: &Sym4, row: &Row) -> Iv
    requires small { IsSymWithin adj.now (13 * 2 ^ 52) }
    ensures exact { ends result ≡ alpha_of (sym_ends adj.now) (row_ends row.now) Up }
    ensures encloses { (X : Matrix) (g : ExactRow) → SymLies (sym_ends adj.now) X → RowLies (row_ends row.now) g
        → Lies (ends result) 38 (apply X g Up) }
    ensures isotone { (a : SymEnds) (r : RowEnds) → SymInside (sym_ends adj.now) a → RowInside (row_ends row.now) r
        → IsInside (ends result) (alpha_of a r Up) }
    ensures small { IsWithin result (7 * 2 ^ 55) }
{
    inner(adj.a13, adj.a23, adj.a33, adj.a34, row)
}
