// The determinant.

ghost use Rattle.std.specs.Prelude.{◌≡◌, ◌+◌, ◌*◌, ◌^◌, ◌<◌, ◌≤◌, length};
ghost use Rattle.raim_model.specs.Geometry.{Matrix, determinant};
ghost use Rattle.fix_interval.specs.Ends.{IsInside};
ghost use Rattle.fix_interval.specs.Lies.{Lies};
ghost use Rattle.fix_interval.specs.Intervals.{ends, IsWithin, ends_64};
ghost use Rattle.geom_laws.specs.Symmetric.{SymEnds, SymLies, SymInside};
ghost use Rattle.geom_laws.specs.Gram.{sums_of, gram_without_of};
ghost use Rattle.geom_laws.specs.Determinant.{det_of};
ghost use Rattle.geom_inverse.specs.Lines.{entries_ends};
ghost use Rattle.geom_inverse.specs.Views.{rows_ends, sym_ends, IsSymWithin};

use crate::entries::Entries;
use crate::line::Line;
use crate::minors::{laplace, minors, minors_from};
use crate::normal::{difference, entries_of_sums};
use crate::products::narrow76;
use crate::row::Row;
use crate::sym4::Sym4;
use fix_interval::{Iv, Iv64};

/// The entries of a matrix.
#[inline(always)]
fn entries(h: &Sym4) -> Entries
    requires small { IsSymWithin h.now (2 ^ 43 + 2 ^ 7) }
    ensures { entries_ends result ≡ sym_ends h.now }
{
    Entries {
        a11: h.a11.in_64_bits(),
        a12: h.a12.in_64_bits(),
        a13: h.a13.in_64_bits(),
        a14: h.a14.in_64_bits(),
        a22: h.a22.in_64_bits(),
        a23: h.a23.in_64_bits(),
        a24: h.a24.in_64_bits(),
        a33: h.a33.in_64_bits(),
        a34: h.a34.in_64_bits(),
        a44: h.a44.in_64_bits(),
    }
}

/// The determinant, by complementary two by two minors.
#[inline(always)]
fn by_minors(h: &Entries) -> Iv
    ensures exact { ends result ≡ det_of (entries_ends h.now) }
    ensures small { IsWithin result (7 * 2 ^ 60) }
{
    let east = Line {
        e: h.a11,
        n: h.a12,
        u: h.a13,
        k: h.a14,
    };
    let north = Line {
        e: h.a12,
        n: h.a22,
        u: h.a23,
        k: h.a24,
    };
    let up = Line {
        e: h.a13,
        n: h.a23,
        u: h.a33,
        k: h.a34,
    };
    let clock = Line {
        e: h.a14,
        n: h.a24,
        u: h.a34,
        k: h.a44,
    };
    let above = minors(east, north);
    narrow76(laplace(above, minors_from(above.m34, up, clock)))
}

/// The determinant. It holds that of every matrix whose entries lie in those of `h`, symmetric or not.
pub fn det(h: &Sym4) -> Iv
    requires small { IsSymWithin h.now (2 ^ 43 + 2 ^ 7) }
    ensures exact { ends result ≡ det_of (sym_ends h.now) }
    ensures encloses { (X : Matrix) → SymLies (sym_ends h.now) X → Lies (ends result) 38 (determinant X) }
    ensures isotone { (wider : SymEnds) → SymInside (sym_ends h.now) wider → IsInside (ends result) (det_of wider) }
    ensures small { IsWithin result (7 * 2 ^ 60) }
{
    by_minors(&entries(h))
}

/// The same interval, by ends of 64 bits.
#[inline(always)]
fn in_64_bits(a: Iv) -> Iv64
    requires { IsWithin a (7 * 2 ^ 60) }
    ensures { ends_64 result ≡ ends a }
{
    Iv64 {
        lo: a.lo as i64,
        hi: a.hi as i64,
    }
}

/// The determinant as `det` answers it, by ends of 64 bits.
pub fn det_64(h: &Sym4) -> Iv64
    requires small { IsSymWithin h.now (2 ^ 43 + 2 ^ 7) }
    ensures exact { ends_64 result ≡ det_of (sym_ends h.now) }
{
    in_64_bits(det(h))
}

/// The determinant without the row at place `i`, where the sums over all rows are at hand: as `det_64` answers it of the normal matrix of the others.
pub fn det_without(all: &Sym4, rows: &[Row], i: usize) -> Iv64
    requires few { length rows.now ≤ 32 }
    requires place { i < length rows.now }
    requires all { sym_ends all.now ≡ sums_of (rows_ends rows.now) }
    ensures exact { ends_64 result ≡ det_of (gram_without_of (rows_ends rows.now) i) }
{
    in_64_bits(by_minors(&entries_of_sums(&difference(all, rows, i))))
}
