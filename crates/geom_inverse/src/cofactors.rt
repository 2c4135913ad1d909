// The adjugate: the determinant times the inverse.

ghost use Rattle.std.specs.Prelude.{◌≡◌, ◌+◌, ◌*◌, ◌^◌};
ghost use Rattle.raim_model.specs.Geometry.{Matrix};
ghost use Rattle.fix_interval.specs.Intervals.{ends, IsWithin};
ghost use Rattle.geometry_laws.specs.Minors.{adjugate as exact_adjugate};
ghost use Rattle.geom_laws.specs.Symmetric.{SymEnds, SymLies, SymInside};
ghost use Rattle.fix_interval.specs.Sums.{neg_of};
ghost use Rattle.geom_laws.specs.Adjugate.{adjugate_of};
ghost use Rattle.geom_inverse.specs.Lines.{line_ends, minor_ends, along_east, along_north, along_up, along_clock};
ghost use Rattle.geom_inverse.specs.Views.{sym_ends, IsSymWithin};

use crate::line::Line;
use crate::minor::Minors;
use crate::minors::{line, minors};
use crate::products::{narrow76, product};
use crate::sym4::Sym4;
use crate::wide_sums::{less, plus};
use fix_interval::Iv;

/// Nothing, at any scale.
const ZERO: Iv = Iv { lo: 0, hi: 0 };

/// The three by three minor of a row and of the two rows of `m`, without the column to the east.
#[inline(always)]
fn without_east(b: Line, m: Minors) -> Iv
    ensures exact { ends result ≡ along_east (line_ends b) (minor_ends m) }
    ensures small { IsWithin result (13 * 2 ^ 52) }
{
    let two = less(product(b.n, m.m34), product(b.u, m.m24));
    narrow76(plus(two, product(b.k, m.m23)))
}

/// The three by three minor of a row and of the two rows of `m`, without the column to the north.
#[inline(always)]
fn without_north(b: Line, m: Minors) -> Iv
    ensures exact { ends result ≡ along_north (line_ends b) (minor_ends m) }
    ensures small { IsWithin result (13 * 2 ^ 52) }
{
    let two = less(product(b.e, m.m34), product(b.u, m.m14));
    narrow76(plus(two, product(b.k, m.m13)))
}

/// The three by three minor of a row and of the two rows of `m`, without the column up.
#[inline(always)]
fn without_up(b: Line, m: Minors) -> Iv
    ensures exact { ends result ≡ along_up (line_ends b) (minor_ends m) }
    ensures small { IsWithin result (13 * 2 ^ 52) }
{
    let two = less(product(b.e, m.m24), product(b.n, m.m14));
    narrow76(plus(two, product(b.k, m.m12)))
}

/// The three by three minor of a row and of the two rows of `m`, without the column of the clock.
#[inline(always)]
fn without_clock(b: Line, m: Minors) -> Iv
    ensures exact { ends result ≡ along_clock (line_ends b) (minor_ends m) }
    ensures small { IsWithin result (13 * 2 ^ 52) }
{
    let two = less(product(b.e, m.m23), product(b.n, m.m13));
    narrow76(plus(two, product(b.u, m.m12)))
}

#[inline(always)]
fn negative(a: Iv) -> Iv
    requires { IsWithin a (13 * 2 ^ 52) }
    ensures { ends result ≡ neg_of (ends a) }
{
    less(ZERO, a)
}

/// The adjugate, by cofactors. It holds that of every matrix whose entries lie in those of `h`, symmetric or not.
pub fn adjugate(h: &Sym4) -> Sym4
    requires small { IsSymWithin h.now (2 ^ 43 + 2 ^ 7) }
    ensures exact { sym_ends result ≡ adjugate_of (sym_ends h.now) }
    ensures encloses { (X : Matrix) → SymLies (sym_ends h.now) X → SymLies (sym_ends result) (exact_adjugate X) }
    ensures isotone { (wider : SymEnds) → SymInside (sym_ends h.now) wider → SymInside (sym_ends result) (adjugate_of wider) }
    ensures small { IsSymWithin result (13 * 2 ^ 52) }
{
    let east = line(h.a11, h.a12, h.a13, h.a14);
    let north = line(h.a12, h.a22, h.a23, h.a24);
    let up = line(h.a13, h.a23, h.a33, h.a34);
    let clock = line(h.a14, h.a24, h.a34, h.a44);
    let below = minors(up, clock);
    let around = minors(north, clock);
    let above = minors(north, up);
    Sym4 {
        a11: without_east(north, below),
        a12: negative(without_north(north, below)),
        a13: without_up(north, below),
        a14: negative(without_clock(north, below)),
        a22: without_north(east, below),
        a23: negative(without_up(east, below)),
        a24: without_clock(east, below),
        a33: without_up(east, around),
        a34: negative(without_clock(east, around)),
        a44: without_clock(east, above),
    }
}
