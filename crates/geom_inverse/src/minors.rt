// Rows of a normal matrix, and the minors of two of them.

ghost use Rattle.std.specs.Prelude.{◌≡◌, ◌+◌, ◌*◌, ◌^◌};
ghost use Rattle.fix_interval.specs.Intervals.{ends, IsWithin, ends_64, IsWithin64};
ghost use Rattle.geom_laws.specs.Determinant.{crossed_of, laplace_of};
ghost use Rattle.geom_inverse.specs.Lines.{line_ends, minor_ends, line_minors};

use crate::line::Line;
use crate::minor::Minors;
use crate::products::{narrowed, product, small_product};
use crate::wide_sums::{less, plus};
use fix_interval::{Iv, Iv64};

/// A row of its entries.
#[inline(always)]
pub(crate) fn line(e: Iv, n: Iv, u: Iv, k: Iv) -> Line
    requires e_small { IsWithin e (2 ^ 43 + 2 ^ 7) }
    requires n_small { IsWithin n (2 ^ 43 + 2 ^ 7) }
    requires u_small { IsWithin u (2 ^ 43 + 2 ^ 7) }
    requires k_small { IsWithin k (2 ^ 43 + 2 ^ 7) }
    ensures { line_ends result ≡ record { e = ends e; n = ends n; u = ends u; k = ends k } }
{
    Line {
        e: e.in_64_bits(),
        n: n.in_64_bits(),
        u: u.in_64_bits(),
        k: k.in_64_bits(),
    }
}

/// a b - c d.
#[inline(always)]
fn crossed(a: Iv64, b: Iv64, c: Iv64, d: Iv64) -> Iv64
    requires a_small { IsWithin64 a (2 ^ 43 + 2 ^ 7) }
    requires b_small { IsWithin64 b (2 ^ 43 + 2 ^ 7) }
    requires c_small { IsWithin64 c (2 ^ 43 + 2 ^ 7) }
    requires d_small { IsWithin64 d (2 ^ 43 + 2 ^ 7) }
    ensures exact { ends_64 result ≡ crossed_of (ends_64 a) (ends_64 b) (ends_64 c) (ends_64 d) }
    ensures small { IsWithin64 result (2 ^ 49 + 2 ^ 16) }
{
    narrowed(less(small_product(a, b), small_product(c, d)))
}

/// The minors of two rows.
#[inline(always)]
pub(crate) fn minors(p: Line, q: Line) -> Minors
    ensures { minor_ends result ≡ line_minors (line_ends p) (line_ends q) }
{
    Minors {
        m12: crossed(p.e, q.n, p.n, q.e),
        m13: crossed(p.e, q.u, p.u, q.e),
        m14: crossed(p.e, q.k, p.k, q.e),
        m23: crossed(p.n, q.u, p.u, q.n),
        m24: crossed(p.n, q.k, p.k, q.n),
        m34: crossed(p.u, q.k, p.k, q.u),
    }
}

/// The minors of two rows of which the first is known.
#[inline(always)]
pub(crate) fn minors_from(m12: Iv64, p: Line, q: Line) -> Minors
    requires small { IsWithin64 m12 (2 ^ 49 + 2 ^ 16) }
    requires first { ends_64 m12 ≡ crossed_of (ends_64 p.e) (ends_64 q.n) (ends_64 p.n) (ends_64 q.e) }
    ensures { minor_ends result ≡ line_minors (line_ends p) (line_ends q) }
{
    Minors {
        m12,
        m13: crossed(p.e, q.u, p.u, q.e),
        m14: crossed(p.e, q.k, p.k, q.e),
        m23: crossed(p.n, q.u, p.u, q.n),
        m24: crossed(p.n, q.k, p.k, q.n),
        m34: crossed(p.u, q.k, p.k, q.u),
    }
}

/// The sum of the products of complementary minors with their signs, in units of 2^-76.
#[inline(always)]
pub(crate) fn laplace(s: Minors, c: Minors) -> Iv
    ensures exact { ends result ≡ laplace_of (minor_ends s) (minor_ends c) }
    ensures small { IsWithin result (2 ^ 120) }
{
    let two = less(product(s.m12, c.m34), product(s.m13, c.m24));
    let three = plus(two, product(s.m14, c.m23));
    let four = plus(three, product(s.m23, c.m14));
    let five = less(four, product(s.m24, c.m13));
    plus(five, product(s.m34, c.m12))
}
