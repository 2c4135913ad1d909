// Sums and differences of wide intervals, as those of `fix_interval`, for use within one function.

ghost use Rattle.std.specs.Prelude.{◌≡◌, ◌^◌, ◌+ℤ◌, ◌-ℤ◌};
ghost use Rattle.fix_interval.specs.Sums.{add_of, sub_of};
ghost use Rattle.fix_interval.specs.Intervals.{ends, IsWithin};

use fix_interval::Iv;

#[inline(always)]
pub(crate) fn plus(a: Iv, b: Iv) -> Iv
    requires a_small { IsWithin a (2 ^ 125) }
    requires b_small { IsWithin b (2 ^ 125) }
    ensures lo { result.lo ≡ a.lo +ℤ b.lo }
    ensures hi { result.hi ≡ a.hi +ℤ b.hi }
    ensures exact { ends result ≡ add_of (ends a) (ends b) }
{
    Iv {
        lo: a.lo + b.lo,
        hi: a.hi + b.hi,
    }
}

#[inline(always)]
pub(crate) fn less(a: Iv, b: Iv) -> Iv
    requires a_small { IsWithin a (2 ^ 125) }
    requires b_small { IsWithin b (2 ^ 125) }
    ensures lo { result.lo ≡ a.lo -ℤ b.hi }
    ensures hi { result.hi ≡ a.hi -ℤ b.lo }
    ensures exact { ends result ≡ sub_of (ends a) (ends b) }
{
    Iv {
        lo: a.lo - b.hi,
        hi: a.hi - b.lo,
    }
}
