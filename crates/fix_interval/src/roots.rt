// The square root of an interval.

ghost use Rattle.std.specs.Prelude.{◌≡◌, pos, ◌+◌, ◌*◌, ◌^◌, ◌<◌, ◌≤◌, ◌≤ℤ◌};
ghost use Rattle.fractions.specs.Fraction.{Fraction, zeroᶠ, ◌≤ᶠ◌};
ghost use Rattle.whole_numbers.specs.Root.{root_of};
ghost use Rattle.raim_model.specs.Level.{Level};
ghost use Rattle.raim_model.specs.Root.{IsRoot};
ghost use Rattle.fix_interval.specs.Ends.{Ends, IsInside};
ghost use Rattle.fix_interval.specs.Lies.{Lies};
ghost use Rattle.fix_interval.specs.Roots.{sqrt_of};
ghost use Rattle.fix_interval.specs.Intervals.{ends};

use crate::interval::Iv;

/// One of Newton's steps toward the square root of `n`, from `x`.
fn nearer(n: u64, x: u64) -> u64
    requires n_small { n < 2 ^ 62 }
    requires positive { 0 < x }
    requires small { x < 2 ^ 62 }
    ensures positive { 0 < result }
    ensures small { result < 2 ^ 62 }
{
    ((x + n / x) / 2).max(1)
}

/// A number near the square root of `n`, which five of Newton's steps on its 62 leading bits find. Nothing is promised of
/// how near it is: that only makes the root quick to find.
fn near_root(n: u128) -> u128
    ensures positive { 0 < result }
    ensures small { result ≤ 2 ^ 64 }
{
    let bits = 128 - n.leading_zeros();
    let half = bits.saturating_sub(61) / 2;
    let leading = ((n >> (2 * half)) % 4611686018427387904) as u64;
    let start = 1u64 << ((bits - 2 * half + 1) / 2);
    let second = nearer(leading, nearer(leading, start));
    let fifth = nearer(leading, nearer(leading, nearer(leading, second)));
    ((fifth as u128) << half).min(18446744073709551616).max(1)
}

/// The square root of `z`, rounded down. One of Newton's steps from any number is at least the root, and from one near the
/// root hardly above it.
fn quick_root(z: i128) -> i128
    requires not_negative { pos 0 ≤ℤ z }
    requires small { z ≤ℤ pos (2 ^ 126) }
    ensures { result ≡ pos (root_of z) }
{
    let n = z as u128;
    let near = near_root(n);
    let mut root = ((near + n / near) / 2).min(9223372036854775808);
    while n < root * root {
        root -= 1;
    }
    root as i128
}

/// The square root of an interval in units of 2^-76, in units of 2^-38. It is wider than the roots rounded outward, since
/// it holds each root that the model admits, at each level: each `w >= 0` whose square is within 2^-N of the radicand.
pub fn sqrt(wide: Iv) -> Iv
    requires not_negative { pos 0 ≤ℤ wide.lo }
    requires small { wide.hi ≤ℤ pos (2 ^ 126) }
    ensures exact { ends result ≡ sqrt_of (ends wide) }
    ensures encloses { (N : Level) (x w : Fraction) → Lies (ends wide) 76 x → zeroᶠ ≤ᶠ x → IsRoot N x w
        → Lies (ends result) 38 w }
    ensures isotone { (c : Ends) → pos 0 ≤ℤ c.lo → IsInside (ends wide) c
        → IsInside (ends result) (sqrt_of c) }
{
    Iv {
        lo: (quick_root(wide.lo) - 1).max(0),
        hi: quick_root(wide.hi) + 2,
    }
}
