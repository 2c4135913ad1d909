// Calls of `fix_interval`, each on arguments that its number determines.

ghost use Rattle.std.specs.Prelude.{◌≡◌, pos, neg_ℤ, ◌^◌, ◌≤◌, ◌<◌, ◌+ℤ◌, ◌≤ℤ◌};
ghost use Rattle.fix_interval.specs.Intervals.{mag_of};
ghost use Rattle.raim_model.specs.Decimal.{IsCanonical};

use crate::sums::{added, from, scattered};
use fix_interval::{Iv, div, mul, sqr, sqrt};
use raim_model::Dec;

/// A call of `fix_interval`.
#[derive(Clone, Copy)]
pub enum IntervalCall {
    Mul,
    Sqr,
    Div,
    Sqrt,
    Decimal,
}

fn dividend(i: u32) -> Iv
    ensures { mag_of result ≤ 2 ^ 40 }
{
    from((scattered(i) % 1099511627776) as i128 - 549755813888, i % 4)
}

fn factor(i: u32) -> Iv
    ensures { mag_of result ≤ 2 ^ 40 }
{
    from(
        ((i as u64 * 40503 + 7) % 274877906944) as i128 - 137438953472,
        (i / 4) % 4,
    )
}

fn divisor(i: u32) -> Iv
    ensures { pos 1 ≤ℤ result.lo }
{
    from((1 + scattered(i) % 274877906944) as i128, i % 4)
}

fn square(t: u64) -> i128
    requires { t < 2 ^ 40 }
    ensures low { pos 0 ≤ℤ result }
    ensures high { result ≤ℤ pos (2 ^ 80) }
{
    t as i128 * t as i128
}

fn radicand(i: u32) -> Iv
    ensures low { pos 0 ≤ℤ result.lo }
    ensures high { result.hi ≤ℤ pos (2 ^ 126) }
{
    from(square(scattered(i) % 1099511627776), i % 4)
}

fn decimal(i: u32) -> Dec
    ensures { IsCanonical result }
{
    Dec {
        neg: i % 2 == 1,
        digits: 10 * (scattered(i) % 100000000000) + 1,
        places: (i % 13) as u8,
    }
}

fn answer_of(call: IntervalCall, i: u32) -> Iv {
    match call {
        IntervalCall::Mul => mul(dividend(i), factor(i)),
        IntervalCall::Sqr => sqr(dividend(i)),
        IntervalCall::Div => div(dividend(i), divisor(i)),
        IntervalCall::Sqrt => sqrt(radicand(i)),
        IntervalCall::Decimal => {
            Iv::from_dec_over(&decimal(i), 1 + ((i as u64 * 7919) % 1000000) as u32)
        }
    }
}

/// The sum of N answers.
pub fn sum_of(call: IntervalCall, n: u32) -> i128 {
    let mut sum: i128 = 0;
    for i in 0..n {
        sum = added(sum, &[answer_of(call, i)]);
    }
    sum
}
