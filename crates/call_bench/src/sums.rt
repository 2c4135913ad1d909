// The arguments of a call by its number, and the sum of answers by which another program's are compared.

ghost use Rattle.std.specs.Prelude.{◌≡◌, pos, neg_ℤ, ◌^◌, ◌<◌, ◌+ℤ◌, ◌≤ℤ◌};

use fix_interval::Iv;

/// From `lo` to `wider` units above it.
pub(crate) fn from(lo: i128, wider: u32) -> Iv
    requires low { neg_ℤ (pos (2 ^ 81)) ≤ℤ lo }
    requires high { lo ≤ℤ pos (2 ^ 81) }
    ensures lo { result.lo ≡ lo }
    ensures hi { result.hi ≡ lo +ℤ pos wider }
{
    Iv {
        lo,
        hi: lo + wider as i128,
    }
}

/// Numbers that scatter.
pub(crate) fn scattered(i: u32) -> u64
    ensures { result < 2 ^ 64 }
{
    i as u64 * 2654435761
}

/// Numbers that scatter, in a way for each factor.
pub(crate) fn spread(i: u32, factor: u32) -> u64 {
    i as u64 * factor as u64
}

/// What is added for an end, in their order.
const WEIGHTS: [i128; 6] = [1, 3, 5, 7, 11, 13];

/// 31 times the sum before, and the ends of the answers, lower ones first, times 1, 3, 5, 7, 11 and 13: modulo 2^61 - 1.
#[inline(always)]
pub(crate) fn added(before: i128, answers: &[Iv]) -> i128 {
    let mut sum = before.wrapping_mul(31);
    for (answer, weights) in answers.iter().zip(WEIGHTS.chunks_exact(2)) {
        if let [low, high] = weights {
            sum = sum
                .wrapping_add(answer.lo.wrapping_mul(*low))
                .wrapping_add(answer.hi.wrapping_mul(*high));
        }
    }
    sum.rem_euclid(2305843009213693951)
}
