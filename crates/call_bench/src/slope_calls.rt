// Tests of slopes, on twelve rows and a factor that each call's number determines.

ghost use Rattle.std.specs.Prelude.{◌+◌, ◌^◌};
ghost use Rattle.fix_interval.specs.Intervals.{IsWithin};

use crate::sums::scattered;
use exclusion_subsets::exclude;
use fix_interval::{Iv, UNITS_IN_ONE};
use geom_inverse::Row;
use raim_model::{Cmp, Verdict, Why};
use slope_laws::Shift;
use slope_test::{Marks, detect};

/// A part of the direction of the satellite `prn`, from -1 to 1 and at most three units wide.
fn part(i: u32, prn: u8) -> Iv
    ensures { IsWithin result (2 ^ 38 + 1) }
{
    let place = scattered(i).wrapping_add(prn as u64 * 40503000001) % 549755813880;
    let lo = place as i128 - UNITS_IN_ONE;
    Iv {
        lo,
        hi: lo + (place % 4) as i128,
    }
}

/// The row of a satellite, with the weight 1.
fn row(i: u32, prn: u8) -> Row {
    let east = part(i, prn);
    let north = part(i.wrapping_add(77), prn);
    let up = part(i.wrapping_add(7777), prn);
    Row::new(prn, &[east, north, up])
}

fn rows(i: u32) -> [Row; 12] {
    [
        row(i, 1),
        row(i, 2),
        row(i, 3),
        row(i, 4),
        row(i, 5),
        row(i, 6),
        row(i, 7),
        row(i, 8),
        row(i, 9),
        row(i, 10),
        row(i, 11),
        row(i, 12),
    ]
}

/// The factor for twelve rows, from 1/32 to 2.
fn kappa(i: u32) -> Iv {
    Iv::point(((i % 64 + 1) as i128) << 33)
}

/// The factor for eleven rows, half of that for twelve.
fn kappa_less(i: u32) -> Iv {
    Iv::point(((i % 64 + 1) as i128) << 32)
}

/// 31 times the sum before, and a number: modulo 2^61 - 1.
fn onto(before: u64, number: u8) -> u64 {
    ((before as u128 * 31 + number as u128) % 2305843009213693951) as u64
}

/// The sum with a verdict: the number of its kind, and the satellites that it names.
fn onto_verdict(before: u64, verdict: Verdict) -> u64 {
    match verdict {
        Verdict::Available => onto(before, 1),
        Verdict::Unavailable(Why::Few) => onto(before, 2),
        Verdict::Unavailable(Why::Singular) => onto(before, 3),
        Verdict::Unavailable(Why::Slope) => onto(before, 4),
        Verdict::Undecided(Cmp::Mask(prn)) => onto(onto(before, 5), prn),
        Verdict::Undecided(Cmp::Det) => onto(before, 6),
        Verdict::Undecided(Cmp::Slope(prn)) => onto(onto(before, 7), prn),
        Verdict::Undecided(Cmp::DetWithout(prn)) => onto(onto(before, 8), prn),
        Verdict::Undecided(Cmp::SlopeWithout(removed, prn)) => {
            onto(onto(onto(before, 9), removed), prn)
        }
        Verdict::Overflow(prn) => onto(onto(before, 10), prn),
    }
}

/// What the test for detection makes of rows of which nothing is known.
fn detected(rows: &[Row; 12], kappa: Iv) -> Verdict {
    let mut known = Marks::none();
    detect(Shift::Horizontal, rows, kappa, &mut known)
}

/// What the test for exclusion makes of them.
fn excluded(rows: &[Row; 12], kappa: Iv, kappa_less: Iv) -> Verdict {
    let mut slopes = Marks::none();
    let mut lists = Marks::none();
    exclude(
        Shift::Horizontal,
        rows,
        kappa,
        kappa_less,
        &mut slopes,
        &mut lists,
    )
}

/// The sum of N tests for detection.
pub fn sum_of_detections(n: u32) -> u64 {
    let mut sum: u64 = 0;
    for i in 0..n {
        sum = onto_verdict(sum, detected(&rows(i), kappa(i)));
    }
    sum
}

/// The sum of N tests for exclusion.
pub fn sum_of_exclusions(n: u32) -> u64 {
    let mut sum: u64 = 0;
    for i in 0..n {
        sum = onto_verdict(sum, excluded(&rows(i), kappa(i), kappa_less(i)));
    }
    sum
}
