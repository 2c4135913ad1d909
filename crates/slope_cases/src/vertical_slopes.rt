// Satellites on the axes, whose vertical slopes are whole numbers. What exclusion makes of them is as an independent evaluation in
// whole numbers of any size has it (`oracle/table_of_verticals.py`).

ghost use Rattle.std.specs.Prelude.{◌^◌, ◌≤◌, pos, ◌≤ℤ◌, length};

use crate::tested::{detected, excluded};
use fix_interval::Iv;
use geom_inverse::Row;
use raim_model::{Cmp, Verdict, Why};
use slope_laws::Shift;

const HALF: Iv = Iv {
    lo: 137438953472,
    hi: 137438953472,
};

const MINUS_ONE: Iv = Iv {
    lo: -274877906944,
    hi: -274877906944,
};

/// Above a factor of nothing, by the least step.
const OPEN: Iv = Iv { lo: 0, hi: 1 };

/// Four thirds, rounded down.
const FOUR_THIRDS: i128 = 366503875925;

/// A third, rounded down: the greatest factor under weights of a half.
const THIRD: i128 = 91625968981;

const HUGE: i128 = 1267650600228229401496703205376;

const SLOPE: Verdict = Verdict::Unavailable(Why::Slope);

const FEW: Verdict = Verdict::Unavailable(Why::Few);

/// One to the east, to the west, to the north and to the south, one up and one down, all of one weight.
fn six(weight: Iv) -> [Row; 6]
    requires low { pos 0 ≤ℤ weight.lo }
    requires high { weight.hi ≤ℤ pos (2 ^ 38) }
{
    [
        Row::weighed(1, &[Iv::ONE, Iv::ZERO, Iv::ZERO], weight),
        Row::weighed(2, &[MINUS_ONE, Iv::ZERO, Iv::ZERO], weight),
        Row::weighed(3, &[Iv::ZERO, Iv::ONE, Iv::ZERO], weight),
        Row::weighed(4, &[Iv::ZERO, MINUS_ONE, Iv::ZERO], weight),
        Row::weighed(5, &[Iv::ZERO, Iv::ZERO, Iv::ONE], weight),
        Row::weighed(6, &[Iv::ZERO, Iv::ZERO, MINUS_ONE], weight),
    ]
}

/// The first five of them.
fn five() -> [Row; 5] {
    let [east, west, north, south, up, _] = six(Iv::ONE);
    [east, west, north, south, up]
}

/// What the test upwards makes of the rows.
fn detect_up(rows: &[Row], kappa: Iv) -> Verdict
    requires { length rows.now ≤ 32 }
{
    detected(Shift::Vertical, rows, kappa)
}

/// What exclusion upwards makes of the rows.
fn exclude_up(rows: &[Row], kappa: Iv, kappa_less: Iv) -> Verdict
    requires { length rows.now ≤ 32 }
{
    excluded(Shift::Vertical, rows, kappa, kappa_less)
}

#[test]
fn six_pass_up_to_four_thirds(rt: HostRuntime) {
    let six = six(Iv::ONE);
    assert_eq!(rt; detect_up(&six, Iv::point(FOUR_THIRDS)), Verdict::Available);
    assert_eq!(rt; detect_up(&six, Iv::point(FOUR_THIRDS + 1)), SLOPE);
    let between = Iv {
        lo: FOUR_THIRDS,
        hi: FOUR_THIRDS + 1,
    };
    assert_eq!(rt; detect_up(&six, between), Verdict::Undecided(Cmp::Slope(5)));
    assert_eq!(rt; detect_up(&six, Iv::point(HUGE)), Verdict::Overflow(5));
}

#[test]
fn one_alone_above_passes_no_factor_but_nothing(rt: HostRuntime) {
    let five = five();
    assert_eq!(rt; detect_up(&five, Iv::point(1)), SLOPE);
    assert_eq!(rt; detect_up(&five, Iv::ZERO), Verdict::Available);
    assert_eq!(rt; detect_up(&five, OPEN), Verdict::Undecided(Cmp::Slope(5)));
    let [east, west, north, south, up] = five;
    assert_eq!(rt; detect_up(&[east, west, north, south], Iv::ONE), FEW);
    assert_eq!(rt;
        detect_up(&[up, up, up, up, up], Iv::ZERO),
        Verdict::Unavailable(Why::Singular)
    );
}

#[test]
fn weights_of_a_half(rt: HostRuntime) {
    let six = six(HALF);
    assert_eq!(rt; detect_up(&six, Iv::point(THIRD)), Verdict::Available);
    assert_eq!(rt; detect_up(&six, Iv::point(THIRD + 1)), SLOPE);
}

#[test]
fn six_without_one(rt: HostRuntime) {
    let six = six(Iv::ONE);
    for (kappa, kappa_less, expected) in [
        (Iv::ONE, Iv::ZERO, Verdict::Available),
        (Iv::ONE, Iv::point(1), SLOPE),
        (Iv::ONE, OPEN, Verdict::Undecided(Cmp::SlopeWithout(5, 6))),
        (Iv::ONE, Iv::ONE, SLOPE),
        (Iv::point(FOUR_THIRDS + 1), Iv::ZERO, SLOPE),
    ] {
        assert_eq!(rt; exclude_up(&six, kappa, kappa_less), expected);
    }
    assert_eq!(rt; exclude_up(&five(), Iv::ONE, Iv::ONE), FEW);
}
