// Satellites on the axes, whose slopes are whole numbers, by both tests.

ghost use Rattle.std.specs.Prelude.{◌^◌, pos, ◌≤ℤ◌};

use crate::tested::{detected, excluded};
use fix_interval::Iv;
use geom_inverse::Row;
use raim_model::{Cmp, Verdict, Why};
use slope_laws::Shift;

const HALF: Iv = Iv {
    lo: 137438953472,
    hi: 137438953472,
};

const MINUS_ONE: Iv = Iv {
    lo: -274877906944,
    hi: -274877906944,
};

/// One to the east, to the west, to the north and to the south, one up and one down, all of one weight.
fn six(weight: Iv) -> [Row; 6]
    requires low { pos 0 ≤ℤ weight.lo }
    requires high { weight.hi ≤ℤ pos (2 ^ 38) }
{
    [
        Row::weighed(1, &[Iv::ONE, Iv::ZERO, Iv::ZERO], weight),
        Row::weighed(2, &[MINUS_ONE, Iv::ZERO, Iv::ZERO], weight),
        Row::weighed(3, &[Iv::ZERO, Iv::ONE, Iv::ZERO], weight),
        Row::weighed(4, &[Iv::ZERO, MINUS_ONE, Iv::ZERO], weight),
        Row::weighed(5, &[Iv::ZERO, Iv::ZERO, Iv::ONE], weight),
        Row::weighed(6, &[Iv::ZERO, Iv::ZERO, MINUS_ONE], weight),
    ]
}

/// The first five of them.
fn five(weight: Iv) -> [Row; 5]
    requires low { pos 0 ≤ℤ weight.lo }
    requires high { weight.hi ≤ℤ pos (2 ^ 38) }
{
    let [east, west, north, south, up, _] = six(weight);
    [east, west, north, south, up]
}

fn detect_five(lo: i128, hi: i128) -> Verdict
    requires { lo ≤ℤ hi }
{
    detected(Shift::Horizontal, &five(Iv::ONE), Iv { lo, hi })
}

fn exclude_six(less: Iv) -> Verdict {
    excluded(Shift::Horizontal, &six(Iv::ONE), Iv::ONE, less)
}

const SLOPE: Verdict = Verdict::Unavailable(Why::Slope);

#[test]
fn five_satellites(rt: HostRuntime) {
    let one = 274877906944;
    assert_eq!(rt; detect_five(one, one), Verdict::Available);
    assert_eq!(rt; detect_five(one + 1, one + 1), SLOPE);
    assert_eq!(rt;
        detect_five(one - 1, one + 1),
        Verdict::Undecided(Cmp::Slope(1))
    );
    let huge = 1267650600228229401496703205376;
    assert_eq!(rt; detect_five(huge, huge), Verdict::Overflow(1));
}

#[test]
fn four_are_few_and_five_in_one_place_singular(rt: HostRuntime) {
    let [east, west, north, south, up] = five(Iv::ONE);
    assert_eq!(rt;
        detected(Shift::Horizontal, &[east, west, north, south], Iv::ONE),
        Verdict::Unavailable(Why::Few)
    );
    assert_eq!(rt;
        detected(Shift::Horizontal, &[up, up, up, up, up], Iv::ONE),
        Verdict::Unavailable(Why::Singular)
    );
    assert_eq!(rt;
        detected(Shift::Horizontal, &[up, up, up, up, up], Iv::ZERO),
        Verdict::Unavailable(Why::Singular)
    );
}

#[test]
fn six_satellites_and_one_excluded(rt: HostRuntime) {
    assert_eq!(rt;
        detected(Shift::Horizontal, &six(Iv::ONE), Iv::ONE),
        Verdict::Available
    );
    assert_eq!(rt; exclude_six(Iv::ONE), SLOPE);
    assert_eq!(rt; exclude_six(Iv::ZERO), Verdict::Available);
    assert_eq!(rt;
        exclude_six(Iv { lo: 0, hi: 1 }),
        Verdict::Undecided(Cmp::SlopeWithout(1, 2))
    );
    assert_eq!(rt;
        excluded(Shift::Horizontal, &five(Iv::ONE), Iv::ONE, Iv::ONE),
        Verdict::Unavailable(Why::Few)
    );
}

#[test]
fn weights_of_a_half(rt: HostRuntime) {
    let rows = five(HALF);
    let quarter = 68719476736;
    assert_eq!(rt;
        detected(Shift::Horizontal, &rows, Iv::point(quarter)),
        Verdict::Available
    );
    assert_eq!(rt;
        detected(Shift::Horizontal, &rows, Iv::point(quarter + 1)),
        SLOPE
    );
}

#[test]
fn upwards(rt: HostRuntime) {
    let six = six(Iv::ONE);
    // four thirds
    assert_eq!(rt;
        detected(Shift::Vertical, &six, Iv::point(366503875925)),
        Verdict::Available
    );
    assert_eq!(rt;
        detected(Shift::Vertical, &six, Iv::point(366503875926)),
        SLOPE
    );
    let five = five(Iv::ONE);
    assert_eq!(rt; detected(Shift::Vertical, &five, Iv::point(1)), SLOPE);
    assert_eq!(rt;
        detected(Shift::Vertical, &five, Iv::ZERO),
        Verdict::Available
    );
    assert_eq!(rt;
        excluded(Shift::Vertical, &six, Iv::ONE, Iv::ZERO),
        Verdict::Available
    );
}
