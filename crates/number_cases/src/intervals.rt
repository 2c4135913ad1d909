// The happy paths, at values worked out by hand, and a table of cases at the ends of what the calls take.

use fix_interval::{
    Iv, add, certainly_le, certainly_lt, checked_mul, clamp, dec56_milli, dec76, div, div_int,
    hull, mul, mul_wide, narrow76, product_down, product_up, scale_int, sqr, sqr_wide, sqrt, sub,
};
use raim_model::Dec;

fn ends(a: Iv) -> (i128, i128) {
    (a.lo, a.hi)
}

fn ends_of(a: Option<Iv>) -> Option<(i128, i128)> {
    match a {
        Some(a) => Some((a.lo, a.hi)),
        None => None,
    }
}

#[test]
fn sums_and_differences(rt: HostRuntime) {
    let a = Iv { lo: -3, hi: 5 };
    let b = Iv { lo: 10, hi: 20 };
    assert_eq!(rt; ends(add(a, b)), (7, 25));
    assert_eq!(rt; ends(sub(a, b)), (-23, -5));
    assert_eq!(rt; ends(hull(a, b)), (-3, 20));
    assert_eq!(rt; ends(clamp(Iv { lo: -5, hi: 9 }, 4)), (-4, 4));
}

#[test]
fn products_round_outward(rt: HostRuntime) {
    let unit = Iv { lo: 1, hi: 1 };
    assert_eq!(rt; ends(mul(unit, unit)), (0, 1));
    let one = Iv {
        lo: 274877906944,
        hi: 274877906944,
    };
    assert_eq!(rt; ends(mul(Iv { lo: -3, hi: 5 }, one)), (-3, 5));
    assert_eq!(rt;
        ends(mul_wide(Iv { lo: -3, hi: 5 }, Iv { lo: -7, hi: 2 })),
        (-35, 21)
    );
    assert_eq!(rt; ends(narrow76(Iv { lo: -1, hi: 1 })), (-1, 1));
    assert_eq!(rt; ends(scale_int(Iv { lo: -2, hi: 3 }, -1, 4)), (-8, 12));
}

#[test]
fn squares_hold_zero(rt: HostRuntime) {
    let a = Iv {
        lo: -549755813888,
        hi: 274877906944,
    };
    assert_eq!(rt; ends(sqr(a)), (0, 1099511627776));
    assert_eq!(rt; ends(sqr_wide(Iv { lo: -3, hi: -2 })), (4, 9));
}

#[test]
fn products_may_not_fit(rt: HostRuntime) {
    let a = Iv {
        lo: 1267650600228229401496703205376,
        hi: 1267650600228229401496703205376,
    };
    let b = Iv {
        lo: 1073741824,
        hi: 1073741824,
    };
    assert_eq!(rt; ends_of(checked_mul(a, b)), None);
    let c = Iv {
        lo: 67108864,
        hi: 67108864,
    };
    let product = 85070591730234615865843651857942052864;
    assert_eq!(rt; ends_of(checked_mul(a, c)), Some((product, product)));
}

#[test]
fn quotients_round_outward(rt: HostRuntime) {
    assert_eq!(rt; ends(Iv::from_ratio(1, 3)), (91625968981, 91625968982));
    assert_eq!(rt;
        ends(div(Iv { lo: 1, hi: 1 }, Iv { lo: 3, hi: 3 })),
        (91625968981, 91625968982)
    );
    assert_eq!(rt; ends(div_int(Iv { lo: -7, hi: 7 }, 2)), (-4, 4));
}

#[test]
fn roots_are_widened(rt: HostRuntime) {
    let wide = Iv {
        lo: 75557863725914323419136,
        hi: 75557863725914323419136,
    };
    assert_eq!(rt; ends(sqrt(wide)), (274877906943, 274877906946));
}

#[test]
fn comparisons_are_certain(rt: HostRuntime) {
    let a = Iv { lo: 1, hi: 2 };
    let b = Iv { lo: 2, hi: 3 };
    assert_eq!(rt; certainly_le(a, b), true);
    assert_eq!(rt; certainly_lt(a, b), false);
}

#[test]
fn decimals_are_rounded_outward(rt: HostRuntime) {
    let ninety = Dec {
        neg: false,
        digits: 90,
        places: 0,
    };
    assert_eq!(rt;
        ends(Iv::from_dec_over(&ninety, 360)),
        (68719476736, 68719476736)
    );
    let half = Dec {
        neg: false,
        digits: 5,
        places: 1,
    };
    assert_eq!(rt; ends(Iv::from_dec(&half)), (137438953472, 137438953472));
    assert_eq!(rt;
        ends(dec76(&half)),
        (37778931862957161709568, 37778931862957161709568)
    );
    let thousand = Dec {
        neg: false,
        digits: 1000,
        places: 0,
    };
    assert_eq!(rt;
        ends(dec56_milli(&thousand)),
        (72057594037927936, 72057594037927936)
    );
    let tenth = Dec {
        neg: true,
        digits: 1,
        places: 1,
    };
    assert_eq!(rt; ends(Iv::from_dec(&tenth)), (-27487790695, -27487790694));
    assert_eq!(rt;
        ends(dec76(&tenth)),
        (-7555786372591432341914, -7555786372591432341913)
    );
}

#[test]
fn decimals_of_the_greatest_size(rt: HostRuntime) {
    let whole = Dec {
        neg: true,
        digits: 999999999999999999,
        places: 0,
    };
    assert_eq!(rt;
        ends(Iv::from_dec(&whole)),
        (
            -274877906943999999725122093056,
            -274877906943999999725122093056
        )
    );
    assert_eq!(rt;
        ends(Iv::from_dec_over(&whole, 999999)),
        (-274878181822181821906944, -274878181822181821906944)
    );
    assert_eq!(rt;
        ends(dec56_milli(&whole)),
        (
            -72057594037927935927942405962073,
            -72057594037927935927942405962072
        )
    );
    let least = Dec {
        neg: false,
        digits: 999999999999999999,
        places: 30,
    };
    assert_eq!(rt; ends(Iv::from_dec_over(&least, 1000000)), (0, 1));
    assert_eq!(rt; ends(dec76(&least)), (75557863725, 75557863726));
    let near_ten = Dec {
        neg: true,
        digits: 999999999999999999,
        places: 17,
    };
    assert_eq!(rt;
        ends(dec76(&near_ten)),
        (-755578637259143233435782, -755578637259143233435781)
    );
    let ten = Dec {
        neg: false,
        digits: 10,
        places: 0,
    };
    assert_eq!(rt;
        ends(dec76(&ten)),
        (755578637259143234191360, 755578637259143234191360)
    );
    let root = Dec {
        neg: false,
        digits: 5153636719,
        places: 6,
    };
    assert_eq!(rt;
        ends(dec56_milli(&root)),
        (371358662516660889, 371358662516660890)
    );
    let turn = Dec {
        neg: true,
        digits: 12963728561,
        places: 10,
    };
    assert_eq!(rt;
        ends(Iv::from_dec_over(&turn, 360)),
        (-989845160, -989845159)
    );
    assert_eq!(rt;
        ends(dec76(&turn)),
        (-97951163599178139034765, -97951163599178139034764)
    );
}

#[test]
fn products_with_a_half(rt: HostRuntime) {
    let half = 137438953472;
    assert_eq!(rt; (product_down(3, half), product_up(3, half)), (1, 2));
    assert_eq!(rt; (product_down(-3, half), product_up(-3, half)), (-2, -1));
    assert_eq!(rt; (product_down(4, half), product_up(4, half)), (2, 2));
}
