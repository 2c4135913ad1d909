// The happy paths, at values known beforehand.

use fix_interval::Iv;
use trig_enclose::{sin_cos, sine_high, sine_low};

const ONE: i128 = fix_interval::UNITS_IN_ONE;

fn ends(parts: (Iv, Iv)) -> ((i128, i128), (i128, i128)) {
    ((parts.0.lo, parts.0.hi), (parts.1.lo, parts.1.hi))
}

#[test]
fn sine_and_cosine_of_no_turn(rt: HostRuntime) {
    assert_eq!(rt;
        ends(sin_cos(Iv { lo: 0, hi: 0 })),
        ((-1, 1), (ONE - 1, ONE))
    );
}

#[test]
fn sine_and_cosine_of_a_quarter_turn(rt: HostRuntime) {
    let quarter = Iv {
        lo: 68719476736,
        hi: 68719476736,
    };
    assert_eq!(rt; ends(sin_cos(quarter)), ((ONE - 1, ONE), (-1, 1)));
}

#[test]
fn sine_and_cosine_of_a_whole_turn(rt: HostRuntime) {
    assert_eq!(rt;
        ends(sin_cos(Iv { lo: 0, hi: ONE })),
        ((-ONE, ONE), (-ONE, ONE))
    );
}

#[test]
fn ends_of_a_sine_by_themselves(rt: HostRuntime) {
    assert_eq!(rt; (sine_low(0), sine_high(0)), (-1, 1));
    assert_eq!(rt;
        (sine_low(68719476736), sine_high(68719476736)),
        (274877906943, 274877906944)
    );
    assert_eq!(rt;
        (sine_low(123456789012), sine_high(123456789012)),
        (86364494006, 86364494010)
    );
    assert_eq!(rt;
        (sine_low(-68719476736), sine_high(-68719476736)),
        (-274877906944, -274877906943)
    );
}
