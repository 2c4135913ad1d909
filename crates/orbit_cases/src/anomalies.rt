// The happy paths, at values known beforehand.

use fix_interval::Iv;
use kepler_bracket::{anomalies, ecc_sin_cos};

const ONE: i128 = fix_interval::UNITS_IN_ONE;

fn ends(parts: (Iv, Iv)) -> ((i128, i128), (i128, i128)) {
    ((parts.0.lo, parts.0.hi), (parts.1.lo, parts.1.hi))
}

#[test]
fn circle_at_its_perigee(rt: HostRuntime) {
    let none = Iv { lo: 0, hi: 0 };
    assert_eq!(rt; ends(ecc_sin_cos(none, none)), ((-8, 8), (ONE - 2, ONE)));
}

#[test]
fn whole_turn_of_mean_anomaly(rt: HostRuntime) {
    let none = Iv { lo: 0, hi: 0 };
    assert_eq!(rt;
        ends(ecc_sin_cos(Iv { lo: 0, hi: ONE }, none)),
        ((-ONE, ONE), (-ONE, ONE))
    );
}

#[test]
fn eccentric_anomalies_by_themselves(rt: HostRuntime) {
    let none = Iv { lo: 0, hi: 0 };
    let circle = anomalies(none, none);
    assert_eq!(rt; (circle.lo, circle.hi), (-1, 1));
    let mean = Iv {
        lo: 1073741824,
        hi: 1073741825,
    };
    let eps = Iv {
        lo: 1073741824,
        hi: 1073741824,
    };
    let ellipse = anomalies(mean, eps);
    assert_eq!(rt; (ellipse.lo, ellipse.hi), (1100755579, 1100755583));
}
