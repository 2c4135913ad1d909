// The happy paths, at values worked out by hand, and at the ends of `i128`.

use whole_numbers::root::whole_root;
use whole_numbers::rounding::{ceil_by, ceil_shift, floor_by, floor_shift};

#[test]
fn quotients_round_down_and_up(rt: HostRuntime) {
    assert_eq!(rt; floor_by(-7, 2), -4);
    assert_eq!(rt; ceil_by(-7, 2), -3);
    assert_eq!(rt; floor_shift(-7, 1), -4);
    assert_eq!(rt; ceil_shift(-7, 1), -3);
    assert_eq!(rt; ceil_by(8, 2), 4);
    assert_eq!(rt; ceil_shift(8, 1), 4);
}

#[test]
fn ends_of_the_type_do_not_overflow(rt: HostRuntime) {
    assert_eq!(rt; floor_by(i128::MIN, 1), i128::MIN);
    assert_eq!(rt; ceil_by(i128::MIN, 1), i128::MIN);
    assert_eq!(rt; ceil_by(i128::MAX, 1), i128::MAX);
    assert_eq!(rt; ceil_shift(i128::MIN, 0), i128::MIN);
    assert_eq!(rt; ceil_shift(i128::MAX, 0), i128::MAX);
    assert_eq!(rt; ceil_by(i128::MAX, i128::MAX), 1);
}

#[test]
fn roots_round_down(rt: HostRuntime) {
    assert_eq!(rt; whole_root(0), 0);
    assert_eq!(rt; whole_root(10), 3);
    assert_eq!(rt; whole_root(16), 4);
}
