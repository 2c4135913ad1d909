// Satellites on the axes, whose determinants are whole numbers.

ghost use Rattle.std.specs.Prelude.{◌≤◌, ◌<◌, length};

use fix_interval::Iv;
use geom_inverse::{
    Row, adjugate, alpha_east, alpha_north, alpha_up, det, det_without, gram_of_sums, sums,
};

/// 1, in units of 2^-38.
const ONE: Iv = Iv {
    lo: 274877906944,
    hi: 274877906944,
};

const NONE: Iv = Iv { lo: 0, hi: 0 };

const MINUS_ONE: Iv = Iv {
    lo: -274877906944,
    hi: -274877906944,
};

const HALF: Iv = Iv {
    lo: 137438953472,
    hi: 137438953472,
};

fn ends(a: Iv) -> (i128, i128) {
    (a.lo, a.hi)
}

fn east() -> Row {
    Row::new(1, &[ONE, NONE, NONE])
}

fn west() -> Row {
    Row::new(2, &[MINUS_ONE, NONE, NONE])
}

fn north() -> Row {
    Row::new(3, &[NONE, ONE, NONE])
}

fn south() -> Row {
    Row::new(4, &[NONE, MINUS_ONE, NONE])
}

fn up() -> Row {
    Row::new(5, &[NONE, NONE, ONE])
}

fn down() -> Row {
    Row::new(6, &[NONE, NONE, MINUS_ONE])
}

/// The first five, all weighed by a half.
fn five_halved() -> [Row; 5] {
    [
        Row::weighed(1, &[ONE, NONE, NONE], HALF),
        Row::weighed(2, &[MINUS_ONE, NONE, NONE], HALF),
        Row::weighed(3, &[NONE, ONE, NONE], HALF),
        Row::weighed(4, &[NONE, MINUS_ONE, NONE], HALF),
        Row::weighed(5, &[NONE, NONE, ONE], HALF),
    ]
}

fn det_of(rows: &[Row]) -> (i128, i128)
    requires { length rows.now ≤ 32 }
{
    ends(det(&gram_of_sums(&sums(rows), rows)))
}

fn det_of_others(rows: &[Row], i: usize) -> (i128, i128)
    requires few { length rows.now ≤ 32 }
    requires place { i < length rows.now }
{
    ends(det_without(&sums(rows), rows, i).in_128_bits())
}

/// The changes to the east, to the north and up by a fault of a row's satellite, times the determinant.
fn alphas(rows: &[Row], row: &Row) -> ((i128, i128), (i128, i128), (i128, i128))
    requires { length rows.now ≤ 32 }
{
    let adj = adjugate(&gram_of_sums(&sums(rows), rows));
    (
        ends(alpha_east(&adj, row)),
        ends(alpha_north(&adj, row)),
        ends(alpha_up(&adj, row)),
    )
}

#[test]
fn five_satellites(rt: HostRuntime) {
    let rows = [east(), west(), north(), south(), up()];
    assert_eq!(rt; det_of(&rows), (4398046511104, 4398046511104));
    assert_eq!(rt; det_of_others(&rows, 0), (1099511627776, 1099511627776));
    assert_eq!(rt; det_of_others(&rows, 3), (1099511627776, 1099511627776));
    assert_eq!(rt; det_of_others(&rows, 4), (0, 0));
}

#[test]
fn six_satellites(rt: HostRuntime) {
    let rows = [east(), west(), north(), south(), up(), down()];
    assert_eq!(rt; det_of(&rows), (13194139533312, 13194139533312));
    assert_eq!(rt; det_of_others(&rows, 0), (4398046511104, 4398046511104));
    assert_eq!(rt; det_of_others(&rows, 5), (4398046511104, 4398046511104));
    let five = [west(), north(), south(), up(), down()];
    assert_eq!(rt; det_of(&five), (4398046511104, 4398046511104));
    assert_eq!(rt; det_of_others(&five, 0), (0, 0));
}

#[test]
fn changes_by_a_fault(rt: HostRuntime) {
    let rows = [east(), west(), north(), south(), up()];
    assert_eq!(rt;
        alphas(&rows, &east()),
        (
            (2199023255552, 2199023255552),
            (0, 0),
            (-1099511627776, -1099511627776)
        )
    );
    assert_eq!(rt;
        alphas(&rows, &up()),
        ((0, 0), (0, 0), (4398046511104, 4398046511104))
    );
}

#[test]
fn weights_of_a_half(rt: HostRuntime) {
    let rows = five_halved();
    assert_eq!(rt; det_of(&rows), (17179869184, 17179869184));
    assert_eq!(rt; det_of_others(&rows, 0), (4294967296, 4294967296));
}

#[test]
fn a_row_keeps_its_satellite(rt: HostRuntime) {
    assert_eq!(rt; east().prn, 1);
    assert_eq!(rt; Row::weighed(9, &[ONE, NONE, NONE], HALF).prn, 9);
}
