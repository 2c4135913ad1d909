// A table of cases: lists of rows that a formula makes from a seed, and the answers of both tests, horizontally and vertically, worked
// out in whole numbers of any size as the definitions are written (`oracle/table_of_slopes.py`).

ghost use Rattle.std.specs.Prelude.{◌+◌, ◌^◌, pos, ◌≤ℤ◌, IfSome};
ghost use Rattle.fix_interval.specs.Intervals.{IsWithin};

use crate::tested::{detected, excluded};
use arrayvec::ArrayVec;
use fix_interval::{Iv, UNITS_IN_ONE};
use geom_inverse::Row;
use raim_model::Verdict;
use slope_laws::Shift;
use std::alloc::Global;
use std::test::Fail;

/// 1, one half and 1/128, in units of 2^-38.
const ONE: i64 = 274877906944;

const HALF: i64 = 137438953472;

const NEAR: i64 = 2147483648;

/// A number of 64 bits that depends on all three.
fn scattered(seed: u64, row: u64, part: u64) -> u64 {
    let sum = seed
        .wrapping_mul(6364136223846793005)
        .wrapping_add(row.wrapping_mul(1442695040888963407))
        .wrapping_add(part.wrapping_mul(3202034522624059733))
        .wrapping_add(1);
    let z = (sum ^ (sum >> 29)).wrapping_mul(13787848793156543929);
    z ^ (z >> 32)
}

/// What a row is made of.
#[derive(Clone, Copy)]
struct Source {
    seed: u64,
    row: u64,
    width: u64,
}

impl Source {
    /// An interval from `low` to `high`, at most `width` units wide; the parts 0 to 2 are those of the direction, and 3 is the weight.
    fn interval(&self, part: u64, low: i64, high: i64) -> Option<Iv>
        ensures low { IfSome result (λ a. low ≤ℤ a.lo) }
        ensures high { IfSome result (λ a. a.hi ≤ℤ high) }
    {
        let places = high.wrapping_sub(low).unsigned_abs().saturating_add(1);
        let place = scattered(self.seed, self.row, part) % places;
        let more = scattered(self.seed, self.row, part.wrapping_add(4))
            % self.width.saturating_add(1);
        let lo = (low as i128).wrapping_add(place as i128);
        let hi = lo.wrapping_add(more as i128).min(high as i128);
        if low as i128 <= lo && lo <= hi {
            Some(Iv { lo, hi })
        } else {
            None
        }
    }

    /// The height: anything, or about one half.
    fn height(&self, word: &str) -> Option<Iv>
        ensures { IfSome result (λ a. IsWithin a (2 ^ 38 + 1)) }
    {
        let (low, high) = if word == "level" {
            (HALF, HALF)
        } else if word == "near" {
            (HALF - NEAR, HALF + NEAR)
        } else {
            (-ONE, ONE)
        };
        within_one(self.interval(2, low, high)?)
    }

    /// The weight: 1, or anything above 0.
    fn weight(&self, word: &str) -> Option<Iv>
        ensures low { IfSome result (λ a. pos 0 ≤ℤ a.lo) }
        ensures high { IfSome result (λ a. a.hi ≤ℤ pos (2 ^ 38)) }
    {
        if word == "weighed" {
            self.interval(3, 1, ONE)
        } else {
            Some(Iv::ONE)
        }
    }

    fn row(&self, prn: u8, word: &str) -> Option<Row> {
        let e = within_one(self.interval(0, -ONE, ONE)?)?;
        let n = within_one(self.interval(1, -ONE, ONE)?)?;
        let u = self.height(word)?;
        let k = self.weight(word)?;
        Some(Row::weighed(prn, &[e, n, u], k))
    }
}

/// An interval from -1 to 1.
fn within_one(a: Iv) -> Option<Iv>
    ensures { IfSome result (λ a. IsWithin a (2 ^ 38 + 1)) }
{
    if -UNITS_IN_ONE <= a.lo && a.hi <= UNITS_IN_ONE {
        Some(a)
    } else {
        None
    }
}

/// The first `count` rows, at most 32.
fn rows_of(seed: u64, count: u8, width: u64, word: &str) -> Option<ArrayVec<Row, 32>> {
    let mut rows = ArrayVec::new();
    for row in 0..count.min(32) {
        let source = Source {
            seed,
            row: row as u64,
            width,
        };
        let _ = rows.try_push(source.row(row + 1, word)?);
    }
    Some(rows)
}

fn interval(lo: &str, hi: &str) -> Option<Iv> {
    let lo = lo.parse::<i128>().ok()?;
    let hi = hi.parse::<i128>().ok()?;
    if lo <= hi { Some(Iv { lo, hi }) } else { None }
}

/// What the tests make of a line's rows.
fn answers(line: &str) -> Option<[Verdict; 4]> {
    let mut words = line.split_whitespace();
    let seed = words.next()?.parse::<u64>().ok()?;
    let count = words.next()?.parse::<u8>().ok()?;
    let width = words.next()?.parse::<u64>().ok()?;
    let rows = rows_of(seed, count, width, words.next()?)?;
    let rows = rows.as_slice();
    let kappa = interval(words.next()?, words.next()?)?;
    let kappa_less = interval(words.next()?, words.next()?)?;
    Some([
        detected(Shift::Horizontal, rows, kappa),
        excluded(Shift::Horizontal, rows, kappa, kappa_less),
        detected(Shift::Vertical, rows, kappa),
        excluded(Shift::Vertical, rows, kappa, kappa_less),
    ])
}

fn answers_text(alloc: Global, answers: [Verdict; 4]) -> Result<String, Fail> {
    let [first, second, third, fourth] = answers;
    Ok(format!(in alloc; "{first:?}; {second:?}; {third:?}; {fourth:?}")?)
}

#[test]
fn slopes_are_as_the_table_says(rt: HostRuntime) -> Result<(), Fail> {
    let alloc = rt.alloc();
    let mut cases: usize = 0;
    for line in TABLE.lines() {
        let Some((made_of, wanted)) = line.split_once(" : ") else {
            panic!(rt; "{line}")
        };
        let Some(found) = answers(made_of) else {
            panic!(rt; "{line}")
        };
        cases = cases.wrapping_add(1);
        assert_eq!(rt; answers_text(alloc, found)?.as_str(), wanted);
    }
    assert_eq!(rt; cases, 69);
    Ok(())
}

const TABLE: &str = "\
1004 4 0 plain 274877906 274877906 274877906 274877906 : Unavailable(Few); Unavailable(Few); Unavailable(Few); Unavailable(Few)
1004 4 3 plain 274877906 274877906 274877906 274877906 : Unavailable(Few); Unavailable(Few); Unavailable(Few); Unavailable(Few)
1004 4 100000 plain 274877906 274877906 274877906 274877906 : Unavailable(Few); Unavailable(Few); Unavailable(Few); Unavailable(Few)
1005 5 0 plain 274877906 274877906 274877906 274877906 : Available; Unavailable(Few); Available; Unavailable(Few)
1005 5 3 plain 274877906 274877906 274877906 274877906 : Available; Unavailable(Few); Available; Unavailable(Few)
1005 5 100000 plain 274877906 274877906 274877906 274877906 : Available; Unavailable(Few); Available; Unavailable(Few)
1006 6 0 plain 274877906 274877906 274877906 274877906 : Available; Unavailable(Slope); Available; Unavailable(Slope)
1006 6 3 plain 274877906 274877906 274877906 274877906 : Available; Unavailable(Slope); Available; Unavailable(Slope)
1006 6 100000 plain 274877906 274877906 274877906 274877906 : Available; Unavailable(Slope); Available; Unavailable(Slope)
1007 7 0 plain 274877906 274877906 274877906 274877906 : Available; Available; Available; Available
1007 7 3 plain 274877906 274877906 274877906 274877906 : Available; Available; Available; Available
1007 7 100000 plain 274877906 274877906 274877906 274877906 : Available; Available; Available; Available
1012 12 0 plain 274877906 274877906 274877906 274877906 : Available; Available; Available; Available
1012 12 3 plain 274877906 274877906 274877906 274877906 : Available; Available; Available; Available
1012 12 100000 plain 274877906 274877906 274877906 274877906 : Available; Available; Available; Available
1031 31 0 plain 274877906 274877906 274877906 274877906 : Available; Available; Available; Available
1031 31 3 plain 274877906 274877906 274877906 274877906 : Available; Available; Available; Available
1031 31 100000 plain 274877906 274877906 274877906 274877906 : Available; Available; Available; Available
1032 32 0 plain 274877906 274877906 274877906 274877906 : Available; Available; Available; Available
1032 32 3 plain 274877906 274877906 274877906 274877906 : Available; Available; Available; Available
1032 32 100000 plain 274877906 274877906 274877906 274877906 : Available; Available; Available; Available
1 7 2 plain 45812984490 45812984490 30541989660 30541989660 : Available; Unavailable(Slope); Available; Available
2 8 2 plain 91625968981 91625968981 61083979320 61083979320 : Available; Unavailable(Slope); Available; Unavailable(Slope)
3 9 2 plain 137438953472 137438953472 91625968981 91625968981 : Available; Unavailable(Slope); Available; Unavailable(Slope)
4 6 2 plain 183251937962 183251937962 122167958641 122167958641 : Unavailable(Slope); Unavailable(Slope); Unavailable(Slope); Unavailable(Slope)
5 7 2 plain 229064922453 229064922453 152709948302 152709948302 : Unavailable(Slope); Unavailable(Slope); Unavailable(Slope); Unavailable(Slope)
6 8 2 plain 274877906944 274877906944 183251937962 183251937962 : Unavailable(Slope); Unavailable(Slope); Unavailable(Slope); Unavailable(Slope)
7 9 2 plain 320690891434 320690891434 213793927623 213793927623 : Available; Unavailable(Slope); Available; Unavailable(Slope)
8 6 2 plain 366503875925 366503875925 244335917283 244335917283 : Unavailable(Slope); Unavailable(Slope); Unavailable(Slope); Unavailable(Slope)
11 8 2097152 plain 274877906 824633720832 0 274877906944 : Undecided(Slope(6)); Undecided(Slope(6)); Undecided(Slope(3)); Undecided(Slope(3))
12 8 4194304 plain 274877906 824633720832 0 274877906944 : Undecided(Slope(2)); Undecided(Slope(2)); Undecided(Slope(2)); Undecided(Slope(2))
13 8 8388608 plain 274877906 824633720832 0 274877906944 : Undecided(Slope(4)); Undecided(Slope(4)); Undecided(Slope(2)); Undecided(Slope(2))
14 8 16777216 plain 274877906 824633720832 0 274877906944 : Undecided(Slope(1)); Undecided(Slope(1)); Undecided(Slope(7)); Undecided(Slope(7))
15 8 33554432 plain 274877906 824633720832 0 274877906944 : Undecided(Slope(1)); Undecided(Slope(1)); Undecided(Slope(5)); Undecided(Slope(5))
16 8 67108864 plain 274877906 824633720832 0 274877906944 : Undecided(Slope(1)); Undecided(Slope(1)); Undecided(Slope(2)); Undecided(Slope(2))
17 8 134217728 plain 274877906 824633720832 0 274877906944 : Undecided(Slope(3)); Undecided(Slope(3)); Undecided(Slope(6)); Undecided(Slope(6))
18 8 268435456 plain 274877906 824633720832 0 274877906944 : Undecided(Slope(1)); Undecided(Slope(1)); Undecided(Slope(1)); Undecided(Slope(1))
21 8 5 weighed 13089424140 13089424140 6871947673 6871947673 : Unavailable(Slope); Unavailable(Slope); Unavailable(Slope); Unavailable(Slope)
22 9 5 weighed 12494450315 12494450315 6871947673 6871947673 : Unavailable(Slope); Unavailable(Slope); Available; Unavailable(Singular)
23 10 5 weighed 11951213345 11951213345 6871947673 6871947673 : Available; Available; Available; Available
24 11 5 weighed 11453246122 11453246122 6871947673 6871947673 : Available; Available; Unavailable(Slope); Unavailable(Slope)
25 7 5 weighed 10995116277 10995116277 6871947673 6871947673 : Unavailable(Slope); Unavailable(Slope); Unavailable(Slope); Unavailable(Slope)
26 8 5 weighed 10572227190 10572227190 6871947673 6871947673 : Available; Available; Available; Available
31 9 1000 level 274877906944 274877906944 274877906944 274877906944 : Unavailable(Singular); Unavailable(Singular); Unavailable(Singular); Unavailable(Singular)
32 9 0 level 274877906944 274877906944 274877906944 274877906944 : Unavailable(Singular); Unavailable(Singular); Unavailable(Singular); Unavailable(Singular)
100 7 4096 near 10 10 10 10 : Unavailable(Singular); Unavailable(Singular); Unavailable(Singular); Unavailable(Singular)
100 7 134217728 near 10 10 10 10 : Undecided(Det); Undecided(Det); Undecided(Det); Undecided(Det)
101 7 4096 near 10 10 10 10 : Available; Unavailable(Singular); Available; Unavailable(Singular)
104 7 1048576 near 10 10 10 10 : Undecided(Det); Undecided(Det); Undecided(Det); Undecided(Det)
107 7 1048576 near 10 10 10 10 : Available; Undecided(SlopeWithout(1, 5)); Available; Undecided(SlopeWithout(1, 5))
113 7 4096 near 10 10 10 10 : Available; Available; Available; Available
144 7 1048576 near 10 10 10 10 : Available; Undecided(DetWithout(1)); Available; Undecided(DetWithout(1))
162 7 1048576 near 10 10 10 10 : Available; Undecided(DetWithout(3)); Available; Undecided(DetWithout(3))
61 8 3 plain 594225010104096795420431 594225010104096795420431 274877906 274877906 : Overflow(8); Overflow(8); Overflow(1); Overflow(1)
62 8 3 plain 126718525658857821030384 126718525658857821030384 274877906 274877906 : Overflow(3); Overflow(3); Unavailable(Slope); Unavailable(Slope)
65 8 3 plain 171918870550938207054291 171918870550938207054291 274877906 274877906 : Overflow(6); Overflow(6); Unavailable(Slope); Unavailable(Slope)
66 8 3 plain 441798977257127081506406 441798977257127081506406 274877906 274877906 : Overflow(7); Overflow(7); Unavailable(Slope); Unavailable(Slope)
67 8 3 plain 2357912973224039436739771 2357912973224039436739771 274877906 274877906 : Overflow(4); Overflow(4); Unavailable(Slope); Unavailable(Slope)
68 8 3 plain 1098592266156454394634985 1098592266156454394634985 274877906 274877906 : Overflow(1); Overflow(1); Unavailable(Slope); Unavailable(Slope)
44 8 3 plain 9671406556917033397649408 9671406556917033397649408 274877906 274877906 : Overflow(1); Overflow(1); Overflow(1); Overflow(1)
48 6 3 plain 37778931862957161709568 37778931862957161709568 274877906 274877906 : Unavailable(Slope); Unavailable(Slope); Unavailable(Slope); Unavailable(Slope)
51 7 3 plain 0 137438953472 0 4835703278458516698824704 : Undecided(Slope(5)); Undecided(Slope(5)); Undecided(Slope(5)); Undecided(Slope(5))
52 7 3 plain 0 68719476736 0 19342813113834066795298816 : Available; Overflow(2); Available; Overflow(3)
53 7 3 plain 0 34359738368 0 77371252455336267181195264 : Available; Overflow(2); Available; Overflow(2)
54 7 3 plain 0 17179869184 0 75557863725914323419136 : Available; Undecided(SlopeWithout(1, 2)); Available; Undecided(SlopeWithout(1, 2))
55 7 3 plain 0 274877906944 0 302231454903657293676544 : Undecided(Slope(4)); Undecided(Slope(4)); Undecided(Slope(2)); Undecided(Slope(2))
56 7 3 plain 0 137438953472 0 1208925819614629174706176 : Undecided(Slope(1)); Undecided(Slope(1)); Undecided(Slope(1)); Undecided(Slope(1))
57 7 3 plain 0 68719476736 0 4835703278458516698824704 : Undecided(Slope(3)); Undecided(Slope(3)); Undecided(Slope(3)); Undecided(Slope(3))
58 7 3 plain 0 34359738368 0 19342813113834066795298816 : Available; Overflow(2); Available; Undecided(SlopeWithout(1, 2))
";
