// What is seen over pieces of small flights, and what the test upwards makes of it, as an independent evaluation in whole numbers of
// any size has them (`oracle/table_of_looks.py`).

ghost use Rattle.std.specs.Prelude.{◌≡◌, ◌≤◌};
ghost use Rattle.piece_verdict.specs.Alerts.{IsAlert, MayBeJudgedAgainst};
ghost use Rattle.raim_model.specs.Cuts.{AreCuts};

use crate::piece::looks_within;
use crate::tests::flights::{Flight, WEEK, case_of, flight_of};
use flight_samples::{EIGHT, FIVE, MILD, OVERHEAD, SECOND, sem_almanac};
use piece_verdict::{Alert, FlightJudge, Looks};
use raim_model::{Cmp, Verdict, Why};
use slope_laws::Shift;
use slope_test::{Marks, detect};
use std::alloc::Global;
use std::marker::Brand;
use std::str::SplitWhitespace;
use std::sync::ledger::{Blank, Ledger};
use std::test::Fail;
use step_counter::Steps;

fn looked_counted<L: Ledger>(
    judge: &FlightJudge,
    cuts: &[i64],
    first: i64,
    last: i64,
    blank: Blank,
) -> Option<Looks>
    requires cuts { AreCuts (MayBeJudgedAgainst judge.now.alert judge.now.case) cuts.now }
    requires name { blank.name ≡ L.name }
    requires parts { blank.parts ≡ L.parts }
    requires some { 1 ≤ blank.parts }
{
    let mut steps: Steps<L> = Steps::new(blank);
    looks_within(judge, cuts, first, last, &mut steps)
}

/// What is seen over a piece.
fn looked(judge: &FlightJudge, cuts: &[i64], first: i64, last: i64) -> Option<Looks>
    requires { AreCuts (MayBeJudgedAgainst judge.now.alert judge.now.case) cuts.now }
{
    looked_counted::<Brand>(judge, cuts, first, last, Blank::new(1))
}

/// What is seen over a piece, which is given from the begin of the week on.
fn looked_from_week(alloc: Global, judge: &FlightJudge, first: i64, last: i64) -> Option<Looks>
    requires { IsAlert judge.now.alert }
{
    let Ok(cuts) = judge.cuts(alloc) else {
        return None;
    };
    looked(
        judge,
        cuts.as_slice(),
        first.wrapping_add(WEEK),
        last.wrapping_add(WEEK),
    )
}

fn number(word: Option<&str>) -> Option<i64> {
    match word {
        Some(word) => word.parse::<i64>().ok(),
        None => None,
    }
}

/// Whether these words say what is seen: a row is its satellite and the ends of its parts to the east, to the north and up, and of its
/// weight.
fn say(mut words: SplitWhitespace, looks: &Looks) -> bool {
    let word = words.next();
    let agrees = match looks {
        Looks::Few => word == Some("Few"),
        Looks::Straddle(prn) => word == Some("Straddle")
            && number(words.next()) == Some(*prn as i64),
        Looks::Rows(rows) => {
            word == Some("Rows")
                && rows.as_slice().iter().all(|row| {
                    number(words.next()) == Some(row.prn as i64)
                        && number(words.next()) == Some(row.e.lo)
                        && number(words.next()) == Some(row.e.hi)
                        && number(words.next()) == Some(row.n.lo)
                        && number(words.next()) == Some(row.n.hi)
                        && number(words.next()) == Some(row.u.lo)
                        && number(words.next()) == Some(row.u.hi)
                        && number(words.next()) == Some(row.k.lo)
                        && number(words.next()) == Some(row.k.hi)
                })
        }
    };
    agrees && words.next().is_none()
}

/// Whether what is seen is what a line says: the first and the last millisecond from the begin of the week on, and what is seen.
fn agrees(alloc: Global, judge: &FlightJudge, line: &str) -> bool
    requires { IsAlert judge.now.alert }
{
    let mut words = line.split_whitespace();
    let Some(first) = number(words.next()) else {
        return false;
    };
    let Some(last) = number(words.next()) else {
        return false;
    };
    match looked_from_week(alloc, judge, first, last) {
        Some(looks) => say(words, &looks),
        None => false,
    }
}

/// Whether what is seen on a flight is what the lines say.
fn has_looks(alloc: Global, flight: Flight, lines: &str) -> bool {
    let Some(case) = case_of(alloc, flight) else {
        return false;
    };
    let judge = FlightJudge {
        case,
        alert: Alert::Horizontal,
    };
    for line in lines.lines() {
        if !agrees(alloc, &judge, line) {
            return false;
        }
    }
    true
}

/// What the test upwards makes of the rows over a piece, against an alert limit in millimetres.
fn upwards(alloc: Global, flight: Flight, first: i64, last: i64, limit_mm: u32) -> Option<Verdict> {
    let case = case_of(alloc, flight)?;
    let judge = FlightJudge {
        case,
        alert: Alert::Horizontal,
    };
    let Some(Looks::Rows(rows)) = looked_from_week(alloc, &judge, first, last) else {
        return None;
    };
    let n = rows.len();
    if n < 5 || limit_mm == 0 || limit_mm > 1_000_000_000 {
        return None;
    }
    let mut known = Marks::none();
    let kappa = judge.case.kappa_over(n, limit_mm);
    Some(detect(Shift::Vertical, rows.as_slice(), kappa, &mut known))
}

/// The mildest detection, with weights for four of five satellites.
const WEIGHED: &str =
    "leap 0\nmask -90\nalert 1000000000\nbias 5 1\nweight 1 0.5\nweight 3 0.25\nweight 4 0.75\nweight 5 1\n";

/// A mask at which a satellite sets.
const SETTING: &str = "leap 0\nmask 9.99\nalert enroute\nbias 5 2000000\n";

/// Ten seconds over the ocean.
const TEN: &str =
    "2024-10-27T00:00:00.000Z 40 -30 10000\n2024-10-27T00:00:10.000Z 40.001 -29.999 10000\n";

#[test]
fn pieces_are_seen(rt: HostRuntime) -> Result<(), Fail> {
    let alloc = rt.alloc();
    let five = [sem_almanac(alloc, "2338", &FIVE)?];
    let eight = [sem_almanac(alloc, "2338", &EIGHT)?];
    let overhead = [sem_almanac(alloc, "2338", &OVERHEAD)?];
    let zenith = "leap 0\nmask 90\nalert 1000000000\nbias 5 1\n";
    let three =
        "1 2024-10-27T00:00:00.000Z -\n2 2024-10-27T00:00:00.000Z -\n3 2024-10-27T00:00:00.000Z -\n";
    let four =
        "1 2024-10-27T00:00:00.000Z -\n2 2024-10-27T00:00:00.000Z -\n3 2024-10-27T00:00:00.000Z -\n4 2024-10-27T00:00:00.000Z -\n";
    let rows: [(Flight, &str); 5] = [
        // Visible satellites are rows with their weights.
        (flight_of(WEIGHED, &five, "", SECOND), ROWS_OF_FIVE),
        // A satellite straddles the mask where it sets.
        (flight_of(SETTING, &eight, "", TEN), LOOKS_AT_EIGHT),
        // Too few come before a straddling one: five may be visible, and then four.
        (
            flight_of(SETTING, &eight, three, TEN),
            "0 9999 Straddle 8\n9999 9999 Few\n",
        ),
        (flight_of(SETTING, &eight, four, TEN), "0 9999 Few\n"),
        // The first straddling satellite is named.
        (flight_of(zenith, &overhead, "", SECOND), "0 0 Straddle 1\n"),
    ];
    for (flight, lines) in rows {
        assert!(rt; has_looks(alloc, flight, lines), "{lines}");
    }
    Ok(())
}

#[test]
fn rows_are_tested_upwards(rt: HostRuntime) -> Result<(), Fail> {
    let alloc = rt.alloc();
    let five = [sem_almanac(alloc, "2338", &FIVE)?];
    let eight = [sem_almanac(alloc, "2338", &EIGHT)?];
    let second = flight_of(WEIGHED, &five, "", SECOND);
    let ten = flight_of(SETTING, &eight, "", TEN);
    let steep = Verdict::Unavailable(Why::Slope);
    let open = Verdict::Undecided(Cmp::Slope(1));
    let passes = Verdict::Available;
    for (flight, first, last, limit_mm, expected) in [
        (second, 0, 0, 5, steep),
        (second, 0, 0, 6, passes),
        (second, 0, 999, 5, steep),
        (second, 0, 999, 6, passes),
        (ten, 0, 0, 3_445_815, steep),
        (ten, 0, 0, 3_445_816, open),
        (ten, 0, 0, 3_445_817, passes),
        (ten, 9_000, 9_999, 3_697_290, steep),
        (ten, 9_000, 9_999, 4_000_000, open),
        (ten, 9_000, 9_999, 4_446_643, passes),
    ] {
        let found = upwards(alloc, flight, first, last, limit_mm);
        assert_eq!(rt; found, Some(expected), "{limit_mm}");
    }
    Ok(())
}

/// Numbers of satellites, alert limits in millimetres, and the ends of the factor under biases of 260, 252 and 244 metres.
const FACTORS: [(usize, u32, i128, i128); 8] = [
    (5, 556_000, 60_108_646_386, 60_108_646_387),
    (6, 556_000, 56_466_560_357, 56_466_560_358),
    (7, 556_000, 52_938_289_515, 52_938_289_516),
    (8, 556_000, 52_938_289_515, 52_938_289_516),
    (32, 556_000, 52_938_289_515, 52_938_289_516),
    (
        6,
        1,
        17_455_846_602_571_776_000_000,
        17_455_846_602_571_776_000_000,
    ),
    (6, 1_000_000_000, 17_455, 17_456),
    (5, 260_000, 274_877_906_944, 274_877_906_944),
];

/// Whether a flight has these ends of a factor.
fn has_factor(
    alloc: Global,
    flight: Flight,
    n: usize,
    limit_mm: u32,
    low: i128,
    high: i128,
) -> bool {
    let Some(case) = case_of(alloc, flight) else {
        return false;
    };
    if n < 5 || n > 32 || limit_mm == 0 || limit_mm > 1_000_000_000 {
        return false;
    }
    let kappa = case.kappa_over(n, limit_mm);
    kappa.lo == low && kappa.hi == high
}

/// Whether a flight excludes.
fn excludes(alloc: Global, flight: Flight) -> Option<bool> {
    match case_of(alloc, flight) {
        Some(case) => Some(case.excludes()),
        None => None,
    }
}

#[test]
fn limits_give_factors_and_a_mode(rt: HostRuntime) -> Result<(), Fail> {
    let alloc = rt.alloc();
    let five = [sem_almanac(alloc, "2338", &FIVE)?];
    let limits = "leap 0\nmask 5\nalert approach\nbias 5 260000\nbias 6 252000\nbias 7 244000\n";
    let three = flight_of(limits, &five, "", SECOND);
    for (n, limit_mm, low, high) in FACTORS {
        assert!(rt;
            has_factor(alloc, three, n, limit_mm, low, high),
            "{n} {limit_mm}"
        );
    }
    for (limits, expected) in [
        ("leap 0\nmask 5\nalert 1\nbias 5 1\nmode exclude\n", true),
        ("leap 0\nmask 5\nalert 1\nbias 5 1\nmode detect\n", false),
        (MILD, false),
    ] {
        let found = excludes(alloc, flight_of(limits, &five, "", SECOND));
        assert_eq!(rt; found, Some(expected));
    }
    Ok(())
}

/// At the first millisecond and over the whole second.
const ROWS_OF_FIVE: &str = "\
0 0 Rows 1 133639513323 133639513329 -6 6 -32092778152 -32092778147 137438953472 137438953472 2 -267279026658 -267279026646 -11 11 -64185556303 -64185556295 274877906944 274877906944 3 -3 3 66819756660 66819756666 -16046389078 -16046389071 68719476736 68719476736 4 -7 7 -172031344335 -172031344293 113606843612 113606843646 206158430208 206158430208 5 -3 3 -14 14 274877906934 274877906945 274877906944 274877906944
0 999 Rows 1 133639510208 133641725155 -6 19473522 -32093309309 -32083042421 137438953472 137438953472 2 -267279030012 -267274598998 -11 38946399 -64205027918 -64184493872 274877906944 274877906944 3 -3 712 66817544690 66819757337 -16056125837 -16045858049 68719476736 68719476736 4 -12535795 7 -172061441991 -171982115709 113594152743 113648520882 206158430208 206158430208 5 -26352871 3 -14 52712205 274877895815 274877906945 274877906944 274877906944";

/// At the first millisecond, where the eighth satellite sets, and behind it.
const LOOKS_AT_EIGHT: &str = "\
0 0 Rows 1 -121197967538 -121197967418 73543291530 73543291653 235500107487 235500107661 274877906944 274877906944 2 189425335795 189425335940 -44296957775 -44296957657 194200116794 194200116958 274877906944 274877906944 3 150332485131 150332485299 47185774201 47185774339 225236565136 225236565347 274877906944 274877906944 4 -200335066255 -200335066152 -77340695543 -77340695439 171587125901 171587126025 274877906944 274877906944 5 -199067640743 -199067640578 144824997167 144824997319 122293329020 122293329173 274877906944 274877906944 6 246552228515 246552228689 27724999580 27724999698 118326610171 118326610322 274877906944 274877906944 7 -254023281182 -254023281001 59843270956 59843271090 86306542568 86306542716 274877906944 274877906944 8 193125182462 193125182606 189666658315 189666658460 47823490961 47823491077 274877906944 274877906944
4815 4816 Straddle 8
9000 9999 Rows 1 -121136379619 -121052470451 73203857326 73279035595 235592184932 235702615012 274877906944 274877906944 2 189476409438 189614334123 -44634852870 -44538488845 193944368411 194088890661 274877906944 274877906944 3 150285959387 150430138350 47480846064 47580267215 225064824340 225229195782 274877906944 274877906944 4 -200300313766 -200211022616 -77098303734 -77012208348 171755428262 171860762022 274877906944 274877906944 5 -199245298267 -199112509895 144509775887 144609950453 122374501790 122477127160 274877906944 274877906944 6 246593523831 246760932244 27446918728 27541404990 118054273053 118185352498 274877906944 274877906944 7 -253978255225 -253814704451 59994134079 60098437806 86479311811 86597478001 274877906944 274877906944";
