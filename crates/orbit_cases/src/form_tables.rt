// Tables of forms of sines, of eccentric anomalies, of satellites' places and of receivers' frames, worked out in whole numbers of
// any size as the definitions are written (`oracle/table_of_form_places.py`).

ghost use Rattle.std.specs.Prelude.{pos, neg_ℤ, ◌^◌, ◌≤ℤ◌, IsTrue, IfSome};
ghost use Rattle.raim_model.specs.AlmanacRanges.{IsAlmRecord};
ghost use Rattle.time_forms.specs.Programs.{form, IsNumberWithin, IsFormWithin};

use crate::position_table::record_of;
use almanac_orbit::prepare;
use angle_forms::{SineCosine, ecc_sin_cos, sin_cos};
use fix_interval::Iv;
use raim_model::AlmRecord;
use satellite_forms::position;
use site_forms::{TimeFrame, TimePlace, frame};
use std::str::SplitWhitespace;
use time_forms::TimeForm;

/// The milliseconds of 90 days.
const NINETY_DAYS: i64 = 7_776_000_000;

pub(crate) fn number(words: &mut SplitWhitespace) -> Option<i64> {
    words.next()?.parse::<i64>().ok()
}

fn is_short_number(z: i64) -> bool
    ensures { IsTrue result → IsNumberWithin z (2 ^ 58) }
{
    -288230376151711744 <= z && z <= 288230376151711744
}

/// The form of three words, where it may be asked.
pub(crate) fn form_of(words: &mut SplitWhitespace) -> Option<TimeForm>
    ensures { IfSome result (λ f. IsFormWithin (form f) (2 ^ 58)) }
{
    let centre = number(words)?;
    let turning = number(words)?;
    let remainder = number(words)?;
    if is_short_number(centre) && is_short_number(turning) && is_short_number(remainder) {
        Some(TimeForm {
            centre,
            turning,
            remainder,
        })
    } else {
        None
    }
}

/// Whether the next words say these forms.
pub(crate) fn say(words: &mut SplitWhitespace, forms: &[TimeForm]) -> bool {
    let mut same = true;
    for f in forms {
        let numbers = (number(words), number(words), number(words));
        same = same && numbers == (Some(f.centre), Some(f.turning), Some(f.remainder));
    }
    same
}

fn say_none(words: &mut SplitWhitespace) -> bool {
    words.next() == Some("none")
}

fn say_pair(words: &mut SplitWhitespace, answer: Option<SineCosine>) -> bool {
    match answer {
        Some(pair) => say(words, &[pair.sine, pair.cosine]),
        None => say_none(words),
    }
}

fn say_place(words: &mut SplitWhitespace, answer: Option<[TimeForm; 3]>) -> bool {
    match answer {
        Some(place) => say(words, &place),
        None => say_none(words),
    }
}

fn say_frame(words: &mut SplitWhitespace, answer: Option<TimeFrame>) -> bool {
    match answer {
        Some(frame) => {
            say(words, &frame.position)
                && say(words, &frame.east)
                && say(words, &frame.north)
                && say(words, &frame.up)
        }
        None => say_none(words),
    }
}

/// The place of a satellite, where it may be asked.
fn place_of(rec: &AlmRecord, middle: i64, half: i64) -> Option<Option<[TimeForm; 3]>>
    requires accepted { IsAlmRecord rec.now }
    requires early { neg_ℤ (pos (2 ^ 60)) ≤ℤ rec.now.toa_ms }
    requires late { rec.now.toa_ms ≤ℤ pos (2 ^ 60) }
{
    let toa = rec.toa_ms;
    if toa - NINETY_DAYS <= middle
        && middle <= toa + NINETY_DAYS
        && 1 <= half
        && half <= NINETY_DAYS
    {
        Some(position(&prepare(rec), middle, half))
    } else {
        None
    }
}

/// An eccentricity in turns, where it is one.
fn eccentricity(words: &mut SplitWhitespace) -> Option<Iv>
    ensures low { IfSome result (λ e. pos 0 ≤ℤ e.lo) }
    ensures high { IfSome result (λ e. e.hi ≤ℤ pos (2 ^ 31)) }
{
    let lo = number(words)?;
    let hi = number(words)?;
    if 0 <= lo && lo <= hi && hi <= 2147483648 {
        Some(Iv {
            lo: lo as i128,
            hi: hi as i128,
        })
    } else {
        None
    }
}

/// Whether what is asked in a line has the answer that the line says.
fn is_right(line: &str) -> Option<bool> {
    let mut words = line.split_whitespace();
    match words.next()? {
        "Sine" => {
            let turns = form_of(&mut words)?;
            Some(say_pair(&mut words, sin_cos(turns)))
        }
        "Anomaly" => {
            let mean = form_of(&mut words)?;
            let eps = eccentricity(&mut words)?;
            Some(say_pair(&mut words, ecc_sin_cos(mean, eps)))
        }
        "Position" => {
            let rec = record_of(words.next()?)?;
            let middle = number(&mut words)?;
            let half = number(&mut words)?;
            let place = place_of(&rec, middle, half)?;
            Some(say_place(&mut words, place))
        }
        _ => {
            let lat = form_of(&mut words)?;
            let lon = form_of(&mut words)?;
            let height = form_of(&mut words)?;
            Some(say_frame(&mut words, frame(&TimePlace { lat, lon, height })))
        }
    }
}

#[test]
fn forms_of_places_are_as_the_table_says(rt: HostRuntime) {
    let mut lines: usize = 0;
    for line in TABLE.lines() {
        lines = lines.wrapping_add(1);
        assert_eq!(rt; is_right(line), Some(true), "{line}");
    }
    assert_eq!(rt; lines, 27);
}

/// What is asked, its arguments (for a position the record, the middle and the half length), and the answer.
const TABLE: &str = "\
Sine 0 0 0 0 0 262 274877906943 0 262
Sine 34359738368 1048576 3 194368031998 4658700 461 194368031998 -4658701 461
Sine -1374389547065 -2147483648 100 -77565 -13493037705 335548514 274877906943 -3808 335548513
Sine 206158430215 137438953472 1 -274877906943 135 1374389535047 43 863554413085 1374389535045
Sine 206158430215 137438953473 1 none
Sine 91625968981 -137438953473 0 none
Sine 288230376151711744 0 1099511627776 0 0 130841883705606 274877906943 0 130841883705606
Sine 288230376151711744 0 36028797018963968 none
Anomaly 0 0 0 0 0 0 0 2166 274877906943 0 2166
Anomaly 137438953472 4194304 5 240000000 240000002 0 -26209798 3815 -274877906944 0 3815
Anomaly -962072674205 -1073741824 12 240000000 240000002 -615 6709709772 83631353 -274877906943 -16 83631352
Anomaly 549755818209 91625968981 2 2147483648 2147483648 28550 605421500455 803520190472 274877906943 -62882 803520190473
Anomaly 549755818209 137438953472 2 2147483648 2147483648 none
Anomaly 54975581388 144115188075855872 2 240000000 240000002 none
Anomaly 54975581388 3 144115188075855872 240000000 240000002 none
Position circle 1414022400000 8 7300645322048 0 76404 0 -4259097 11113 0 8518801 65298
Position yuma 1414431504123 500 -6875251771358 131515107 163889 232973912646 -77642120 125357 2219620686206 407692317 101909
Position sem 1406246400000 30000 6632331244485 -7381465776 162787278 -1558134472459 6587589001 142586566 2427148456955 24060904628 84829407
Position fast 7775999998 300000 -687690822181 328456078225 30737616292 -3291056533013 52503912662 29027330552 2649885964932 140398401295 15238455923
Position extreme -123456784 8 5638635671434 -13000217 254747 -12623874269548 -5917619 254677 0 0 17
Position late 1414022400004 50000000 none
Frame 0 0 0 0 0 0 0 0 0 1753208948748 0 3410 0 0 1675 0 0 1663 0 0 262 274877906943 0 262 0 0 0 0 0 266 0 0 4 274877906943 0 262 274877906942 0 528 0 0 266 0 0 262
Frame 36650387568 12345678 3 -55739131093 -23456789 3 2748779060 1 4 344162422427 -711118388 289079 -1125704219875 167218928 272674 1298607833437 331189448 73475 262867049651 43090722 40413 80366522468 -140943401 40413 0 0 0 -59723951976 89565928 46710 195348291706 81659246 45083 183929220663 -57645880 11470 53775714722 -111163568 45192 -175892383917 26293708 42543 204274094079 51904582 11470
Frame 68719476736 0 1 274877906944 0 1 -274877906 0 1 0 0 1933 0 0 4 1747055893188 0 1999 0 0 301 274877906943 0 301 0 0 0 -274877906942 0 606 0 0 305 0 0 301 0 0 305 0 0 4 274877906943 0 301
Frame -22906492230 763549741 7 152709948200 -763549741 7 824633718 274877906 9 -1428671386036 -23622408075 541578917 -519850090648 19639502998 461906242 -871876936861 26263598040 271366712 94013780526 -4508198387 42419966 -258300740992 -1640850012 42419966 0 0 0 -129137969698 3083789324 74373381 -47040960931 3675116986 71132609 238051250401 2398762255 42419966 -223702163120 -3675116987 84388011 -81398651532 3083789324 71988430 -137438953389 4154778104 42419967
Frame 36650387568 144115188075855872 3 -55739131093 0 3 0 0 0 none
Frame 36650387568 137438953472 3 -55739131093 0 3 0 0 0 339768835691 -1204249087106 3958715400504 -1111333782511 3938921267850 12948374534978 1325983624403 3709047258461 13357181708345 262867049651 0 380 80366522468 0 380 0 0 0 -59723965283 -168941343884 401832615456 195348287637 552582235329 1314335251670 183929220663 -641745993277 1374389535170 53775699943 -187628370577 401832615517 -175892388435 613704745330 1314335251730 204274094079 577830688415 1374389535170";
