// Days by their place in a year.
ghost use Rattle.std.specs.Prelude.{◌≡◌, ◌≤◌, ◌<◌, ◌+◌, ◌*◌, ◌≤ℤ◌, ◌<ℤ◌, ◌+ℤ◌, ◌*ℤ◌, pos, neg_ℤ, IfOk};
ghost use Rattle.jiff_core.specs.Calendar.{days_in_year};
ghost use Rattle.gps_week.specs.GpsTime.{IsInstant};
ghost use Rattle.gps_week.specs.YearDays.{gps_year_day, day_ms_of, MinutesAreOfTheirYear, MinutesAreOfTheirDate};

use crate::civil_time::CivilDate;
use crate::gps_time::TimeFault;
use crate::since_epoch::day_number;
use raim_model::DAY_MS;

const MINUTE_MS: u32 = 60_000;

fn days_of_year(year: u32) -> u32
    ensures { result ≡ days_in_year (pos year) }
{
    if year % 4 == 0 && (year % 100 != 0 || year % 400 == 0) {
        366
    } else {
        365
    }
}

fn days_to(year: u32, day: u32) -> i64
    requires year { year ≤ 9999 }
    requires first { 1 ≤ day }
    requires last { day ≤ days_in_year (pos year) }
    ensures value { result ≡ gps_year_day year day }
    ensures low { neg_ℤ (pos 4375244) ≤ℤ result }
{
    let first = CivilDate {
        year: year as u16,
        month: 1,
        day: 1,
    };
    let Some(first) = day_number(first) else {
        unreachable!();
    };
    first + (day - 1) as i64
}

// The days from 6 January 1980 to a day of a year.
fn year_day_number(year: u32, day: u32) -> i64
    requires year { year ≤ 9999 }
    requires first { 1 ≤ day }
    requires last { day ≤ days_in_year (pos year) }
    ensures value { result ≡ gps_year_day year day }
    ensures low { neg_ℤ (pos 4375244) ≤ℤ result }
    ensures high { result <ℤ pos 2929240 }
{
    days_to(year, day)
}

fn ms_of_minutes(day: i64, minutes: u32) -> i64
    requires low { neg_ℤ (pos 4375244) ≤ℤ day }
    requires high { day <ℤ pos 2929240 }
    requires minutes { minutes < 1440 }
    ensures value { result ≡ pos 86400000 *ℤ day +ℤ pos (minutes * 60000) }
    ensures low { neg_ℤ (pos 378021081600000) ≤ℤ result }
    ensures high { result <ℤ pos 253086336000000 }
{
    DAY_MS * day + (minutes * MINUTE_MS) as i64
}

/// The milliseconds of UTC since the GPS epoch at a minute of a day of a year, whose first day is 1.
pub fn day_ms(year: u32, day: u32, hour: u32, minute: u32) -> Result<i64, TimeFault>
    requires { year ≤ 9999 }
    ensures value { result ≡ day_ms_of year day hour minute }
    ensures range { IfOk result (IsInstant 0) }
{
    if day < 1 || day > days_of_year(year) || hour > 23 || minute > 59 {
        return Err(TimeFault::BadDate);
    }
    let ms = ms_of_minutes(year_day_number(year, day), hour * 60 + minute);
    if ms < 0 {
        return Err(TimeFault::BeforeEpoch);
    }
    Ok(ms)
}

/// The law that a time of whole minutes is a minute of its day of its year, and the same instant:
/// what [`day_ms`] answers there is what [`crate::utc_ms`] answers of the time's text without leap seconds.
pub fn a_day_of_a_year_is_its_date()
    ensures minute { MinutesAreOfTheirYear }
    ensures instant { MinutesAreOfTheirDate }
{}
