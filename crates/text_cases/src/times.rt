//! Dates, rollovers and weeks against values that another calendar gives (Python's `datetime`).
ghost use Rattle.std.specs.Prelude.{◌<◌};

use gps_week::{TimeFault, day_ms, full_week, read_time, utc_ms, utc_text};
use raim_model::TextWhy;
use std::process::Abort;

/// Reads the text as these milliseconds, and prints them as the text.
fn both_ways(rt: &impl Abort, text: &[u8], leap: u8, ms: i64) {
    let read = utc_ms(text, leap);
    assert_eq!(rt; read, Ok(ms));
    if let Ok(ms) = read {
        let printed = utc_text(ms, leap);
        assert!(rt; printed.as_str().as_bytes() == text);
    }
}

/// The text of midnight on that day.
fn midnight(year: u16, month: u8, day: u8) -> [u8; 24]
    requires year { year < 10000 }
    requires month { month < 100 }
    requires day { day < 100 }
{
    let mut text = *b"0000-00-00T00:00:00.000Z";
    text[0] += (year / 1000) as u8;
    text[1] += (year / 100 % 10) as u8;
    text[2] += (year / 10 % 10) as u8;
    text[3] += (year % 10) as u8;
    text[5] += month / 10;
    text[6] += month % 10;
    text[8] += day / 10;
    text[9] += day % 10;
    text
}

/// The days of a month.
fn month_length(year: u16, month: u8) -> u8
    ensures { result < 32 }
{
    let leap = year % 4 == 0 && (year % 100 != 0 || year % 400 == 0);
    match month {
        2 => if leap { 29 } else { 28 },
        4 | 6 | 9 | 11 => 30,
        _ => 31,
    }
}

#[test]
fn every_month_ends_on_its_last_day(rt: HostRuntime) {
    // The day number of the first of the month, where 6 January 1980 is 0.
    let mut first: i64 = -5;
    for year in 1980u16..10000 {
        for month in 1u8..13 {
            let length = month_length(year, month);
            let last = first.wrapping_add(length as i64).wrapping_sub(1);
            let text = midnight(year, month, length);
            both_ways(&rt, &text, 0, last.wrapping_mul(86_400_000));
            let after = midnight(year, month, length + 1);
            assert_eq!(rt; utc_ms(&after, 0), Err(TimeFault::BadDate));
            first = last.wrapping_add(1);
        }
    }
    assert_eq!(rt; first, 2_929_240);
}

#[test]
fn known_instants(rt: HostRuntime) {
    let instants: [(&[u8], u8, i64); 14] = [
        (b"1980-01-06T00:00:00.000Z", 0, 0),
        (b"1980-01-06T00:00:00.001Z", 0, 1),
        (b"1980-01-06T00:00:00.000Z", 255, 255_000),
        (b"1999-08-22T00:00:00.000Z", 0, 619_315_200_000),
        (b"2019-04-07T00:00:00.000Z", 0, 1_238_630_400_000),
        (b"2038-11-21T00:00:00.000Z", 0, 1_857_945_600_000),
        (b"2058-07-07T00:00:00.000Z", 0, 2_477_260_800_000),
        (b"2078-02-20T00:00:00.000Z", 0, 3_096_576_000_000),
        (b"2097-10-06T00:00:00.000Z", 0, 3_715_891_200_000),
        (b"2000-02-29T12:34:56.789Z", 0, 635_862_896_789),
        (b"2016-12-31T23:59:59.999Z", 17, 1_167_264_016_999),
        (b"2024-10-27T00:00:00.000Z", 18, 1_414_022_418_000),
        (b"2100-02-28T23:59:59.000Z", 0, 3_791_577_599_000),
        (b"9999-12-31T23:59:59.999Z", 0, 253_086_335_999_999),
    ];
    for (text, leap, ms) in instants {
        both_ways(&rt, text, leap, ms);
        assert_eq!(rt; read_time(text, leap), Ok(ms));
    }
}

#[test]
fn faults(rt: HostRuntime) {
    let faults: [(&[u8], TimeFault); 18] = [
        (b"", TimeFault::BadForm),
        (b"2024-10-27", TimeFault::BadForm),
        (b"2024-10-27T00:00:00.000", TimeFault::BadForm),
        (b"2024-10-27T00:00:00.000Z ", TimeFault::BadForm),
        (b"2024-10-27 00:00:00.000Z", TimeFault::BadForm),
        (b"2024-1O-27T00:00:00.000Z", TimeFault::BadForm),
        (b"2024/10/27T00:00:00.000Z", TimeFault::BadForm),
        (b"2024-10-27T00:00:00,000Z", TimeFault::BadForm),
        (b"2024-10-27T00:00:00.000z", TimeFault::BadForm),
        (b"2024-02-30T00:00:00.000Z", TimeFault::BadDate),
        (b"0001-02-29T00:00:00.000Z", TimeFault::BadDate),
        (b"2024-00-10T00:00:00.000Z", TimeFault::BadDate),
        (b"2024-13-10T00:00:00.000Z", TimeFault::BadDate),
        (b"2024-10-27T24:00:00.000Z", TimeFault::BadDate),
        (b"2024-10-27T23:60:00.000Z", TimeFault::BadDate),
        (b"2016-12-31T23:59:60.000Z", TimeFault::BadDate),
        (b"1980-01-05T23:59:59.999Z", TimeFault::BeforeEpoch),
        (b"0000-02-29T00:00:00.000Z", TimeFault::BeforeEpoch),
    ];
    for (text, fault) in faults {
        assert_eq!(rt; utc_ms(text, 18), Err(fault));
        assert_eq!(rt; read_time(text, 18), Err(TextWhy::Time));
    }
}

#[test]
fn known_weeks(rt: HostRuntime) {
    assert_eq!(rt; full_week(290, 2338), 2338);
    assert_eq!(rt; full_week(0, 1536), 1024);
    assert_eq!(rt; full_week(0, 1537), 2048);
    assert_eq!(rt; full_week(2338, 100), 2338);
    assert_eq!(rt; full_week(1023, 0), 1023);
    assert_eq!(rt; full_week(1023, 1024), 1023);
    assert_eq!(rt; full_week(1024, 999_999), 1024);
}

// A year, a day of it, an hour and a minute.
#[test]
fn days_of_years(rt: HostRuntime) {
    let rows = [
        ((2024, 301, 0, 0), Ok(1_414_022_400_000)),
        ((1980, 6, 0, 0), Ok(0)),
        ((1980, 366, 23, 59), Ok(31_190_340_000)),
        ((2000, 60, 12, 30), Ok(635_862_600_000)),
        ((2000, 366, 0, 1), Ok(662_256_060_000)),
        ((2024, 366, 23, 59), Ok(1_419_724_740_000)),
        ((2100, 60, 0, 0), Ok(3_791_577_600_000)),
        ((9999, 365, 23, 59), Ok(253_086_335_940_000)),
        ((2024, 0, 0, 0), Err(TimeFault::BadDate)),
        ((2023, 366, 0, 0), Err(TimeFault::BadDate)),
        ((2024, 367, 0, 0), Err(TimeFault::BadDate)),
        ((2100, 366, 0, 0), Err(TimeFault::BadDate)),
        ((2024, 301, 24, 0), Err(TimeFault::BadDate)),
        ((2024, 301, 0, 60), Err(TimeFault::BadDate)),
        ((1979, 366, 0, 0), Err(TimeFault::BadDate)),
        ((1980, 5, 23, 59), Err(TimeFault::BeforeEpoch)),
        ((1979, 365, 0, 0), Err(TimeFault::BeforeEpoch)),
        ((0, 366, 0, 0), Err(TimeFault::BeforeEpoch)),
    ];
    for ((year, day, hour, minute), wanted) in rows {
        assert!(rt; year <= 9999);
        assert_eq!(rt; day_ms(year, day, hour, minute), wanted, "{year} {day}");
    }
}
