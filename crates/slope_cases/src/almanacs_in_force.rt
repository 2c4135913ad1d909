// Almanacs by their times, as a search over single milliseconds has them (`oracle/table_of_almanacs.py`).

ghost use Rattle.std.specs.Prelude.{◌≡◌, true, All};
ghost use Rattle.raim_model.specs.Cuts.{IsCutTime};

use almanac_choice::{handovers, in_force_at};
use raim_model::FARTHEST_CUT_MS;
use std::alloc::Global;
use std::test::Fail;

/// Whether a cut may have this time.
fn is_cut_time(t: &i64) -> bool
    ensures { result ≡ true → IsCutTime t.now }
{
    -FARTHEST_CUT_MS <= *t && *t <= FARTHEST_CUT_MS
}

/// Whether cuts may have these times.
fn are_cut_times(times: &[i64]) -> bool
    ensures { result ≡ true → All IsCutTime times.now }
{
    for t in times {
        if !is_cut_time(t) {
            return false;
        }
    }
    true
}

/// The times of a line, up to its bar.
fn times_of(alloc: Global, line: &str) -> Result<Vec<i64>, Fail> {
    let mut times = Vec::new(alloc);
    for word in line.split_whitespace() {
        let Ok(time) = word.parse::<i64>() else { break };
        times.push(time)?;
    }
    Ok(times)
}

/// The place of the time in force at `t`, where it may be asked.
fn place_at(times: &[i64], t: i64) -> Option<usize> {
    if times.len() == 0 || !are_cut_times(times) || !is_cut_time(&t) {
        return None;
    }
    Some(in_force_at(times, t))
}

/// The handovers in rising order, each once, where they may be asked.
fn handovers_in_order(alloc: Global, times: &[i64]) -> Result<Option<Vec<i64>>, Fail> {
    if !are_cut_times(times) {
        return Ok(None);
    }
    let mut found = handovers(alloc, times)?;
    found.sort_unstable();
    found.dedup();
    Ok(Some(found))
}

#[test]
fn the_nearest_is_found_at_each_millisecond(rt: HostRuntime) -> Result<(), Fail> {
    let alloc = rt.alloc();
    let mut lines: usize = 0;
    for line in TABLE.lines() {
        lines = lines.wrapping_add(1);
        let times = times_of(alloc, line)?;
        let mut words = line.split_whitespace().skip(times.len().saturating_add(1));
        let Some(low) = words.next().and_then(|w| w.parse::<i64>().ok()) else {
            panic!(rt; "{line}")
        };
        let Some(places) = words.next() else {
            panic!(rt; "{line}")
        };
        let mut t = low;
        for place in places.bytes() {
            assert_eq!(rt;
                place_at(times.as_slice(), t),
                Some(place.wrapping_sub(b'0') as usize),
                "{t} in {line}"
            );
            t = t.wrapping_add(1);
        }
    }
    assert_eq!(rt; lines, 8);
    Ok(())
}

#[test]
fn handovers_are_found(rt: HostRuntime) -> Result<(), Fail> {
    let alloc = rt.alloc();
    for line in TABLE.lines() {
        let times = times_of(alloc, line)?;
        let Some(found) = handovers_in_order(alloc, times.as_slice())? else {
            panic!(rt; "{line}")
        };
        let mut words = line.split_whitespace().skip(times.len().saturating_add(3));
        for time in found.iter() {
            assert_eq!(rt;
                words.next().and_then(|w| w.parse::<i64>().ok()),
                Some(*time),
                "{line}"
            );
        }
        assert!(rt; words.next().is_none(), "{line}");
    }
    Ok(())
}

/// The times of some almanacs, a bar, a first millisecond, the place of the one in force at it and at each that follows, and the
/// handovers.
const TABLE: &str = "\
7 | 4 0000000
0 10 | -3 00000000011111111 6
0 11 | -3 000000000111111111 6
10 0 | -3 11111111100000000 6
5 5 5 | 2 0000000
3 9 3 20 9 -8 4 3 | -11 55555555500000066611111111333333333 -2 4 7 15
-7 -2 | -10 000000111111 -4
100 101 103 106 | 97 0000112233333 101 103 105";
