// An almanac of five records, and texts that differ from it.
ghost use Rattle.std.specs.Prelude.{◌≡◌};
ghost use Rattle.raim_model.specs.Span.{IsFlight};

mod tables;

use raim_model::{AlmRecord, Angle, Dec, Refusal, Span, TextFault, TextWhy};
use sem_text::read_sem;
use std::alloc::Global;
use std::process::Abort;
use std::test::Fail;
use tables::{
    Damage, damaged_decimals, damaged_example, damaged_heads, damaged_words, example, other_lines,
};

// One second from 2024-10-27, the begin of week 2338.
fn flight() -> Span
    ensures { IsFlight result }
{
    Span {
        first: 1_414_022_400_000,
        end: 1_414_022_401_000,
    }
}

// Lines 5 and 6 of a record.
fn orbit(prn: u8) -> &'static str {
    match prn {
        1 => "5153.6 0.5 0.0\n0.0 0.0 0.0\n",
        2 => "5153.6 -0.5 0.0\n0.0 0.0 0.0\n",
        3 => "5153.6 0.0 0.0\n0.5 0.0 0.0\n",
        4 => "5153.6 0.0 0.0\n-0.25 0.0 0.0\n",
        _ => "5153.6 0.0 0.0\n0.0 0.0 0.0\n",
    }
}

// An almanac of these first two lines, and a record for each PRN, in this order.
fn almanac(alloc: Global, head: &str, prns: &[u8]) -> Result<String, Fail> {
    let mut text = String::from_str(alloc, head)?;
    for prn in prns {
        let begin = format!(in alloc; "{prn}\n{prn}\n0\n0.0 0.2 0.0\n")?;
        text.push_str(begin.as_str())?;
        text.push_str(orbit(*prn))?;
        text.push_str("0\n9\n")?;
    }
    Ok(text)
}

// The almanac of the tests: 42 lines.
fn five(alloc: Global) -> Result<String, Fail> {
    almanac(alloc, "5 FIVE\n2338 0\n", &[1, 2, 3, 4, 5])
}

fn record(prn: u8, omega0: Dec, m0: Dec) -> AlmRecord {
    AlmRecord {
        prn,
        health: 0,
        e: Dec::ZERO,
        toa_ms: 1_414_022_400_000,
        incl: Angle::Semi30(Dec::new(false, 2, 1)),
        rate: Angle::Semi(Dec::ZERO),
        sqrt_a: Dec::new(false, 51536, 1),
        omega0: Angle::Semi(omega0),
        perigee: Angle::Semi(Dec::ZERO),
        m0: Angle::Semi(m0),
    }
}

// What the almanac of the tests says.
fn five_records() -> [AlmRecord; 5] {
    [
        record(1, Dec::new(false, 5, 1), Dec::ZERO),
        record(2, Dec::new(true, 5, 1), Dec::ZERO),
        record(3, Dec::ZERO, Dec::new(false, 5, 1)),
        record(4, Dec::ZERO, Dec::new(true, 25, 2)),
        record(5, Dec::ZERO, Dec::ZERO),
    ]
}

fn expect_five(rt: &impl Abort, alloc: Global, text: &[u8]) {
    match read_sem(alloc, text, flight()) {
        Ok(records) => {
            let wanted = five_records();
            assert_eq!(rt; records.as_slice(), wanted.as_slice(), "{text:?}")
        }
        Err(refusal) => assert!(rt; false, "{refusal:?} {text:?}"),
    }
}

fn expect_fault(rt: &impl Abort, alloc: Global, text: &[u8], line: u32, why: TextWhy) {
    let wanted = Refusal::Text(TextFault { line, why });
    match read_sem(alloc, text, flight()) {
        Ok(_) => assert!(rt; false, "{wanted:?}"),
        Err(refusal) => assert_eq!(rt; refusal, wanted),
    }
}

// The text with another line in the place of this one.
fn with_line(alloc: Global, text: &str, place: usize, other: &str) -> Result<Vec<u8>, Fail> {
    let mut changed = Vec::new(alloc);
    for (before, line) in text.lines().enumerate() {
        let line = if before + 1 == place { other } else { line };
        changed.extend_from_slice(line.as_bytes())?;
        changed.push(b'\n')?;
    }
    Ok(changed)
}

#[test]
fn five_records_are_read(rt: HostRuntime) -> Result<(), Fail> {
    let alloc = rt.alloc();
    let text = five(alloc)?;
    expect_five(&rt, alloc, text.as_bytes());
    // In another order.
    let mixed = almanac(alloc, "5 FIVE\n2338 0\n", &[3, 5, 1, 4, 2])?;
    expect_five(&rt, alloc, mixed.as_bytes());
    // Without a name, with a name of several words, and the week as some producers write it.
    for head in [
        "5\n2338 0\n",
        "5 FIVE OF 5 SATELLITES\n2338 0\n",
        "5 FIVE\n290 0\n",
        "05\t \n 02338\t+0.0E5 \n",
    ] {
        let other = almanac(alloc, head, &[1, 2, 3, 4, 5])?;
        expect_five(&rt, alloc, other.as_bytes());
    }
    // Lines that end in CR LF; the last needs no line feed.
    let mut returns = Vec::new(alloc);
    for line in text.as_str().lines() {
        returns.extend_from_slice(line.as_bytes())?;
        returns.extend_from_slice(b"\r\n")?;
    }
    expect_five(&rt, alloc, &returns);
    if let Some((_, but_last)) = text.as_bytes().split_last() {
        expect_five(&rt, alloc, but_last);
    }
    Ok(())
}

fn expect_damage(rt: &impl Abort, alloc: Global, text: &str, rows: &[Damage]) -> Result<(), Fail> {
    for (place, line, refused, why) in rows {
        let changed = with_line(alloc, text, *place, line)?;
        let wanted = Refusal::Text(TextFault {
            line: *refused,
            why: *why,
        });
        match read_sem(alloc, &changed, flight()) {
            Ok(_) => assert!(rt; false, "{place} {line:?}"),
            Err(refusal) => assert_eq!(rt; refusal, wanted, "{place} {line:?}"),
        }
    }
    Ok(())
}

// Two records, whose values differ from zero and from each other.
#[test]
fn each_value_has_its_field(rt: HostRuntime) -> Result<(), Fail> {
    let alloc = rt.alloc();
    let Ok(records) = read_sem(alloc, example().as_bytes(), flight()) else {
        assert!(rt; false);
        return Ok(());
    };
    let last = AlmRecord {
        prn: 17,
        health: 0,
        e: Dec::new(false, 15, 3),
        toa_ms: 1_414_022_400_500,
        incl: Angle::Semi30(Dec::new(true, 5, 2)),
        rate: Angle::Semi(Dec::new(true, 25, 10)),
        sqrt_a: Dec::new(false, 51535, 1),
        omega0: Angle::Semi(Dec::new(true, 25, 2)),
        perigee: Angle::Semi(Dec::new(false, 75, 2)),
        m0: Angle::Semi(Dec::new(false, 125, 3)),
    };
    let mut first = record(4, Dec::new(false, 5, 1), Dec::ZERO);
    first.health = 63;
    first.toa_ms = 1_414_022_400_500;
    assert_eq!(rt; records.as_slice(), [first, last].as_slice());
    expect_damage(&rt, alloc, example(), damaged_example())
}

#[test]
fn other_lines_are_accepted(rt: HostRuntime) -> Result<(), Fail> {
    let alloc = rt.alloc();
    let text = five(alloc)?;
    for (place, line) in other_lines() {
        let changed = with_line(alloc, text.as_str(), *place, line)?;
        match read_sem(alloc, &changed, flight()) {
            Ok(records) => assert_eq!(rt; records.len(), 5, "{line:?}"),
            Err(refusal) => assert!(rt; false, "{refusal:?} {line:?}"),
        }
    }
    Ok(())
}

#[test]
fn damaged_lines_are_refused(rt: HostRuntime) -> Result<(), Fail> {
    let alloc = rt.alloc();
    let text = five(alloc)?;
    expect_damage(&rt, alloc, text.as_str(), damaged_heads())?;
    expect_damage(&rt, alloc, text.as_str(), damaged_words())?;
    expect_damage(&rt, alloc, text.as_str(), damaged_decimals())
}

#[test]
fn files_that_are_cut(rt: HostRuntime) -> Result<(), Fail> {
    let alloc = rt.alloc();
    let text = five(alloc)?;
    for (kept, why) in [
        (0u8, TextWhy::Short),
        (1, TextWhy::Short),
        (2, TextWhy::CountDiffers { said: 5, found: 0 }),
        (10, TextWhy::CountDiffers { said: 5, found: 1 }),
        (13, TextWhy::Short),
    ] {
        let mut cut = Vec::new(alloc);
        for line in text.as_str().lines().take(usize::from(kept)) {
            cut.extend_from_slice(line.as_bytes())?;
            cut.push(b'\n')?;
        }
        expect_fault(&rt, alloc, &cut, u32::from(kept), why);
    }
    // A byte that is no digit, in the place of a PRN.
    let zero = with_line(alloc, text.as_str(), 3, "\u{0}")?;
    expect_fault(&rt, alloc, &zero, 3, TextWhy::Number);
    Ok(())
}

// Two lines, a blank one, and for each of thirty records eight lines and a blank one.
#[test]
fn thirty_records(rt: HostRuntime) -> Result<(), Fail> {
    let alloc = rt.alloc();
    let mut records = String::new(alloc);
    for prn in 1..31u8 {
        let record = format!(in alloc;
            "{prn}\n{prn}\n0\n0.0 0.2 0.0\n5153.6 0.0 0.0\n0.0 0.0 0.0\n0\n9\n\n"
        )?;
        records.push_str(record.as_str())?;
    }
    let text = format!(in alloc; "31 SATELLITES\n2338 0\n\n{}", records.as_str())?;
    assert_eq!(rt; text.as_str().lines().count(), 273);
    let why = TextWhy::CountDiffers {
        said: 31,
        found: 30,
    };
    expect_fault(&rt, alloc, text.as_bytes(), 272, why);
    let text = format!(in alloc; "30 SATELLITES\n2338 0\n\n{}", records.as_str())?;
    let Ok(found) = read_sem(alloc, text.as_bytes(), flight()) else {
        assert!(rt; false);
        return Ok(());
    };
    assert_eq!(rt; found.len(), 30);
    for (before, record) in found.iter().enumerate() {
        assert_eq!(rt; usize::from(record.prn), before + 1);
    }
    Ok(())
}
