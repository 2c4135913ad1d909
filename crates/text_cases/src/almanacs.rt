// Files of almanacs, and where they are refused.
ghost use Rattle.std.specs.Prelude.{◌<◌};

use alm_reader::AlmanacReader;
use raim_base::{MemDesk, feed_lines};
use raim_model::{FileNo, LATEST_MS, Span, TextFault, TextWhy};
use sem_text::SemReader;
use std::alloc::{AllocError, Global};
use std::process::Abort;
use std::test::Fail;
use text_lines::next_line;
use yuma_text::YumaReader;

// From the first millisecond of week 2338 on.
const FLIGHT: Span = Span {
    first: 1_414_022_400_000,
    end: 1_414_022_401_000,
};

// A second before the first millisecond of week 2048, and one behind it.
const ROLLOVER: Span = Span {
    first: 1_238_630_399_000,
    end: 1_238_630_401_000,
};

// Five healthy satellites in 42 lines.
fn five(alloc: Global) -> Result<String, Fail> {
    let mut text = String::from_str(alloc, "5 FIVE\n2338 0\n")?;
    for (prn, orbit, anomaly) in [
        (1, "5153.6 0.5 0.0", "0.0 0.0 0.0"),
        (2, "5153.6 -0.5 0.0", "0.0 0.0 0.0"),
        (3, "5153.6 0.0 0.0", "0.5 0.0 0.0"),
        (4, "5153.6 0.0 0.0", "-0.25 0.0 0.0"),
        (5, "5153.6 0.0 0.0", "0.0 0.0 0.0"),
    ] {
        let record = format!(in alloc; "{prn}\n{prn}\n0\n0.0 0.2 0.0\n{orbit}\n{anomaly}\n0\n9\n")?;
        text.push_str(record.as_str())?;
    }
    Ok(text)
}

// One satellite in the fourteen lines of a YUMA record.
fn yuma(alloc: Global, prn: u8, week: u32) -> Result<String, Fail> {
    Ok(format!(in alloc;
        "* PRN {prn}\nID: {prn}\nHealth: 000\nEccentricity: 0.01\nTime of Applicability(s): 0.0\nOrbital Inclination(rad): 0.9\nRate of Right Ascen(r/s): 0.0\nSQRT(A) (m 1/2): 5153.6\nRight Ascen at Week(rad): 1.0\nArgument of Perigee(rad): 1.0\nMean Anom(rad): 1.0\nAf0(s): 0.0\nAf1(s/s): 0.0\nweek: {week}\n"
    )?)
}

// One satellite in the eight lines of a SEM record.
fn sem(alloc: Global, prn: u8) -> Result<String, Fail> {
    Ok(format!(in alloc; "{prn}\n{prn}\n0\n0.0 0.2 0.0\n5153.6 0.0 0.0\n0.0 0.0 0.0\n0\n9\n")?)
}

fn fed(rt: &impl Abort, alloc: Global, span: Span, text: &[u8]) -> Result<AlmanacReader, Fail> {
    assert!(rt; 0 <= span.first && span.first < span.end && span.end <= LATEST_MS);
    let mut reader = AlmanacReader::new(alloc, span).map_err(|_| AllocError)?;
    let mut rest = text;
    for _ in 0..u64::MAX {
        let Some((line, after)) = next_line(rest) else {
            break;
        };
        let _ = reader.feed_line(line);
        rest = after;
    }
    Ok(reader)
}

fn expect_fault(
    rt: &impl Abort,
    alloc: Global,
    text: &[u8],
    line: u32,
    why: TextWhy,
) -> Result<(), Fail> {
    match fed(rt, alloc, FLIGHT, text)?.finish() {
        Ok(_) => assert!(rt; false, "{line} {why:?}"),
        Err(fault) => assert_eq!(rt; fault, TextFault { line, why }),
    }
    Ok(())
}

fn expect_almanacs(
    rt: &impl Abort,
    alloc: Global,
    text: &[u8],
    sizes: &[usize],
) -> Result<(), Fail> {
    match fed(rt, alloc, FLIGHT, text)?.finish() {
        Ok(almanacs) => {
            assert_eq!(rt; almanacs.len(), sizes.len());
            for (almanac, size) in almanacs.iter().zip(sizes) {
                assert_eq!(rt; almanac.records.len(), *size);
            }
        }
        Err(fault) => assert!(rt; false, "{fault:?}"),
    }
    Ok(())
}

#[test]
fn the_format_is_chosen_behind_carriage_returns(rt: HostRuntime) -> Result<(), Fail> {
    let alloc = rt.alloc();
    expect_fault(&rt, alloc, b"\r\r\n* title\n", 1, TextWhy::Label)?;
    expect_fault(&rt, alloc, b" \n\r\r\n5 FIVE\n", 2, TextWhy::Number)?;
    expect_fault(&rt, alloc, b"\n\r\r\n \n", 0, TextWhy::Short)?;
    expect_fault(&rt, alloc, b"", 0, TextWhy::Short)
}

#[test]
fn a_failed_reader_repeats_its_fault(rt: HostRuntime) -> Result<(), Fail> {
    let fault = TextFault {
        line: 2,
        why: TextWhy::Label,
    };
    let mut reader = YumaReader::new(rt.alloc(), FLIGHT).map_err(|_| AllocError)?;
    assert_eq!(rt; reader.feed_line(b"* title"), Ok(()));
    assert_eq!(rt; reader.feed_line(b"no label"), Err(fault));
    assert_eq!(rt; reader.feed_line(b"ID: 1"), Err(fault));
    match reader.finish() {
        Ok(_) => assert!(rt; false),
        Err(found) => assert_eq!(rt; found, fault),
    }
    let mut reader = AlmanacReader::new(rt.alloc(), FLIGHT).map_err(|_| AllocError)?;
    assert_eq!(rt; reader.feed_line(b"* title"), Ok(()));
    assert_eq!(rt; reader.feed_line(b"no label"), Err(fault));
    assert_eq!(rt; reader.feed_line(b"---"), Err(fault));
    match reader.finish() {
        Ok(_) => assert!(rt; false),
        Err(found) => assert_eq!(rt; found, fault),
    }
    Ok(())
}

#[test]
fn lines_are_fed_to_a_sem_reader(rt: HostRuntime) -> Result<(), Fail> {
    let alloc = rt.alloc();
    let text = five(alloc)?;
    let mut reader = SemReader::new(alloc, FLIGHT).map_err(|_| AllocError)?;
    let mut rest = text.as_bytes();
    let mut lines = 0u64;
    for _ in 0..u64::MAX {
        let Some((line, after)) = next_line(rest) else {
            break;
        };
        assert_eq!(rt; reader.feed_line(line), Ok(()));
        lines = lines.saturating_add(1);
        rest = after;
    }
    assert_eq!(rt; lines, 42);
    match reader.finish() {
        Ok(records) => assert_eq!(rt; records.len(), 5),
        Err(fault) => assert!(rt; false, "{fault:?}"),
    }
    Ok(())
}

#[test]
fn sections_end_at_separators(rt: HostRuntime) -> Result<(), Fail> {
    let alloc = rt.alloc();
    let one = five(alloc)?;
    expect_almanacs(&rt, alloc, one.as_bytes(), &[5])?;
    let behind = format!(in alloc; "{one}---\n")?;
    expect_fault(&rt, alloc, behind.as_bytes(), 43, TextWhy::Short)?;
    let short = one.as_str().strip_suffix("9\n").unwrap_or_default();
    let ended = format!(in alloc; "{short} --- \n")?;
    expect_fault(&rt, alloc, ended.as_bytes(), 41, TextWhy::Short)?;
    let blank = format!(in alloc; "{short}\n \n---\n{one}")?;
    expect_fault(&rt, alloc, blank.as_bytes(), 41, TextWhy::Short)?;
    let mut many = String::from_str(alloc, one.as_str())?;
    for _ in 0..7 {
        many.push_str("---\n")?;
        many.push_str(one.as_str())?;
    }
    expect_almanacs(&rt, alloc, many.as_bytes(), &[5; 8])?;
    many.push_str("\t---\n")?;
    expect_fault(&rt, alloc, many.as_bytes(), 344, TextWhy::TooMany)
}

#[test]
fn sections_of_both_formats(rt: HostRuntime) -> Result<(), Fail> {
    let alloc = rt.alloc();
    let one = five(alloc)?;
    let other = yuma(alloc, 7, 290)?;
    let both = format!(in alloc; "{one} \t---\t\n\n{other}\n---\n{one}")?;
    expect_almanacs(&rt, alloc, both.as_bytes(), &[5, 1, 5])
}

#[test]
fn damaged_sections_are_refused(rt: HostRuntime) -> Result<(), Fail> {
    let alloc = rt.alloc();
    let one = five(alloc)?;
    let first = sem(alloc, 1)?;
    let second = sem(alloc, 2)?;
    // No byte chooses a format.
    let nothing = format!(in alloc; "{one}---\n\n---\n{one}")?;
    expect_fault(&rt, alloc, nothing.as_bytes(), 43, TextWhy::Short)?;
    let begun = format!(in alloc; "---\n{one}")?;
    expect_fault(&rt, alloc, begun.as_bytes(), 0, TextWhy::Short)?;
    let carriage = format!(in alloc; "{one}---\n\r\r\n* title\n")?;
    expect_fault(&rt, alloc, carriage.as_bytes(), 44, TextWhy::Label)?;
    // Lines have their numbers in the file.
    let label = format!(in alloc; "{one}---\n* title\nID: 1\nHelth: 0\n")?;
    expect_fault(&rt, alloc, label.as_bytes(), 46, TextWhy::Label)?;
    let twice = format!(in alloc; "{one}---\n2 TWO\n2338 0\n{first}{first}")?;
    expect_fault(&rt, alloc, twice.as_bytes(), 54, TextWhy::PrnTwice)?;
    let more = TextWhy::CountDiffers { said: 1, found: 2 };
    let further = format!(in alloc; "{one}---\n1 ONE\n2338 0\n{first}{second}")?;
    expect_fault(&rt, alloc, further.as_bytes(), 54, more)?;
    let fewer = TextWhy::CountDiffers { said: 2, found: 1 };
    let missing = format!(in alloc; "2 TWO\n2338 0\n{first}\n---\n{one}")?;
    expect_fault(&rt, alloc, missing.as_bytes(), 10, fewer)?;
    // Four dashes, or a further word, are no separator.
    let sixth = TextWhy::CountDiffers { said: 5, found: 6 };
    let dashes = format!(in alloc; "{one}----\n{one}")?;
    expect_fault(&rt, alloc, dashes.as_bytes(), 43, sixth)?;
    let words = format!(in alloc; "{one}--- -\n{one}")?;
    expect_fault(&rt, alloc, words.as_bytes(), 43, sixth)
}

#[test]
fn a_section_has_32_records(rt: HostRuntime) -> Result<(), Fail> {
    let alloc = rt.alloc();
    let mut text = five(alloc)?;
    text.push_str("---\n")?;
    for prn in 1..33u8 {
        text.push_str(yuma(alloc, prn, 2338)?.as_str())?;
    }
    expect_almanacs(&rt, alloc, text.as_bytes(), &[5, 32])?;
    text.push_str(yuma(alloc, 1, 2338)?.as_str())?;
    expect_fault(&rt, alloc, text.as_bytes(), 493, TextWhy::PrnTwice)
}

#[test]
fn weeks_lie_on_both_sides_of_a_rollover(rt: HostRuntime) -> Result<(), Fail> {
    let alloc = rt.alloc();
    let one = sem(alloc, 1)?;
    let text = format!(in alloc; "1 ONE\n1023 604799\n{one}---\n1 ONE\n0 0.5\n{one}")?;
    match fed(&rt, alloc, ROLLOVER, text.as_bytes())?.finish() {
        Ok(almanacs) => {
            let times = [1_238_630_399_000, 1_238_630_400_500];
            assert_eq!(rt; almanacs.len(), times.len());
            for (almanac, time) in almanacs.iter().zip(times.as_slice()) {
                for record in &almanac.records {
                    assert_eq!(rt; record.toa_ms, *time);
                }
            }
        }
        Err(fault) => assert!(rt; false, "{fault:?}"),
    }
    Ok(())
}

// Whatever the pieces, the text says what it says line by line.
fn expect_alike(rt: &impl Abort, alloc: Global, text: &[u8], chunk: usize) -> Result<(), Fail>
    requires { 0 < chunk }
{
    let mut desk = MemDesk::new(
        b"".to_vec(alloc)?,
        text.to_vec(alloc)?,
        b"".to_vec(alloc)?,
        b"".to_vec(alloc)?,
        Vec::new(alloc),
        chunk,
    );
    let mut reader = AlmanacReader::new(alloc, FLIGHT).map_err(|_| AllocError)?;
    let answer = feed_lines(alloc, &mut desk, FileNo::Almanac, "almanac", &mut reader);
    assert_eq!(rt; answer, Ok(()));
    match (reader.finish(), fed(rt, alloc, FLIGHT, text)?.finish()) {
        (Ok(almanacs), Ok(others)) => {
            assert_eq!(rt; almanacs.len(), others.len());
            for (almanac, other) in almanacs.iter().zip(&others) {
                assert_eq!(rt; almanac.records.as_slice(), other.records.as_slice());
            }
        }
        (Err(fault), Err(other)) => assert_eq!(rt; fault, other),
        _ => assert!(rt; false, "{chunk}"),
    }
    Ok(())
}

#[test]
fn texts_are_read_in_any_pieces(rt: HostRuntime) -> Result<(), Fail> {
    let alloc = rt.alloc();
    let one = five(alloc)?;
    let other = yuma(alloc, 7, 2338)?;
    let open = one.as_str().strip_suffix("\n").unwrap_or_default();
    let both = format!(in alloc; "{one}---\r\n{other}--- \n{open}")?;
    let returns = format!(in alloc; "5 FIVE\r\n2338 0\r\n1\r\n1\r\r\n0\r\n")?;
    let label = format!(in alloc; "{one}---\n* title\nID: 1\nHelth: 0\n")?;
    let short = format!(in alloc; "{open}\r")?;
    for text in [
        "",
        "\n",
        "\r",
        "\r\n",
        "---",
        "---\n---\n",
        one.as_str(),
        other.as_str(),
        open,
        both.as_str(),
        returns.as_str(),
        label.as_str(),
        short.as_str(),
    ] {
        expect_alike(&rt, alloc, text.as_bytes(), 1)?;
        expect_alike(&rt, alloc, text.as_bytes(), 2)?;
        expect_alike(&rt, alloc, text.as_bytes(), 3)?;
        expect_alike(&rt, alloc, text.as_bytes(), 63)?;
        expect_alike(&rt, alloc, text.as_bytes(), 4096)?;
    }
    Ok(())
}
