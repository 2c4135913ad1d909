// Texts of messages, and files of them taken into a book.

use crate::message_rows::{CHANGES, FILES};
use crate::running::{Around, files, kept_anew, told};
use crate::texts::{ADD, changed, messages, spelled, whole};
use nanu_text::read_nanus;
use notice_model::Notice;
use raim_model::{Refusal, TextFault, TextWhy};
use std::alloc::Global;
use std::process::Abort;
use std::test::Fail;

// What a file says that has this answer: no answer is Done.
fn said_of(alloc: Global, answer: &str) -> Result<String, Fail> {
    if answer.is_empty() {
        return Ok(String::from_str(alloc, "0\n")?);
    }
    let number = if answer.starts_with("line") { 6 } else { 2 };
    Ok(format!(in alloc; "{number}\nnotice: {answer}\n")?)
}

fn expect_change(rt: &impl Abort, alloc: Global, row: &str) -> Result<(), Fail> {
    let mut parts = row.split('|');
    let (Some(letter), Some(number), Some(line), Some(answer)) = (
        parts.next(),
        parts.next(),
        parts.next(),
        parts.next(),
    ) else {
        return Err(Fail::from("no row"));
    };
    let text = changed(alloc, whole(letter), number, line)?;
    let said = told(
        alloc,
        &[],
        "notice b file outages",
        files(text.as_str(), ""),
    )?;
    assert_eq!(rt; said, said_of(alloc, answer)?, "{row}");
    Ok(())
}

fn expect_file(rt: &impl Abort, alloc: Global, row: &str) -> Result<(), Fail> {
    let mut parts = row.split('|');
    let (Some(notices), Some(answer), Some(list)) = (parts.next(), parts.next(), parts.next())
    else {
        return Err(Fail::from("no file"));
    };
    let text = messages(alloc, notices)?;
    let around = files(text.as_str(), "");
    let script = "notice b file outages;notice b list";
    let mut wanted = said_of(alloc, answer)?;
    wanted.push_str("0\n")?;
    wanted.push_str(spelled(alloc, list)?.as_str())?;
    assert_eq!(rt; told(alloc, &[], script, around)?, wanted, "{row}");
    assert_eq!(rt; kept_anew(alloc, script, around)?, wanted, "{row}");
    Ok(())
}

#[test]
fn messages_are_read_and_taken_in(rt: HostRuntime) -> Result<(), Fail> {
    let alloc = rt.alloc();
    let mut count = 0u8;
    for row in CHANGES.lines() {
        expect_change(&rt, alloc, row)?;
        count = count.saturating_add(1);
    }
    for row in FILES.lines() {
        expect_file(&rt, alloc, row)?;
        count = count.saturating_add(1);
    }
    assert_eq!(rt; count, 136);
    Ok(())
}

// What is read from a text.
fn read(alloc: Global, text: &str) -> Result<Vec<Notice>, Refusal> {
    read_nanus(alloc, text.as_bytes())
}

const TEXT: &str =
    "\r\n \t\nnanu type: UNUNOREF\r\nNANU NUMBER: 0000007\nreference: N/A\n\nprn: 032\nSTART: 1980 006 0000\nSTOP: 2024 366 2359\n\t\nNANU TYPE: UNUSABLE\nNANU NUMBER: 9999999\nREFERENCE: 0000007\nPRN: 1\nSTART: 2023 365 2359\nSTOP: UFN\nNANU TYPE: FCSTCANC\nNANU NUMBER: 0000001\nREFERENCE: 9999999\nPRN: 32\nSTART: N/A\nSTOP: N/A";

#[test]
fn a_text_says_its_notices(rt: HostRuntime) -> Result<(), Fail> {
    let alloc = rt.alloc();
    let wanted = [
        Notice::Add {
            number: 7,
            prn: 32,
            start: 0,
            end: Some(1_419_724_740_000),
        },
        Notice::Reschedule {
            number: 9_999_999,
            target: 7,
            start: 1_388_102_340_000,
            end: None,
        },
        Notice::Cancel {
            number: 1,
            target: 9_999_999,
        },
    ];
    match read(alloc, TEXT) {
        Ok(notices) => assert_eq!(rt; notices.as_slice(), wanted.as_slice()),
        Err(refusal) => assert!(rt; false, "{refusal:?}"),
    }
    // A message may be cut short behind each of its lines.
    let mut text = String::new(alloc);
    for (more, line) in ADD.lines().zip([0, 1, 3, 5, 7, 9]) {
        let short = Refusal::Text(TextFault {
            line,
            why: TextWhy::Short,
        });
        assert!(rt;
            read(alloc, text.as_str()).is_err_and(|refusal| refusal == short),
            "{text}"
        );
        text.push_str(more)?;
        text.push_str("\n\n")?;
    }
    Ok(())
}

#[test]
fn a_file_may_be_too_long(rt: HostRuntime) -> Result<(), Fail> {
    let alloc = rt.alloc();
    let mut text = Vec::new(alloc);
    text.extend_from_slice(ADD.as_bytes())?;
    for (length, wanted) in [
        (1_048_577, "6\nnotice: line 0: FileTooLong\n"),
        (1_048_576, "0\n"),
    ] {
        text.resize(length, b'\n')?;
        let around = Around {
            outages: &text,
            ..files("", "")
        };
        assert_eq!(rt;
            told(alloc, &[], "notice b file outages", around)?.as_str(),
            wanted
        );
    }
    Ok(())
}

// A file of three hundred Adds, of which a book has room for 256.
#[test]
fn a_file_may_have_many_messages(rt: HostRuntime) -> Result<(), Fail> {
    let alloc = rt.alloc();
    let mut notices = String::new(alloc);
    for number in 1u32..301 {
        notices.push_str(format!(in alloc; "add {number} 5 B -;")?.as_str())?;
    }
    let text = messages(alloc, notices.as_str())?;
    let around = files(text.as_str(), "");
    let script = "notice b file outages;notice b add 256 5 B -;notice b cancel 257 9";
    let wanted = "2\nnotice: message 257: Full\n2\nnotice: refused Old 256\n0\n";
    assert_eq!(rt; told(alloc, &[], script, around)?.as_str(), wanted);
    assert_eq!(rt; kept_anew(alloc, script, around)?.as_str(), wanted);
    Ok(())
}
