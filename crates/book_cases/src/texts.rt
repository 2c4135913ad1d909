// Texts of messages, and of commands and outages, from short words.
use std::alloc::Global;
use std::test::Fail;

pub(crate) const ADD: &str = "NANU TYPE: FCSTDV
NANU NUMBER: 2024061
REFERENCE: N/A
PRN: 05
START: 2024 301 0002
STOP: 2024 301 0004
";

pub(crate) const RESCHEDULE: &str = "NANU TYPE: FCSTRESCD
NANU NUMBER: 2024062
REFERENCE: 2024061
PRN: 05
START: 2024 301 0003
STOP: UFN
";

pub(crate) const CANCEL: &str = "NANU TYPE: FCSTCANC
NANU NUMBER: 2024063
REFERENCE: 2024061
PRN: 05
START: N/A
STOP: N/A
";

// The message of a letter.
pub(crate) fn whole(letter: &str) -> &'static str {
    match letter {
        "A" => ADD,
        "R" => RESCHEDULE,
        _ => CANCEL,
    }
}

// A text with another line in the place of one.
pub(crate) fn changed(alloc: Global, text: &str, number: &str, line: &str) -> Result<String, Fail> {
    let mut whole = String::new(alloc);
    for (found, place) in text.lines().zip(["1", "2", "3", "4", "5", "6"]) {
        whole.push_str(if place == number { line } else { found })?;
        whole.push('\n')?;
    }
    Ok(whole)
}

// A number of seven digits.
fn push_number(text: &mut String, word: &str) -> Result<(), Fail> {
    for _ in word.len()..7 {
        text.push('0')?;
    }
    text.push_str(word)?;
    Ok(())
}

fn kind(verb: &str) -> &'static str {
    match verb {
        "add" => "UNUSUFN",
        "move" => "UNUSABLE",
        _ => "FCSTCANC",
    }
}

// The value of a line of a time: none for a notice that has no times.
fn minute(letter: Option<&str>) -> &'static str {
    match letter {
        Some("B") => "2024 301 0000",
        Some("C") => "2024 301 0001",
        Some("D") => "2024 301 0002",
        Some("E") => "2024 301 0003",
        Some("F") => "2024 301 0004",
        Some("G") => "2024 301 0005",
        Some(_) => "UFN",
        None => "N/A",
    }
}

// Puts the six lines of a notice.
fn push_message(text: &mut String, notice: &str) -> Result<(), Fail> {
    let mut words = notice.split(' ');
    let (Some(verb), Some(number), Some(about)) = (words.next(), words.next(), words.next()) else {
        return Err(Fail::from("no notice"));
    };
    text.push_str("NANU TYPE: ")?;
    text.push_str(kind(verb))?;
    text.push_str("\nNANU NUMBER: ")?;
    push_number(text, number)?;
    text.push_str("\nREFERENCE: ")?;
    if verb == "add" {
        text.push_str("N/A\nPRN: ")?;
        text.push_str(about)?;
    } else {
        push_number(text, about)?;
        text.push_str("\nPRN: 1")?;
    }
    text.push_str("\nSTART: ")?;
    text.push_str(minute(words.next()))?;
    text.push_str("\nSTOP: ")?;
    text.push_str(minute(words.next()))?;
    text.push('\n')?;
    Ok(())
}

// The messages of notices, each ended by `;`.
pub(crate) fn messages(alloc: Global, notices: &str) -> Result<String, Fail> {
    let mut text = String::new(alloc);
    for notice in notices.split(';') {
        if !notice.is_empty() {
            push_message(&mut text, notice)?;
        }
    }
    Ok(text)
}

// The text with the times that its capital letters stand for, and a line feed for each `;`.
pub(crate) fn spelled(alloc: Global, text: &str) -> Result<String, Fail> {
    let mut whole = String::new(alloc);
    for letter in text.chars() {
        match letter {
            'A' => whole.push_str("1980-01-06T00:00:00.000Z")?,
            'B' => whole.push_str("2024-10-27T00:00:00.000Z")?,
            'C' => whole.push_str("2024-10-27T00:01:00.000Z")?,
            'D' => whole.push_str("2024-10-27T00:02:00.000Z")?,
            'E' => whole.push_str("2024-10-27T00:03:00.000Z")?,
            'F' => whole.push_str("2024-10-27T00:04:00.000Z")?,
            'G' => whole.push_str("2024-10-27T00:05:00.000Z")?,
            'Z' => whole.push_str("9999-12-31T23:59:59.999Z")?,
            ';' => whole.push('\n')?,
            _ => whole.push(letter)?,
        }
    }
    Ok(whole)
}
