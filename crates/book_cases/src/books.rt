// Books over both keepers, held against the rule for a whole list of notices.

use crate::book_rows::BOOKS;
use crate::running::{files, kept_anew, told};
use crate::texts::spelled;
use std::alloc::Global;
use std::process::Abort;
use std::test::Fail;

// The commands of a book, with a list at the end.
fn script_of(alloc: Global, notices: &str) -> Result<String, Fail> {
    let mut script = String::new(alloc);
    for notice in notices.split(';') {
        if !notice.is_empty() {
            script.push_str("notice b ")?;
            script.push_str(notice)?;
            script.push('\n')?;
        }
    }
    script.push_str("notice b list")?;
    Ok(script)
}

// What they have to say.
fn wanted_of(alloc: Global, answers: &str, list: &str) -> Result<String, Fail> {
    let mut wanted = String::new(alloc);
    for answer in answers.split(';') {
        if answer == "Done" {
            wanted.push_str("0\n")?;
        } else if !answer.is_empty() {
            wanted.push_str("2\nnotice: refused ")?;
            wanted.push_str(answer)?;
            wanted.push('\n')?;
        }
    }
    wanted.push_str("0\n")?;
    wanted.push_str(spelled(alloc, list)?.as_str())?;
    Ok(wanted)
}

fn expect_book(rt: &impl Abort, alloc: Global, line: &str) -> Result<(), Fail> {
    let mut parts = line.split('|');
    let (Some(notices), Some(answers), Some(list)) = (parts.next(), parts.next(), parts.next())
    else {
        return Err(Fail::from("no book"));
    };
    let script = script_of(alloc, notices)?;
    let wanted = wanted_of(alloc, answers, list)?;
    let none = files("", "");
    assert_eq!(rt; told(alloc, &[], script.as_str(), none)?, wanted, "{line}");
    assert_eq!(rt; kept_anew(alloc, script.as_str(), none)?, wanted, "{line}");
    Ok(())
}

#[test]
fn books_say_what_is_in_effect(rt: HostRuntime) -> Result<(), Fail> {
    let mut count = 0u8;
    for line in BOOKS.lines() {
        expect_book(&rt, rt.alloc(), line)?;
        count = count.saturating_add(1);
    }
    assert_eq!(rt; count, 60);
    Ok(())
}
