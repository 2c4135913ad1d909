// Each call of a keeper, of a desk and of a sink failing in turn, and the faults of a database told apart.

use crate::running::{Around, files, kept_in_memory, told};
use crate::texts::{ADD, messages, spelled};
use notice_book::{KeepFault, OpenFault};
use notice_sqlite::fault_of;
use sqlite::{Error, ErrorCode};
use sqlite_resolve::CompileError;
use std::test::Fail;

// What is held where a call of the keeper fails: one call makes the book ready, and each Add of a file makes three.
fn held(call: u64) -> &'static str {
    match call {
        0..5 => "",
        5..8 => "05 B -;",
        8..11 => "05 B -;06 C -;",
        _ => "05 B -;06 C -;07 D E;",
    }
}

#[test]
fn each_call_of_a_keeper_fails_in_turn(rt: HostRuntime) -> Result<(), Fail> {
    let alloc = rt.alloc();
    let text = messages(alloc, "add 1 5 B -;add 2 6 C -;add 3 7 D E;")?;
    let around = files(text.as_str(), "");
    for call in 1u64..16 {
        let list = held(call);
        // An add makes four calls, a file of three ten, and a list one more than it has lines, behind the one that makes the book ready.
        let wanted = match call {
            1..11 => format!(in alloc; "3;notice: keeper fault;0;{list}0;{list}")?,
            11..16 => format!(in alloc; "0;3;notice: keeper fault;0;{list}")?,
            _ => String::new(alloc),
        };
        let script = "notice b file outages;notice b list;notice b list";
        let said = told(alloc, &[call], script, around)?;
        assert_eq!(rt; said, spelled(alloc, wanted.as_str())?, "{call}");
    }
    for call in 1u64..5 {
        let said = told(
            alloc,
            &[call],
            "notice b add 1 5 D -;notice b list;notice b add 1 5 D -;notice b list",
            around,
        )?;
        let wanted = spelled(alloc, "3;notice: keeper fault;0;0;0;05 D -;")?;
        assert_eq!(rt; said, wanted, "{call}");
    }
    Ok(())
}

#[test]
fn each_call_of_a_file_and_each_write_fails_in_turn(rt: HostRuntime) -> Result<(), Fail> {
    let alloc = rt.alloc();
    for call in 1u64..4 {
        let around = Around {
            reads: &[call],
            ..files(ADD, "")
        };
        let said = told(alloc, &[], "notice b file outages;notice b list", around)?;
        assert_eq!(rt; said.as_str(), "5\nnotice: read fault\n0\n", "{call}");
    }
    // Sixteen bytes a write: the text has four.
    let text = spelled(alloc, "05 D F;")?;
    for (write, written) in [(1, 0), (2, 16), (3, 32), (4, 48)] {
        let around = Around {
            writes: &[write],
            ..files("", "")
        };
        let said = told(alloc, &[], "notice b add 1 5 D F;notice b list", around)?;
        let front = text.as_str().get(..written).unwrap_or("");
        let wanted = format!(in alloc; "0\n4\n{front}notice: write fault\n")?;
        assert_eq!(rt; said, wanted, "{write}");
    }
    Ok(())
}

// A database that was not opened, and what is said of it.
const UNOPENED: [(KeepFault, &str); 6] = [
    (KeepFault::Failed, "3\nnotice: keeper fault\n"),
    (KeepFault::Memory, "7\nnotice: out of memory\n"),
    (
        KeepFault::NotOpened {
            why: OpenFault::InUse,
        },
        "3\nnotice: keeper fault: in use\n",
    ),
    (
        KeepFault::NotOpened {
            why: OpenFault::Missing,
        },
        "3\nnotice: keeper fault: missing\n",
    ),
    (
        KeepFault::NotOpened {
            why: OpenFault::NoBook,
        },
        "3\nnotice: keeper fault: no book\n",
    ),
    (
        KeepFault::NotOpened {
            why: OpenFault::NotReadable,
        },
        "3\nnotice: keeper fault: not readable\n",
    ),
];

#[test]
fn a_database_that_was_not_opened_answers_its_fault(rt: HostRuntime) -> Result<(), Fail> {
    let alloc = rt.alloc();
    for (fault, wanted) in UNOPENED {
        for line in [
            "notice b list",
            "notice b add 1 5 B -",
            "notice b move 2 1 B -",
            "notice b cancel 2 1",
            "notice b file outages",
        ] {
            let said = kept_in_memory(alloc, Some(fault), line, files(ADD, ""))?;
            assert_eq!(rt; said.as_str(), wanted, "{line}");
        }
    }
    Ok(())
}

#[test]
fn want_of_memory_is_told_apart(rt: HostRuntime) -> Result<(), Fail> {
    for (error, fault) in [
        (
            Error::SqliteFailure(ErrorCode::OutOfMemory),
            KeepFault::Memory,
        ),
        (
            Error::SqlInputError(CompileError::OutOfMemory),
            KeepFault::Memory,
        ),
        (Error::SqliteFailure(ErrorCode::DiskFull), KeepFault::Failed),
        (Error::SqliteFailure(ErrorCode::TooBig), KeepFault::Failed),
        (
            Error::SqliteFailure(ErrorCode::SystemIoFailure),
            KeepFault::Failed,
        ),
        (Error::QueryReturnedNoRows, KeepFault::Failed),
    ] {
        assert_eq!(rt; fault_of(error), fault, "{error:?}");
    }
    Ok(())
}
