// A disk that fails from a call on stands in for the file of a book, or for the log beside it.

use crate::running::{files, kept_anew, run_script};
use crate::texts::spelled;
use notice_book::KeepFault;
use notice_sqlite::{fault_of, fold};
use sqlite::{Connection, FileStore, Files, Options};
use sqlite_disk::{Disk, Fuse, Memory};
use std::alloc::Global;
use std::process::Abort;
use std::test::Fail;

// What a log and a file hold.
#[derive(Drop)]
struct Image {
    log: Vec<u8>,
    book: Vec<u8>,
}

// How many calls on the log and on the file pass.
#[derive(Clone, Copy, Debug)]
struct Passing {
    log: u64,
    book: u64,
}

const ALL: Passing = Passing {
    log: u64::MAX,
    book: u64::MAX,
};

fn disk_of(alloc: Global, bytes: &[u8], calls: u64) -> Result<Fuse<Memory>, Fail> {
    let mut memory = Memory::new(alloc);
    if !memory.may_be_used() || memory.write_at(0, bytes).is_err() {
        return Err(Fail::from("no disk"));
    }
    Ok(Fuse::new(memory, calls))
}

fn image_of(alloc: Global, files: &Files<Fuse<Memory>>) -> Result<Image, Fail> {
    Ok(Image {
        log: files.log.inner().bytes().to_vec(alloc)?,
        book: files.db.inner().bytes().to_vec(alloc)?,
    })
}

// The database on the disks, which keeps no page in memory that it read.
fn open(
    alloc: Global,
    image: &Image,
    passing: Passing,
) -> Result<Result<Connection<FileStore<Fuse<Memory>>>, KeepFault>, Fail> {
    let log = disk_of(alloc, &image.log, passing.log)?;
    let db = disk_of(alloc, &image.book, passing.book)?;
    if !log.may_be_used() || !db.may_be_used() {
        return Err(Fail::from("no disk"));
    }
    let mut options = Options::new(7);
    options.cache_pages = 0;
    match Connection::open_files(alloc, Files { log, db }, options) {
        Ok(conn) => Ok(Ok(conn)),
        Err((error, _left)) => Ok(Err(fault_of(error))),
    }
}

// How a database is left: as a process leaves it that ends there, or closed.
#[derive(Clone, Copy, PartialEq, Eq)]
enum End {
    Broken,
    Closed,
}

// The two files of a database that is left so, and whether it is closed.
fn files_of<D: Disk + Drop>(conn: Connection<FileStore<D>>, end: End) -> (Files<D>, bool) {
    if end == End::Broken {
        return (conn.into_store().close(), false);
    }
    match fold(conn) {
        Ok(files) => (files, true),
        Err((_, files)) => (files, false),
    }
}

// What a script left behind.
#[derive(Drop)]
struct Left {
    said: String,
    is_opened: bool,
    is_closed: bool,
    image: Image,
}

// Runs a script over the disks. Where they could not be opened they are as they were.
fn run(
    alloc: Global,
    image: &Image,
    passing: Passing,
    script: &str,
    end: End,
) -> Result<Left, Fail> {
    let mut said = String::new(alloc);
    let opened = open(alloc, image, passing)?;
    let keeper = run_script(alloc, opened, script, files("", ""), &mut said)?;
    match keeper.into_opened() {
        Ok(conn) => {
            let (files, is_closed) = files_of(conn, end);
            Ok(Left {
                said,
                is_opened: true,
                is_closed,
                image: image_of(alloc, &files)?,
            })
        }
        Err(_) => Ok(Left {
            said,
            is_opened: false,
            is_closed: false,
            image: Image {
                log: image.log.as_slice().to_vec(alloc)?,
                book: image.book.as_slice().to_vec(alloc)?,
            },
        }),
    }
}

// The rows of both tables of a book that is opened again.
fn tables(alloc: Global, image: &Image) -> Result<String, Fail> {
    Ok(run(alloc, image, ALL, "database tables", End::Broken)?.said)
}

// The book that a script leaves behind when it is closed.
fn closed(alloc: Global, book: &Image, script: &str) -> Result<Image, Fail> {
    let left = run(alloc, book, ALL, script, End::Closed)?;
    if !left.is_closed {
        return Err(Fail::from("not closed"));
    }
    Ok(left.image)
}

fn empty_book(alloc: Global) -> Image {
    Image {
        log: Vec::new(alloc),
        book: Vec::new(alloc),
    }
}

// A closed book of one outage.
fn book_of_one(alloc: Global) -> Result<Image, Fail> {
    closed(alloc, &empty_book(alloc), "notice b add 1 5 B -")
}

const FAULT: &str = "3\nnotice: keeper fault\n";

// Fails unless a command over disks that fail from a call on is done, and then its change is held, or is a fault.
fn expect_whole(
    rt: &impl Abort,
    alloc: Global,
    book: &Image,
    line: &str,
    passing: Passing,
    held: (&str, &str),
) -> Result<u8, Fail> {
    let left = run(alloc, book, passing, line, End::Broken)?;
    let found = tables(alloc, &left.image)?;
    if left.said.as_str() == "0\n" {
        assert_eq!(rt; found.as_str(), held.1, "{line} {passing:?}");
        return Ok(0);
    }
    assert_eq!(rt; left.said.as_str(), FAULT, "{line} {passing:?}");
    assert!(rt;
        found.as_str() == held.0 || found.as_str() == held.1,
        "{line} {passing:?}"
    );
    Ok(u8::from(left.is_opened))
}

#[test]
fn a_commit_that_failed_is_not_done(rt: HostRuntime) -> Result<(), Fail> {
    let alloc = rt.alloc();
    let book = book_of_one(alloc)?;
    let before = tables(alloc, &book)?;
    for line in [
        "notice b add 2 6 C -",
        "notice b move 2 1 C D",
        "notice b cancel 2 1",
    ] {
        let done = run(alloc, &book, ALL, line, End::Broken)?;
        assert_eq!(rt; done.said.as_str(), "0\n");
        let after = tables(alloc, &done.image)?;
        assert_ne!(rt; after, before);
        let held = (before.as_str(), after.as_str());
        let mut faults = 0u8;
        for step in 10..30 {
            let calls = 2 * step;
            let log = Passing { log: calls, ..ALL };
            let file = Passing { book: calls, ..ALL };
            for passing in [log, file] {
                faults = faults.saturating_add(expect_whole(
                    &rt, alloc, &book, line, passing, held,
                )?);
            }
        }
        // Some failed behind the opening.
        assert!(rt; faults > 1, "{line} {faults}");
    }
    Ok(())
}

const ADDS: &str = "notice b add 1 5 B -;notice b add 2 6 B C;notice b add 3 7 C D";

// A statement that comes to its limit of steps fails, as one does whose read fails.
#[test]
fn a_failed_read_is_no_end_of_the_list(rt: HostRuntime) -> Result<(), Fail> {
    let alloc = rt.alloc();
    let whole = spelled(alloc, "0;0;0;0;05 B -;06 B C;07 C D;")?;
    let fault = "0\n0\n0\n3\nnotice: keeper fault\n";
    let mut faults = 0u8;
    let mut lists = 0u8;
    for steps in 0u64..40 {
        let script = format!(in alloc; "{ADDS};database steps {steps};notice b list")?;
        let said = kept_anew(alloc, script.as_str(), files("", ""))?;
        if said.as_str() == fault {
            faults = faults.saturating_add(1);
        } else {
            assert_eq!(rt; said, whole, "{steps}");
            lists = lists.saturating_add(1);
        }
    }
    assert!(rt; faults > 0 && lists > 0, "{faults} {lists}");
    Ok(())
}

// A list over disks that fail from a call on is whole, in this book of three outages, or a fault.
fn expect_lists(rt: &impl Abort, alloc: Global, book: &Image) -> Result<(), Fail> {
    let whole = spelled(alloc, "0;05 B -;06 B C;07 C D;")?;
    let mut lists = 0u8;
    let mut faults = 0u8;
    for calls in 0u64..60 {
        let log = Passing { log: calls, ..ALL };
        let file = Passing { book: calls, ..ALL };
        for passing in [log, file] {
            let left = run(alloc, book, passing, "notice b list", End::Broken)?;
            if left.said.as_str() == FAULT {
                faults = faults.saturating_add(1);
            } else {
                assert_eq!(rt; left.said, whole, "{passing:?}");
                lists = lists.saturating_add(1);
            }
        }
    }
    assert!(rt; lists > 0 && faults > 0, "{lists} {faults}");
    Ok(())
}

const MORE: &str = "notice b add 2 6 B C;notice b add 3 7 C D";

// A log that holds more than the book is read with it.
#[test]
fn a_list_with_a_log_is_whole_or_a_fault(rt: HostRuntime) -> Result<(), Fail> {
    let alloc = rt.alloc();
    let book = run(alloc, &book_of_one(alloc)?, ALL, MORE, End::Broken)?.image;
    expect_lists(&rt, alloc, &book)
}

#[test]
fn a_list_of_a_closed_book_is_whole_or_a_fault(rt: HostRuntime) -> Result<(), Fail> {
    let alloc = rt.alloc();
    let book = closed(alloc, &book_of_one(alloc)?, MORE)?;
    expect_lists(&rt, alloc, &book)
}

// A keeper that says that it is ready has both tables.
#[test]
fn tables_that_were_not_made_are_a_fault(rt: HostRuntime) -> Result<(), Fail> {
    let alloc = rt.alloc();
    let empty = empty_book(alloc);
    let mut faults = 0u8;
    let mut made = 0u8;
    for calls in 0u64..60 {
        let log = Passing { log: calls, ..ALL };
        let file = Passing { book: calls, ..ALL };
        for passing in [log, file] {
            let left = run(alloc, &empty, passing, "keeper start", End::Broken)?;
            if left.said.as_str() == "ok\n" {
                assert!(rt; left.is_opened, "{passing:?}");
                let held = tables(alloc, &left.image)?;
                assert_eq!(rt; held.as_str(), "in effect\n", "{passing:?}");
                made = made.saturating_add(1);
            } else if left.is_opened {
                faults = faults.saturating_add(1);
            }
        }
    }
    assert!(rt; faults > 0 && made > 0, "{faults} {made}");
    Ok(())
}

#[test]
fn a_closed_book_is_whole_in_its_file(rt: HostRuntime) -> Result<(), Fail> {
    let alloc = rt.alloc();
    let one = book_of_one(alloc)?;
    let book = run(alloc, &one, ALL, "notice b add 2 6 C D", End::Broken)?.image;
    let wanted = tables(alloc, &book)?;
    let mut closed = 0u8;
    let mut faults = 0u8;
    for step in 0u64..30 {
        let calls = 2 * step;
        let log = Passing { log: calls, ..ALL };
        let file = Passing { book: calls, ..ALL };
        for passing in [log, file] {
            let mut left = run(alloc, &book, passing, "", End::Closed)?;
            if !left.is_opened {
                continue;
            }
            if left.is_closed {
                // The log is not asked.
                left.image.log.clear();
                closed = closed.saturating_add(1);
            } else {
                faults = faults.saturating_add(1);
            }
            assert_eq!(rt; tables(alloc, &left.image)?, wanted, "{passing:?}");
        }
    }
    assert!(rt; closed > 1 && faults > 1, "{closed} {faults}");
    assert_eq!(rt;
        wanted,
        spelled(
            alloc,
            "1 0 0 5 1414022400000 - ;2 0 0 6 1414022460000 1414022520000 ;in effect;1 5 1414022400000 - ;2 6 1414022460000 1414022520000 ;"
        )?
    );
    Ok(())
}
