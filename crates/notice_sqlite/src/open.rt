// Opens a book in a file, in its turn, and tells what is no book from one.
ghost use Rattle.std.specs.Prelude.{◌≡◌};

use crate::fault::fault_of;
use crate::query::{first_row, is_understood};
use crate::row::column;
use crate::store::make_tables;
use notice_book::{KeepFault, OpenFault};
use sqlite::{Alter, Connection, Error, ErrorCode, File, FileStore};
use std::io::{ErrorKind, Read};
use std::time::Duration;
use std::{fs, thread};

// How often a book in use is tried, and the pause between two tries: ten seconds together.
const TRIES: u32 = 1000;

const PAUSE_MS: u64 = 10;

const LOOKS: u32 = 50;

/// The first bytes of each database.
const MAGIC: &[u8] = b"SQLite format 3\0";

const MISSING: KeepFault = KeepFault::NotOpened {
    why: OpenFault::Missing,
};

const NO_BOOK: KeepFault = KeepFault::NotOpened {
    why: OpenFault::NoBook,
};

const NOT_READABLE: KeepFault = KeepFault::NotOpened {
    why: OpenFault::NotReadable,
};

const IN_USE: KeepFault = KeepFault::NotOpened {
    why: OpenFault::InUse,
};

// What stands under a path.
#[derive(Clone, Copy, PartialEq, Eq)]
enum Place {
    Nothing,
    Empty,
    Database,
}

// Whether a file that is not empty begins as a database does, or as one that another is making: with nothing but zeros.
fn begins_well(rt: &HostRuntime, path: &str) -> Result<bool, KeepFault> {
    let Ok(mut file) = fs::open(rt, path) else {
        return Err(NOT_READABLE);
    };
    let mut bytes = [0u8; 16];
    match file.read_exact(&mut bytes) {
        Ok(()) => Ok(bytes.as_slice() == MAGIC || bytes == [0u8; 16]),
        Err(error) if error.kind() == ErrorKind::UnexpectedEof => Ok(false),
        Err(_) => Err(NOT_READABLE),
    }
}

// Looks at what stands under a path, and opens nothing that is no regular file.
fn look(rt: &HostRuntime, path: &str) -> Result<Place, KeepFault> {
    match fs::metadata(rt, path) {
        Ok(found) if !found.is_file() => Err(NO_BOOK),
        Ok(found) if found.len() == 0 => Ok(Place::Empty),
        Ok(_) => match begins_well(rt, path)? {
            true => Ok(Place::Database),
            false => Err(NO_BOOK),
        },
        Err(error) if error.kind() == ErrorKind::NotFound => Ok(Place::Nothing),
        Err(_) => Err(NOT_READABLE),
    }
}

// Looks again for half a second where there is no book, since another may be making one just then.
fn look_again(rt: &HostRuntime, path: &str) -> Result<Place, KeepFault> {
    for _ in 0..LOOKS {
        match look(rt, path) {
            Err(
                KeepFault::NotOpened {
                    why: OpenFault::NoBook,
                },
            ) => thread::sleep(rt, Duration::from_millis(PAUSE_MS)),
            answer => return answer,
        }
    }
    Err(NO_BOOK)
}

// Why a database was not opened.
fn open_fault(error: Error) -> KeepFault {
    match error {
        Error::SqliteFailure(ErrorCode::DatabaseBusy) => IN_USE,
        Error::SqliteFailure(ErrorCode::CannotOpen) => NOT_READABLE,
        Error::SqliteFailure(ErrorCode::NotADatabase | ErrorCode::DatabaseCorrupt) => NO_BOOK,
        error => fault_of(error),
    }
}

// Opens the database under a path, when no other has it open. What is new gets the sums of its pages.
fn take_turn(rt: &HostRuntime, path: &str) -> Result<Connection<FileStore<File>>, KeepFault> {
    for _ in 0..TRIES {
        match Connection::open_with_sums(rt, path) {
            Ok(conn) => return Ok(conn),
            Err(Error::SqliteFailure(ErrorCode::DatabaseBusy)) => {
                thread::sleep(rt, Duration::from_millis(PAUSE_MS));
            }
            Err(error) => return Err(open_fault(error)),
        }
    }
    Err(IN_USE)
}

const NOTICE_COLUMNS: &str = "SELECT number, kind, target, prn, start_ms, end_ms FROM notice";

const ENTRY_COLUMNS: &str = "SELECT number, prn, start_ms, end_ms FROM live";

fn count_of<S: Alter>(conn: &mut Connection<S>, sql: &str) -> Result<u32, KeepFault> {
    match first_row(conn, sql, &[])? {
        Some(row) => column(&row, 0),
        None => Err(KeepFault::Failed),
    }
}

// Whether the database has the two tables of a book, with their columns.
fn has_tables<S: Alter>(conn: &mut Connection<S>) -> Result<bool, KeepFault> {
    Ok(is_understood(conn, NOTICE_COLUMNS)? && is_understood(conn, ENTRY_COLUMNS)?)
}

// Whether the database has nothing in it but what `make_tables` makes first.
fn is_unmade<S: Alter>(conn: &mut Connection<S>) -> Result<bool, KeepFault> {
    let others = count_of(
        conn,
        "SELECT count(*) FROM sqlite_schema WHERE NOT (type = 'table' AND name = 'notice')",
    )?;
    if others != 0 {
        return Ok(false);
    }
    let begun = count_of(conn, "SELECT count(*) FROM sqlite_schema")?;
    Ok(begun == 0 || is_understood(conn, NOTICE_COLUMNS)?)
}

// Makes sure that a database is a book. Where it has nothing in it, it is made one if that is asked.
fn check_book<S: Alter>(conn: &mut Connection<S>, may_make: bool) -> Result<(), KeepFault> {
    if has_tables(conn)? {
        return Ok(());
    }
    if !may_make || !is_unmade(conn)? {
        return Err(NO_BOOK);
    }
    make_tables(conn)
}

// A database that is a book, which it is made where it has nothing in it and that is asked.
fn checked<S: Alter + Drop>(
    mut conn: Connection<S>,
    may_make: bool,
) -> Result<Connection<S>, KeepFault> {
    check_book(&mut conn, may_make)?;
    Ok(conn)
}

/// The book under a path. It is made where there is nothing if that is asked; a file that is no book is left as it is.
pub(crate) fn open_book(
    rt: &HostRuntime,
    path: &str,
    may_make: bool,
) -> Result<Connection<FileStore<File>>, KeepFault> {
    match look_again(rt, path)? {
        Place::Nothing if !may_make => return Err(MISSING),
        Place::Empty if !may_make => return Err(NO_BOOK),
        _ => {}
    }
    checked(take_turn(rt, path)?, may_make)
}
