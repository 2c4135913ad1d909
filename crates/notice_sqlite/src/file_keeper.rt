// The keeper over a book in a file, which is opened when the keeper is started and is whole in its file when it is closed.
ghost use Rattle.std.specs.Prelude.{◌≡◌};

use crate::SqliteKeeper;
use crate::fault::{counted, fault_of};
use crate::open::open_book;
use notice_book::{KeepFault, Keeper, Live, Notice};
use sqlite::{Connection, File, FileStore, Files};
use sqlite_disk::Disk;

/// A keeper over the book under the path that it is started with. Before that no file is opened, and each call fails.
#[derive(Drop)]
pub struct FileKeeper {
    rt: HostRuntime,
    may_make: bool,
    book: SqliteKeeper<FileStore<File>>,
    has_changed: bool,
}

impl FileKeeper {
    /// A keeper that has opened nothing. A book that is missing is made only if that is asked.
    pub fn new(rt: HostRuntime, may_make: bool) -> FileKeeper {
        FileKeeper {
            rt,
            may_make,
            book: SqliteKeeper {
                opened: Err(KeepFault::Failed),
                faults: 0,
            },
            has_changed: false,
        }
    }

    /// Closes the book: its file alone holds every notice, and nothing is left in the log beside it. A book that was
    /// changed and is not closed so is a failure; what was accepted may be held.
    pub fn close(self) -> Result<(), KeepFault> {
        let FileKeeper {
            rt: _,
            may_make: _,
            book,
            has_changed,
        } = self;
        let Ok(conn) = book.opened else {
            return Ok(());
        };
        match fold(conn) {
            Err((fault, _)) if has_changed => Err(fault),
            _ => Ok(()),
        }
    }
}

/// Moves what the log holds into the file of a database, and empties the log. Gives both files back, also where it failed.
pub fn fold<D: Disk + Drop>(
    conn: Connection<FileStore<D>>,
) -> Result<Files<D>, (KeepFault, Files<D>)> {
    match conn.close_files() {
        Ok(mut files) => {
            // The file is whole by now, so a log that keeps its length does no harm.
            let _ = files.log.set_len(0);
            Ok(files)
        }
        Err((error, store)) => Err((fault_of(error), store.close())),
    }
}

impl Keeper for FileKeeper {
    ghost use Rattle.std.specs.Prelude.{None};

    ghost tables = { λ _. None };

    ghost faults = { λ k. k.book.faults };

    ghost started = { λ _. None };

    fn start(&mut self, path: &str) -> Result<(), KeepFault> {
        let opened = open_book(&self.rt, path, self.may_make);
        let answer = match &opened {
            Ok(_) => Ok(()),
            Err(fault) => Err(*fault),
        };
        self.book.opened = opened;
        counted(&mut self.book.faults, answer)
    }

    fn last(&mut self) -> Result<u32, KeepFault> {
        self.book.last()
    }

    fn live_count(&mut self) -> Result<u32, KeepFault> {
        self.book.live_count()
    }

    fn find(&mut self, number: u32) -> Result<Option<Live>, KeepFault> {
        self.book.find(number)
    }

    fn next(&mut self, above: u32) -> Result<Option<Live>, KeepFault> {
        self.book.next(above)
    }

    fn commit(&mut self, notice: &Notice, live: &Option<Live>) -> Result<(), KeepFault> {
        self.has_changed = true;
        self.book.commit(notice, live)
    }
}
