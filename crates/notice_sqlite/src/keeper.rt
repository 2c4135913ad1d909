// The keeper over a connection, or over the fault of its opening. It tells no tables.

use crate::fault::counted;
use crate::store::{commit, entry_above, entry_at, entry_count, greatest_number, make_tables};
use notice_book::{KeepFault, Keeper, Live, Notice};
use sqlite::{Alter, Connection};
use std::alloc::Global;

/// A keeper over a database, with a count of its faults.
#[derive(Drop)]
pub struct SqliteKeeper<S: Alter> {
    pub(crate) opened: Result<Connection<S>, KeepFault>,
    pub(crate) faults: u64,
}

impl<S: Alter> SqliteKeeper<S> {
    /// A keeper over an opened database; where it was not opened, each call answers the fault.
    pub fn adopt(_alloc: Global, opened: Result<Connection<S>, KeepFault>) -> SqliteKeeper<S> {
        SqliteKeeper { opened, faults: 0 }
    }

    /// The database, or the fault of its opening.
    pub fn into_opened(self) -> Result<Connection<S>, KeepFault> {
        self.opened
    }
}

impl<S: Alter> Keeper for SqliteKeeper<S> {
    ghost use Rattle.std.specs.Prelude.{None};

    ghost tables = { λ _. None };

    ghost faults = { λ k. k.faults };

    ghost started = { λ _. None };

    fn start(&mut self, _path: &str) -> Result<(), KeepFault> {
        let answer = match &mut self.opened {
            Ok(conn) => make_tables(conn),
            Err(fault) => Err(*fault),
        };
        counted(&mut self.faults, answer)
    }

    fn last(&mut self) -> Result<u32, KeepFault> {
        let answer = match &mut self.opened {
            Ok(conn) => greatest_number(conn),
            Err(fault) => Err(*fault),
        };
        counted(&mut self.faults, answer)
    }

    fn live_count(&mut self) -> Result<u32, KeepFault> {
        let answer = match &mut self.opened {
            Ok(conn) => entry_count(conn),
            Err(fault) => Err(*fault),
        };
        counted(&mut self.faults, answer)
    }

    fn find(&mut self, number: u32) -> Result<Option<Live>, KeepFault> {
        let answer = match &mut self.opened {
            Ok(conn) => entry_at(conn, number),
            Err(fault) => Err(*fault),
        };
        counted(&mut self.faults, answer)
    }

    fn next(&mut self, above: u32) -> Result<Option<Live>, KeepFault> {
        let answer = match &mut self.opened {
            Ok(conn) => entry_above(conn, above),
            Err(fault) => Err(*fault),
        };
        counted(&mut self.faults, answer)
    }

    fn commit(&mut self, notice: &Notice, live: &Option<Live>) -> Result<(), KeepFault> {
        let answer = match &mut self.opened {
            Ok(conn) => commit(conn, notice, live),
            Err(fault) => Err(*fault),
        };
        counted(&mut self.faults, answer)
    }
}
