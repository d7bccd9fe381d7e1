//! A keeper in a file of SQLite.
ghost use Rattle.std.specs.Prelude.{◌≡◌, None, IfOk, IfErr, OnOk, OnErr};
ghost use Rattle.outer_edge.specs.Faults.{NeverFalls};
ghost use Rattle.client_keeper.specs.Rows.{rows_of, AreInOrder};
ghost use Rattle.client_keeper.specs.Keepers.{IsCauseOfLoad, IsCauseOfApply};
ghost use Rattle.client_keeper.specs.Refusals.{IsToldAs};

use crate::{ApplyFault, Change, Keeper, KeptRow, LoadFault, statements};
use sqlite::{Connection, Error, ErrorCode, File, FileStore};
use std::alloc::Global;
use std::marker::Model;
use wire_fields::List;

// Whether an error of the database is a fault of the outside, which is counted then. Want of memory is none.
pub(crate) fn count_fault(error: &Error, faults: &mut u64) -> bool
    ensures told { IsToldAs error.now result faults.old faults.new }
    ensures never_falls { NeverFalls faults.old faults.new }
{
    if matches!(error, Error::SqliteFailure(ErrorCode::OutOfMemory)) {
        return false;
    }
    *faults = faults.saturating_add(1);
    true
}

/// Rows in one table of a database, whose file the stock `sqlite3` reads too. Contracts see it as its count of faults: it
/// tells no rows.
///
/// Each change is one transaction. A file that another program has locked, that is damaged, or whose disk is full, is a
/// fault that is counted, and what was kept stays.
#[derive(Drop)]
pub struct SqliteKeeper {
    alloc: Global,
    connection: Connection<FileStore<File>>,
    faults: u64,
}

impl Model for SqliteKeeper {
    ghost use Rattle.std.specs.Prelude.{ℕ};

    ghost Value = { ℕ };

    ghost view = { λ keeper. keeper.faults };
}

impl SqliteKeeper {
    /// A keeper of the rows in this file, which is made where it is missing.
    pub fn open(rt: &HostRuntime, path: &str) -> Result<SqliteKeeper, Error>
        ensures { IfOk result (λ keeper. keeper ≡ 0) }
    {
        let mut connection = Connection::open(rt, path)?;
        statements::create_table(&mut connection)?;
        Ok(SqliteKeeper {
            alloc: rt.alloc(),
            connection,
            faults: 0,
        })
    }

    // How often a call has failed.
    pub(crate) fn fault_count(&self) -> u64
        ensures { result ≡ self.now }
    {
        self.faults
    }

    /// Copies what the log beside the file has into the file, and closes both. Nothing is lost where that fails: the next
    /// one to open the file reads the log.
    pub fn close(self) -> Result<(), Error> {
        self.connection.close()
    }
}

impl Keeper for SqliteKeeper {
    ghost holds = { λ _. None };

    ghost faults = { λ keeper. keeper };

    fn load(&mut self) -> Result<List<KeptRow>, LoadFault>
        ensures in_order { IfOk result (λ rows. AreInOrder (rows_of rows)) }
        ensures no_fault { OnOk result (self.new ≡ self.old) }
        ensures cause { IfErr result (λ fault. IsCauseOfLoad fault self.old self.new) }
        ensures never_falls { NeverFalls self.old self.new }
    {
        match statements::read_rows(self.alloc, &mut self.connection) {
            Ok(rows) => Ok(rows),
            Err(error) if count_fault(&error, &mut self.faults) => Err(LoadFault::Failed),
            Err(_) => Err(LoadFault::NoMemory),
        }
    }

    /// The cost is that of the change, times the logarithm of the number of rows.
    fn apply(&mut self, change: &Change) -> Result<(), ApplyFault>
        ensures no_fault { OnOk result (self.new ≡ self.old) }
        ensures cause { IfErr result (λ fault. IsCauseOfApply fault self.old self.new) }
        ensures never_falls { NeverFalls self.old self.new }
    {
        match statements::make_change(&mut self.connection, change.entries()) {
            Ok(()) => Ok(()),
            Err(error) if count_fault(&error, &mut self.faults) => Err(ApplyFault::Failed),
            Err(_) => Err(ApplyFault::NoMemory),
        }
    }
}
