//! Stores in files of SQLite.
ghost use Rattle.std.specs.Prelude.{◌≡◌, None, IfOk, IfErr, OnOk};
ghost use Rattle.outer_edge.specs.Faults.{NeverFalls};
ghost use Rattle.client_keeper.specs.Keepers.{IsCauseOfLoad};
ghost use Rattle.client_keeper.specs.Stores.{IsSpoiledBy};

use crate::place::spoiled_by;
use crate::sqlite_keeper::count_fault;
use crate::{LoadFault, Place, SqliteKeeper};
use sqlite::Error;
use std::marker::Model;

/// Stores in the current folder: the rows of the store `NAME` are in its file `NAME.db`. It tells no stores.
#[derive(Drop)]
pub struct SqlitePlace {
    rt: HostRuntime,
    faults: u64,
    spoiled: u64,
}

impl Model for SqlitePlace {
    ghost use Rattle.client_keeper.specs.Stores.{PlaceCounts};

    ghost Value = { PlaceCounts };

    ghost view = { λ place. record { faults = place.faults; spoiled = place.spoiled } };
}

// The keeper of the file of this store.
fn open_store(rt: &HostRuntime, name: &str) -> Result<SqliteKeeper, Error>
    ensures { IfOk result (λ keeper. keeper ≡ 0) }
{
    let path = format!(in rt.alloc(); "{name}.db")?;
    SqliteKeeper::open(rt, path.as_str())
}

impl SqlitePlace {
    pub fn new(rt: HostRuntime) -> SqlitePlace
        ensures { result ≡ record { faults = 0; spoiled = 0 } }
    {
        SqlitePlace {
            rt,
            faults: 0,
            spoiled: 0,
        }
    }
}

impl Place for SqlitePlace {
    type Kept = SqliteKeeper;

    ghost stores = { λ _. None };

    ghost faults = { λ place. place.faults };

    ghost spoiled = { λ place. place.spoiled };

    /// The whole file is read.
    fn keeper(&mut self, name: &str) -> Result<SqliteKeeper, LoadFault>
        ensures sound { IfOk result (λ keeper. keeper ≡ 0) }
        ensures no_fault { OnOk result (self.new ≡ self.old) }
        ensures cause { IfErr result (λ fault. IsCauseOfLoad fault self.old.faults self.new.faults) }
        ensures none_spoiled { self.new.spoiled ≡ self.old.spoiled }
        ensures never_falls { NeverFalls self.old.faults self.new.faults }
    {
        match open_store(&self.rt, name) {
            Ok(keeper) => Ok(keeper),
            Err(error) if count_fault(&error, &mut self.faults) => Err(LoadFault::Failed),
            Err(_) => Err(LoadFault::NoMemory),
        }
    }

    /// The keeper's file is closed. What it could not copy from its log stays there, for the next keeper.
    fn back(&mut self, name: &str, keeper: SqliteKeeper)
        ensures spoiled { IsSpoiledBy keeper self.old.spoiled self.new.spoiled }
        ensures no_fault { self.new.faults ≡ self.old.faults }
        ensures never_falls { NeverFalls self.old.spoiled self.new.spoiled }
    {
        let _ = name;
        self.spoiled = spoiled_by(keeper.fault_count(), self.spoiled);
        let _closed = keeper.close();
    }
}
