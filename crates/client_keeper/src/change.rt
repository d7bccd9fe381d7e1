//! A change of rows.
ghost use Rattle.std.specs.Prelude.{◌≡◌, [], ◌∷◌, ◌++◌, length, Some, None, OnOk, OnErr};

use crate::{NoMemory, RowKey};
use std::alloc::Global;
use std::marker::Model;
use wire_fields::Octets;

/// What a change says of one key: the value that its row is to have, or that there is to be no row.
#[derive(Debug, Drop)]
pub struct Entry {
    pub key: RowKey,
    pub value: Option<Octets>,
}

/// What is to become of some rows, which contracts see as its entries. Of two entries on one key the later one wins.
#[derive(Debug, Drop)]
pub struct Change {
    alloc: Global,
    entries: Vec<Entry>,
}

impl Model for Change {
    ghost use Rattle.std.specs.Prelude.{List};
    ghost use Rattle.client_keeper.specs.declared.change.Entry.{Entry as OneEntry};

    ghost Value = { List OneEntry };

    ghost view = { λ change. change.entries.items };
}

impl Change {
    /// A change of nothing. It takes no memory.
    pub fn new(alloc: Global) -> Change
        ensures { result ≡ [] }
    {
        Change {
            alloc,
            entries: Vec::new(alloc),
        }
    }

    /// The row with this key is to have this value. The cost is a copy of the two.
    pub fn put(&mut self, table: u8, key: &[u8], value: &[u8]) -> Result<(), NoMemory>
        ensures ok { OnOk result
            (self.new ≡ self.old ++ record { key = record { table = table; key = key.now }; value = Some value.now } ∷ []) }
        ensures err { OnErr result (self.new ≡ self.old) }
    {
        let value = Octets::from_slice(self.alloc, value)?;
        self.add(table, key, Some(value))
    }

    /// There is to be no row with this key. The cost is a copy of it.
    pub fn remove(&mut self, table: u8, key: &[u8]) -> Result<(), NoMemory>
        ensures ok { OnOk result
            (self.new ≡ self.old ++ record { key = record { table = table; key = key.now }; value = None } ∷ []) }
        ensures err { OnErr result (self.new ≡ self.old) }
    {
        self.add(table, key, None)
    }

    // Adds an entry after the others.
    fn add(&mut self, table: u8, key: &[u8], value: Option<Octets>) -> Result<(), NoMemory>
        ensures ok { OnOk result
            (self.new ≡ self.old ++ record { key = record { table = table; key = key.now }; value = value } ∷ []) }
        ensures err { OnErr result (self.new ≡ self.old) }
    {
        let key = Octets::from_slice(self.alloc, key)?;
        let key = RowKey { table, key };
        self.entries.push(Entry { key, value })?;
        Ok(())
    }

    /// The entries, the earliest first.
    pub fn entries(&self) -> &[Entry]
        ensures { result.now ≡ self.now }
    {
        &self.entries
    }
}
