//! Rows and their keys.
ghost use Rattle.std.specs.Prelude.{◌≡◌, IfOk};

use wire_fields::{NoMemory, Octets};

/// The key of a row: its table, and bytes within that. Keys are ordered by table, and then by bytes.
#[derive(Debug, PartialEq, Eq, PartialOrd, Ord, Drop)]
pub struct RowKey {
    pub table: u8,
    pub key: Octets,
}

impl RowKey {
    // A second owner of the same bytes.
    pub(crate) fn copy(&self) -> Result<RowKey, NoMemory>
        ensures { IfOk result (λ key. key ≡ self.now) }
    {
        Ok(RowKey {
            table: self.table,
            key: self.key.copy()?,
        })
    }
}

/// A row that a keeper gave.
#[derive(Debug, PartialEq, Eq, Drop)]
pub struct KeptRow {
    pub table: u8,
    pub key: Octets,
    pub value: Octets,
}
