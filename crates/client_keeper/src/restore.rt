//! Why a store of rows was not read back.
use thiserror::Error;
use wire_fields::Octets;

/// What is wrong with a row, or with the rows as a whole.
#[derive(Clone, Copy, Debug, PartialEq, Eq, Error)]
pub enum StoreReason {
    /// Rows are there, and the row that tells their format is missing or has another value.
    #[error("format")]
    Format,
    /// The keeper has no such table.
    #[error("table")]
    Table,
    /// The key is none of the forms that its table has.
    #[error("key")]
    Key,
    /// The value is not of its form, or not in canonical form.
    #[error("value")]
    Value,
    /// Numbers contradict each other.
    #[error("numbers")]
    Numbers,
    /// The row does not stand at its place, or its name is that of an earlier row.
    #[error("place")]
    Place,
    /// The version is below 1, or that of an earlier row.
    #[error("version")]
    Version,
}

/// Why rows were not restored.
#[derive(Debug, PartialEq, Eq, Drop, Error)]
pub enum RestoreFault {
    /// The keeper failed, which its count of faults says too.
    #[error("what keeps the rows failed")]
    KeeperFault,
    /// The first row at fault, by ascending table and key.
    #[error("bad store: table {table}, {reason}")]
    BadStore {
        table: u8,
        key: Octets,
        reason: StoreReason,
    },
    #[error("memory ran out")]
    NoMemory,
}

/// What was not restored, and the keeper or the keepers that were handed in.
#[derive(Debug, Drop)]
pub struct Unrestored<T> {
    pub fault: RestoreFault,
    pub kept: T,
}
