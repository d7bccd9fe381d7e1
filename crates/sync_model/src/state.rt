use sync_values::Value;
use wire_fields::{List, Octets};

/// An own value that a client offered to the server, with the number of its edit.
#[derive(Debug, Drop)]
pub struct Offered {
    pub number: u64,
    pub value: Value,
}

/// What a client knows of one key.
#[derive(Debug, Drop)]
pub struct KeyState {
    /// The version of the server's that the client knows, 0 for none.
    pub known: u64,
    /// The value of that version.
    pub base: Value,
    /// The client's own value.
    pub own: Value,
    /// The number of the edit that the server lacks, if any.
    pub due: Option<u64>,
    /// The number of the last edit of the key, 0 for none.
    pub last_edit: u64,
    /// The name of the key that seals what the server has.
    pub lock: Option<Octets>,
    /// What was offered since that version became known, by ascending number; at most eight.
    pub offered: List<Offered>,
}

/// How the entries of a type are to be sent.
#[derive(Clone, Copy, Debug, PartialEq, Eq)]
pub enum Wanted {
    /// Not sealed under the default key.
    Plain,
    /// Sealed under the default key.
    Under,
    /// Not at all: the default key is missing.
    Hold,
}
