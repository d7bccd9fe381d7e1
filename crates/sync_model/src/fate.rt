use crate::conflict::Row;
use sync_values::Kind;

/// What settled an edit.
#[derive(Clone, Copy, Debug, PartialEq, Eq)]
pub enum Fate {
    /// A later edit of the same key on the same client, with this number.
    Followed(u64),
    /// The server took it as the write of this version.
    Committed(u64),
    /// The write of this version has the same value.
    Matched(u64),
    /// The write of this version took its place, by this row of the conflict table.
    Taken { version: u64, row: Row },
    /// It was merged with the write of this version, by this row of the conflict table.
    Merged { version: u64, row: Row },
}

/// What a turn settles on its side: the edit's number, and its fate.
#[derive(Clone, Copy, Debug, PartialEq, Eq)]
pub struct Note {
    pub number: u64,
    pub fate: Fate,
}

/// An edit that an event settles: whose it is, and its fate.
#[derive(Clone, Copy, Debug, PartialEq, Eq)]
pub struct Settlement {
    pub client: u32,
    pub kind: Kind,
    pub number: u64,
    pub fate: Fate,
}
