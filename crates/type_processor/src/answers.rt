//! What a processor answers to edits and turns.
use sync_model::Note;
use wire_fields::List;

/// An edit that was taken.
#[derive(Clone, Copy, Debug, PartialEq, Eq)]
pub struct Edited {
    /// Its number, counted from 1 by the type's edits.
    pub number: u64,
    /// The number of the edit of the same key that it follows, where the server lacks that one.
    pub followed: Option<u64>,
}

/// Why an edit was not taken. Nothing changed.
#[derive(Clone, Copy, Debug, PartialEq, Eq)]
pub enum EditFault {
    /// Its texts have so many bytes, which is more than 16,384.
    TooLong { len: u64 },
    /// The key is new, and so many are held, which is the most, or there is no number for another edit.
    Full { count: u64 },
    NoMemory,
}

/// What a turn came to.
#[derive(Debug, Drop)]
pub enum Turn {
    /// No task was waiting.
    Idle,
    /// The first task was applied, which settled these edits, in the order of the task's list.
    Turned(List<Note>),
}
