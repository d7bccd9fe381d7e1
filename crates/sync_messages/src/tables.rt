//! The fields that the messages have, and their wire kinds.

use message_fields::{Known, WireKind};

// An entity: id, version, whether it was deleted, specifics, and the hash of its client tag.
pub(crate) const ENTITY_FIELDS: [Known; 5] = [
    Known(1, WireKind::Bytes),
    Known(4, WireKind::Varint),
    Known(18, WireKind::Varint),
    Known(21, WireKind::Bytes),
    Known(23, WireKind::Bytes),
];

// A marker: the number of its type, and its token.
pub(crate) const MARKER_FIELDS: [Known; 2] = [
    Known(1, WireKind::Varint),
    Known(2, WireKind::Bytes),
];

// What of a marker of another type is looked at: the number of its type.
pub(crate) const OTHER_MARKER_FIELDS: [Known; 1] = [Known(1, WireKind::Varint)];

// An answer to an entry: the number of its outcome, id, and version.
pub(crate) const ANSWER_FIELDS: [Known; 3] = [
    Known(2, WireKind::Varint),
    Known(3, WireKind::Bytes),
    Known(6, WireKind::Varint),
];

// A message to a server: which request it has, a commit, a get-updates, and the server's birthday.
pub(crate) const TO_FIELDS: [Known; 4] = [
    Known(3, WireKind::Varint),
    Known(4, WireKind::Bytes),
    Known(5, WireKind::Bytes),
    Known(7, WireKind::Bytes),
];

// A commit: entries, and the name of the client's cache.
pub(crate) const COMMIT_FIELDS: [Known; 2] = [Known(1, WireKind::Bytes), Known(2, WireKind::Bytes)];

// A get-updates: markers.
pub(crate) const GET_UPDATES_FIELDS: [Known; 1] = [Known(6, WireKind::Bytes)];

// A message from a server: answers to a commit, updates, an error code, and the server's birthday.
pub(crate) const FROM_FIELDS: [Known; 4] = [
    Known(1, WireKind::Bytes),
    Known(2, WireKind::Bytes),
    Known(4, WireKind::Varint),
    Known(6, WireKind::Bytes),
];

// The answers to a commit: a group for each entry.
pub(crate) const COMMITTED_FIELDS: [Known; 1] = [Known(1, WireKind::Group)];

// Updates: entities, how many are left, and markers.
pub(crate) const UPDATES_FIELDS: [Known; 3] = [
    Known(1, WireKind::Bytes),
    Known(4, WireKind::Varint),
    Known(5, WireKind::Bytes),
];
