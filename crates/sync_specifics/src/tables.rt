//! The fields that the messages have, and their wire kinds.

use message_fields::{Known, WireKind};

// An encrypted text: the name of its key, and itself.
pub(crate) const SEALED_FIELDS: [Known; 2] = [Known(1, WireKind::Bytes), Known(2, WireKind::Bytes)];

// A preference: its name, and its value.
pub(crate) const PREFERENCE_FIELDS: [Known; 2] = [
    Known(1, WireKind::Bytes),
    Known(2, WireKind::Bytes),
];

// The data of a login: realm, origin, the name and the value of the user's element, those of the password's, and
// when it was made.
pub(crate) const LOGIN_FIELDS: [Known; 7] = [
    Known(2, WireKind::Bytes),
    Known(3, WireKind::Bytes),
    Known(5, WireKind::Bytes),
    Known(6, WireKind::Bytes),
    Known(7, WireKind::Bytes),
    Known(8, WireKind::Bytes),
    Known(11, WireKind::Varint),
];

// A login as an entity has it: encrypted.
pub(crate) const PASSWORD_FIELDS: [Known; 1] = [Known(1, WireKind::Bytes)];

// The keys of a profile as an entity has them: encrypted, and the kind of their passphrase.
pub(crate) const NIGORI_FIELDS: [Known; 2] = [
    Known(1, WireKind::Bytes),
    Known(30, WireKind::Varint),
];

// Some keys.
pub(crate) const BAG_FIELDS: [Known; 1] = [Known(2, WireKind::Bytes)];

// A key: its name, and its three parts.
pub(crate) const KEY_FIELDS: [Known; 4] = [
    Known(1, WireKind::Bytes),
    Known(2, WireKind::Bytes),
    Known(3, WireKind::Bytes),
    Known(4, WireKind::Bytes),
];

// What an entity holds: an encrypted text, or the field of its type.
pub(crate) const SPECIFICS_FIELDS: [Known; 4] = [
    Known(1, WireKind::Bytes),
    Known(37702, WireKind::Bytes),
    Known(45873, WireKind::Bytes),
    Known(47745, WireKind::Bytes),
];
