//! What entities hold, as messages.
#![tactic(auto)]

mod extra;
mod fields;
mod key;
mod laws;
mod login;
mod preference;
mod sealed;
mod specifics;
mod tables;

pub use extra::is_canonical_extra;
pub use fields::SpecificsFields;
pub use key::{decode_key, decode_keys, encode_key, encode_keys};
pub use laws::{bytes_say_one_thing, said_extras_are_canonical, written_values_are_read};
pub use login::{decode_password, encode_password};
pub use message_fields::{MessageFault, MessageReason};
pub use preference::{decode_preference, encode_preference};
pub use sealed::Sealed;
pub use specifics::{NigoriContent, Specifics, decode_specifics, encode_specifics};
pub use sync_values::{Edit, Kind, NigoriKey, NigoriValue, PassKind, Password, Preference, Value};

#[cfg(test)]
mod tests;
