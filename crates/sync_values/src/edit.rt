use crate::value::{NigoriValue, Password, Preference};
use wire_fields::Octets;

/// A change that a user makes to one entity.
///
/// A set one names no unknown fields: its `extra` is empty, and what it makes keeps those of the own value before it.
/// A newer one stands for the edit of a client that knows these fields, and says them all.
#[derive(Debug, Drop)]
pub enum Edit {
    SetPreference(Preference),
    NewerPreference(Preference),
    /// Deletes the preference of this name.
    DeletePreference(Octets),
    SetPassword(Password),
    NewerPassword(Password),
    /// Deletes the login that these five texts name.
    DeletePassword {
        origin: Octets,
        user_element: Octets,
        user_value: Octets,
        pass_element: Octets,
        realm: Octets,
    },
    SetNigori(NigoriValue),
}
