use wire_fields::Octets;

/// Why an edit is refused.
#[derive(Clone, Copy, Debug, PartialEq, Eq)]
pub enum EditRefusal {
    /// Its texts have so many bytes, which is too much.
    TooLong { len: u64 },
    /// The side holds so many keys, and has no room for another one, or no number for another edit.
    Full { count: u64 },
}

/// Why a passphrase is refused.
#[derive(Debug, Drop)]
pub enum PassRefusal {
    /// The server's keys are sealed under the key of this name, for which the client asks its user first.
    NeedsKey { name: Octets },
    /// The client's own keys, as this edit set them, are not yet on the server.
    Unsynced { edit: u64 },
    /// The edit of the profile's keys is refused.
    Edit(EditRefusal),
    /// The client asks for no passphrase.
    NotAsked,
    /// The key of this passphrase has another name than the one that is asked for.
    WrongPass { wanted: Octets, derived: Octets },
}
