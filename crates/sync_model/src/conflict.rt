use sync_values::Value;

/// A row of the conflict table, by which an edit that the server lacks meets a write of the same key.
#[derive(Clone, Copy, Debug, PartialEq, Eq)]
pub enum Row {
    /// The write has the own value.
    C1,
    /// The write is an earlier own value, which this client offered.
    C0,
    /// The key was deleted here, and written there.
    C2,
    /// The own value is what was known before.
    C3,
    /// The write is what was known before.
    C4,
    /// The key was deleted there, and set here.
    C5,
    /// Both were changed: the type decides.
    C6,
}

/// What a type's rule makes of two present values that differ.
#[derive(Debug, Drop)]
pub enum Decision {
    /// The server's value wins.
    Remote,
    /// The client's value wins, and stays to be sent.
    Local,
    /// This value stands for both, and is to be sent.
    Merged(Value),
}

/// What a row of the conflict table does.
#[derive(Debug, Drop)]
pub enum Choice {
    /// Both values are one.
    Same,
    /// The server's value is taken.
    Remote,
    /// The client's value is kept, and stays to be sent.
    Local,
    /// This value becomes the client's, and is to be sent.
    Merged(Value),
}

/// The row of the conflict table that fits, and what it does.
#[derive(Debug, Drop)]
pub struct Resolution {
    pub row: Row,
    pub choice: Choice,
}
