use sync_model::Edit;
use wire_fields::{List, Octets};

/// What a user of one client does next.
#[derive(Debug, Drop)]
pub enum ScriptLine {
    /// Changes an entity.
    Change(Edit),
    /// Chooses a passphrase.
    SetPass(Octets),
    /// Gives the passphrase for which the client asked.
    GivePass(Octets),
    /// Has the client ask and offer until it rests.
    Sync,
    /// Waits until all lines before have been done.
    Join,
}

/// What a user of one client does, in order.
#[derive(Debug, Drop)]
pub struct Script {
    pub lines: List<ScriptLine>,
}
