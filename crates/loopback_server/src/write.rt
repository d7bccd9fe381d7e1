//! What the server keeps of an entity.
ghost use Rattle.std.specs.Prelude.{◌≡◌};
ghost use Rattle.loopback_server.specs.Indexes.{key_of};

use client_tags::{Kind, TagHash};
use sync_model::Key;
use sync_specifics::Specifics;

/// What names an entity: its type, and the hash of its client tag.
#[derive(Clone, Copy, Debug, PartialEq, Eq, PartialOrd, Ord)]
pub(crate) struct EntityKey {
    pub(crate) kind: Kind,
    pub(crate) hash: TagHash,
}

impl EntityKey {
    /// The key in the model's words.
    pub(crate) fn named(&self) -> Key
        ensures { result ≡ key_of self.now }
    {
        Key {
            kind: self.kind,
            hash: self.hash,
        }
    }
}

/// A write of an entity, with the version that it is based on. A deletion holds empty specifics.
#[derive(Debug, Drop)]
pub(crate) struct Write {
    pub(crate) key: EntityKey,
    pub(crate) base: u64,
    pub(crate) specifics: Specifics,
}
