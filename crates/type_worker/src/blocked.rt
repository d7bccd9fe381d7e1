//! Why an entity does not open.
use client_tags::TagHash;
use nigori::UnsealFault;
use sync_specifics::{MessageFault, Sealed};
use wire_fields::Octets;

/// Why a sealed text does not open under a bag of keys. Want of memory is no cause.
#[derive(Debug, PartialEq, Eq, Drop)]
pub enum BlockCause {
    /// The bag has no key of the name that the text bears.
    NoKey { name: Octets },
    /// The key of that name does not unseal it.
    Unseal(UnsealFault),
    /// It unseals to a text that is no content of its type.
    Content(MessageFault),
}

/// An entity that does not open: its hash, the sealed text that it holds, and why that does not open.
#[derive(Debug, Drop)]
pub struct Blocked {
    pub hash: TagHash,
    pub sealed: Sealed,
    pub cause: BlockCause,
}
