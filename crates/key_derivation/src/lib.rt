//! HMAC, PBKDF2, and the keys that are derived from a passphrase.
#![tactic(auto)]

mod derivation;
mod hmac;
mod pbkdf;

pub use derivation::derive;
pub use hmac::{hmac_sha1, hmac_sha256};
pub use pbkdf::pbkdf2;

/// Three AES-128 keys that stand for one passphrase: one each for names, for sealing and for tags.
#[derive(Clone, Copy, Debug, PartialEq, Eq, Hash)]
pub struct NigoriKey {
    pub user: [u8; 16],
    pub enc: [u8; 16],
    pub mac: [u8; 16],
}

#[cfg(test)]
mod tests;
