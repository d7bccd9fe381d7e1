ghost use Rattle.std.specs.Prelude.{◌≡◌, ◌↔◌, ℕ, List, Ok, Some, IfSome, IfNone};
ghost use Rattle.base64.specs.Engines.{standard};
ghost use Rattle.base64.specs.GeneralPurpose.{decode_of};
ghost use Rattle.client_tags.specs.Kinds.{specifics_prefix};
ghost use Rattle.client_tags.specs.Hashes.{tag_hash, hash_text, hash_bytes_of, IsHash, IsNoHashText};

use crate::Kind;
use base64::engine::general_purpose::STANDARD;
use sha1::Sha1;
use std::marker::Model;

/// The hash of a client tag, by which a server keeps an entity. Contracts see it as the list of its bytes, and
/// it is ordered as that list is.
#[derive(Clone, Copy, Debug, PartialEq, Eq, PartialOrd, Ord, Hash)]
pub struct TagHash {
    bytes: [u8; 20],
}

impl Model for TagHash {
    ghost use Rattle.std.specs.Prelude.{ℕ, List};

    ghost Value = { List ℕ };

    ghost view = { λ hash. hash.bytes };

    ghost inverse = { λ bytes. record { bytes = bytes } };
}

impl TagHash {
    /// The hash of these bytes.
    pub fn from_bytes(bytes: [u8; 20]) -> TagHash
        ensures { result ≡ bytes }
    {
        TagHash { bytes }
    }

    /// Its bytes.
    pub fn as_bytes(&self) -> &[u8; 20]
        ensures bytes { result.now ≡ self.now }
        ensures is_hash { IsHash self.now }
    {
        are_hash_bytes(&self.bytes);
        &self.bytes
    }

    /// The hash as messages carry it.
    #[tactic(auto, unfolding(crate::specs::Hashes::hash_text))]
    pub fn text(&self) -> [u8; 28]
        ensures { result ≡ hash_text self.now }
    {
        let mut text = [0; 28];
        // Twenty bytes take 28 characters, so this cannot fail.
        let _ = STANDARD.encode_slice(&self.bytes, &mut text);
        text
    }

    /// The hash of a text, if it is one's: 28 characters with the padding that the standard asks for, and
    /// no bits set past the last byte.
    #[tactic(auto, using(crate::proofs::HashTexts::text_of_decoded))]
    pub fn from_text(text: &[u8]) -> Option<TagHash>
        ensures is_hash { result ≡ hash_bytes_of text.now }
        ensures found { (hash : List ℕ) → IsHash hash → (result ≡ Some hash) ↔ (text.now ≡ hash_text hash) }
        ensures some { IfSome result (λ hash. text.now ≡ hash_text hash) }
        ensures none { IfNone result (IsNoHashText text.now) }
    {
        let bytes = hash_bytes(text)?;
        Some(TagHash { bytes })
    }
}

// Twenty bytes are those of a hash.
fn are_hash_bytes(bytes: &[u8; 20])
    ensures { IsHash bytes.now }
{
    // As a slice they are known to be bytes.
    let _len = bytes.as_slice().len();
}

// The twenty bytes that a text of 28 characters stands for.
fn hash_bytes(text: &[u8]) -> Option<[u8; 20]>
    ensures is { result ≡ hash_bytes_of text.now }
    ensures some { IfSome result (λ bytes. decode_of standard text.now ≡ Ok bytes) }
    ensures none { IfNone result (IsNoHashText text.now) }
{
    if text.len() != 28 {
        return None;
    }
    let mut decoded = [0; 21];
    let Ok(len) = STANDARD.decode_slice_unchecked(text, &mut decoded) else {
        return None;
    };
    let Ok(bytes) = <[u8; 20]>::try_from(&decoded[..len]) else {
        return None;
    };
    Some(bytes)
}

// An empty specifics of the type, as its bytes.
#[tactic(auto, unfolding(wire_format::specs::Spellings::least_groups))]
pub(crate) fn specifics_prefix(kind: Kind) -> [u8; 4]
    ensures { result ≡ specifics_prefix kind }
{
    match kind {
        Kind::Nigori => [0x8a, 0xa8, 0x17, 0x00],
        Kind::Preference => [0xb2, 0xb4, 0x12, 0x00],
        Kind::Password => [0x8a, 0xb3, 0x16, 0x00],
    }
}

/// The hash of a type's tag, in time linear in the tag's length.
#[tactic(auto, unfolding(crate::specs::Hashes::tag_hash))]
pub fn tag_hash(kind: Kind, tag: &[u8]) -> TagHash
    ensures { result ≡ tag_hash kind tag.now }
{
    let mut hasher = Sha1::new();
    hasher.update(&specifics_prefix(kind));
    hasher.update(tag);
    TagHash {
        bytes: hasher.finalize(),
    }
}
