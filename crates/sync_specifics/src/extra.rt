//! Which bytes may stand as the unknown fields of a value.
ghost use Rattle.std.specs.Prelude.{IsTrue, ◌↔◌};
ghost use Rattle.message_fields.specs.Unknown.{IsCanonicalExtra};
ghost use Rattle.sync_specifics.specs.Extras.{HasExtra, extra_table};

use crate::tables::{LOGIN_FIELDS, PREFERENCE_FIELDS};
use client_tags::Kind;

/// Whether these bytes are an extra as the decoder of this type's values gives it: the unknown fields of the message
/// that they are by themselves, each as short as it can be. It takes no memory, and time linear in the bytes.
pub fn is_canonical_extra(kind: Kind, extra: &[u8]) -> bool
    requires { HasExtra kind }
    ensures { IsTrue result ↔ IsCanonicalExtra (extra_table kind) extra.now }
{
    match kind {
        Kind::Password => message_fields::is_canonical_extra(&LOGIN_FIELDS, extra),
        Kind::Preference => message_fields::is_canonical_extra(&PREFERENCE_FIELDS, extra),
        Kind::Nigori => false,
    }
}
