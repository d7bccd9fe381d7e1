//! How long entities are, as they are written.
ghost use Rattle.std.specs.Int.{w64, cast_unsigned};
ghost use Rattle.wire_format.specs.Spellings.{bytes_field};
ghost use Rattle.message_fields.specs.Written.{varint_unless_zero};
ghost use Rattle.sync_specifics.specs.Preferences.{preference_bytes};
ghost use Rattle.sync_specifics.specs.SealedTexts.{sealed_bytes};
ghost use Rattle.sync_specifics.specs.Specifics.{nigori_bytes, specifics_bytes};
ghost use Rattle.sync_messages.specs.Lengths.{IsLength};
ghost use Rattle.sync_messages.specs.Spellings.{entities_bytes, entity_bytes, flag_if_true, hash_if_some, specifics_if_some};

use crate::field_len::{
    len_around, len_as_it_is, len_of_both, len_of_bytes, len_of_octets, len_of_varint,
    len_unless_empty, len_unless_zero,
};
use crate::message::Entity;
use client_tags::TagHash;
use sync_specifics::{NigoriContent, Preference, Sealed, Specifics};

// The length of the fields of some entities.
pub(crate) fn entities_len(number: u32, entities: &[Entity]) -> u64
    ensures { IsLength result (entities_bytes number entities.now) }
{
    let mut total = 0;
    for entity in entities {
        total = len_of_both(total, len_around(number, entity_len(entity)));
    }
    total
}

fn entity_len(entity: &Entity) -> u64
    ensures { IsLength result (entity_bytes entity.now) }
{
    let id = len_unless_empty(1, &entity.id);
    let version = version_len(entity);
    let deleted = flag_len(18, entity.deleted);
    let specifics = specifics_field_len(&entity.specifics);
    let hash = hash_len(&entity.hash);
    let plain = len_of_both(len_of_both(id, version), deleted);
    len_of_both(len_of_both(plain, specifics), hash)
}

fn version_len(entity: &Entity) -> u64
    ensures { IsLength result (varint_unless_zero 4 (cast_unsigned w64 entity.now.version)) }
{
    len_unless_zero(4, entity.version.cast_unsigned())
}

fn flag_len(number: u32, flag: bool) -> u64
    ensures { IsLength result (flag_if_true number flag) }
{
    if flag { len_of_varint(number, 1) } else { 0 }
}

fn hash_len(hash: &Option<TagHash>) -> u64
    ensures { IsLength result (hash_if_some hash.now) }
{
    match hash {
        None => 0,
        Some(hash) => len_of_bytes(23, &hash.text()),
    }
}

fn specifics_field_len(specifics: &Option<Specifics>) -> u64
    ensures { IsLength result (specifics_if_some specifics.now) }
{
    match specifics {
        None => 0,
        Some(specifics) => len_around(21, specifics_len(specifics)),
    }
}

fn specifics_len(specifics: &Specifics) -> u64
    ensures { IsLength result (specifics_bytes specifics.now) }
{
    match specifics {
        Specifics::EmptyOf(kind) => len_of_bytes(kind.number(), &[]),
        Specifics::Preference(preference) => len_around(37702, preference_len(preference)),
        Specifics::SealedPreference(sealed) => {
            len_of_both(len_around(1, sealed_len(sealed)), len_of_bytes(37702, &[]))
        }
        Specifics::Password(sealed) => len_around(45873, password_len(sealed)),
        Specifics::Nigori(nigori) => len_around(47745, nigori_len(nigori)),
    }
}

fn preference_len(preference: &Preference) -> u64
    ensures { IsLength result (preference_bytes preference.now) }
{
    let name = len_of_octets(1, &preference.name);
    let texts = len_of_both(name, len_of_octets(2, &preference.value));
    len_of_both(texts, len_as_it_is(&preference.extra))
}

fn sealed_len(sealed: &Sealed) -> u64
    ensures { IsLength result (sealed_bytes sealed.now) }
{
    let key_name = len_of_octets(1, &sealed.key_name);
    len_of_both(key_name, len_of_octets(2, &sealed.blob))
}

// The length of a login's message.
fn password_len(sealed: &Sealed) -> u64
    ensures { IsLength result (bytes_field 1 (sealed_bytes sealed.now)) }
{
    len_around(1, sealed_len(sealed))
}

fn nigori_len(nigori: &NigoriContent) -> u64
    ensures { IsLength result (nigori_bytes nigori.now) }
{
    let bag = len_around(1, sealed_len(&nigori.bag));
    len_of_both(bag, len_of_varint(30, u64::from(nigori.pass_kind.number())))
}
