//! What holds of all bags, by the definitions alone.
ghost use Rattle.key_bag.specs.Laws.{PackedKeysAreUnpacked, SealedTextsAreUnsealed};

use nigori::unsealing_undoes_sealing;
use sync_specifics::{bytes_say_one_thing, written_values_are_read};

/// What unpacks of a packed bag is its keys in their order, and nothing else.
pub fn packed_keys_are_unpacked()
    ensures { PackedKeysAreUnpacked }
{
    written_values_are_read();
    bytes_say_one_thing();
}

/// What a bag seals under a name, each bag that has the same key under it unseals to the text, and to no other.
pub fn sealed_texts_are_unsealed()
    ensures { SealedTextsAreUnsealed }
{
    unsealing_undoes_sealing();
}
