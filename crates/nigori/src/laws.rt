//! What holds of all keys and texts, by the definitions alone.
ghost use Rattle.nigori.specs.Laws.{NamesHave88Characters, UnsealingUndoesSealing};

use aes_cbc::decryption_undoes_encryption;

/// A text that is sealed and then unsealed, under one key, is the text again.
pub fn unsealing_undoes_sealing()
    ensures { UnsealingUndoesSealing }
{
    decryption_undoes_encryption();
}

/// The name of a key has 88 characters.
pub fn names_have_88_characters()
    ensures { NamesHave88Characters }
{}
