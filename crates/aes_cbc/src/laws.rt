//! What holds of all keys and texts, by the definitions alone.
ghost use Rattle.aes_cbc.specs.Laws.{InverseCipherUndoesCipher, CipherUndoesInverseCipher, DecryptionUndoesEncryption};

/// A block that is encrypted and then decrypted under one key is the block again.
pub fn inverse_cipher_undoes_cipher()
    ensures { InverseCipherUndoesCipher }
{}

/// A block that is decrypted and then encrypted under one key is the block again.
pub fn cipher_undoes_inverse_cipher()
    ensures { CipherUndoesInverseCipher }
{}

/// A text that is encrypted and then decrypted, under one key and initialization vector, is the text again.
pub fn decryption_undoes_encryption()
    ensures { DecryptionUndoesEncryption }
{}
