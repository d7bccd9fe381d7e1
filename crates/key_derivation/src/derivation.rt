// The keys that are derived from a passphrase.

ghost use Rattle.std.specs.Prelude.{◌≡◌, take};
ghost use Rattle.key_derivation.specs.DerivedKeys.{derive_key};

use crate::NigoriKey;
use crate::hmac::HmacSha1;
use crate::pbkdf::Block;

// The salt of every passphrase.
const SALT: &[u8; 16] = b"sync-salt-16byte";

// The numbers of turns from which each key comes.
const USER_TURNS: u32 = 1002;

const ENC_TURNS: u32 = 1003;

const MAC_TURNS: u32 = 1004;

// The first bytes of a block.
fn key_in(block: &Block) -> [u8; 16]
    ensures { result ≡ take 16 block.now.bytes }
{
    let mut key = [0; 16];
    key.copy_from_slice(&block.bytes[..16]);
    key
}

/// The keys of a passphrase: PBKDF2 of it and one fixed salt, with 1002, 1003 and 1004 turns.
///
/// The three are places of one chain, so it hashes some 2,000 blocks of 64 bytes.
pub fn derive(pass: &[u8]) -> NigoriKey
    ensures { result ≡ derive_key pass.now }
{
    let keyed = HmacSha1::new(pass);
    let mut block = Block::first(&keyed, SALT, 1);
    block.turn(&keyed, USER_TURNS - 1);
    let user = key_in(&block);
    block.turn(&keyed, ENC_TURNS - USER_TURNS);
    let enc = key_in(&block);
    block.turn(&keyed, MAC_TURNS - ENC_TURNS);
    let mac = key_in(&block);
    NigoriKey { user, enc, mac }
}
