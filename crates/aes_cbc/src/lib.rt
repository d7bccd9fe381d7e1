//! AES-128 (FIPS 197) in the mode of cipher block chaining (SP 800-38A), with padding (RFC 5652).
#![tactic(auto)]

mod chaining;
mod fault;
mod laws;
mod memory;
mod padding;
mod schedule;
mod steps;
mod tables;

pub use chaining::{cbc_decrypt, cbc_encrypt};
pub use fault::CbcFault;
pub use laws::{
    cipher_undoes_inverse_cipher, decryption_undoes_encryption, inverse_cipher_undoes_cipher,
};
pub use memory::NoMemory;
pub use schedule::Schedule;

#[cfg(test)]
mod tests;
