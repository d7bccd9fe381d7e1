//! Sealing and unsealing texts with the keys of a bag.
ghost use Rattle.std.specs.Prelude.{◌≡◌, ◌≢◌, ◌↔◌, ℕ, List, None, Ok, Err, IfOk};
ghost use Rattle.nigori.specs.declared.fault.UnsealFault.{UnsealFault as Fault};
ghost use Rattle.nigori.specs.declared.fault.UnsealFault.TheVariants.{NoMemory as UnsealNoMemory};
ghost use Rattle.sync_specifics.specs.declared.sealed.Sealed.{Sealed as Text};
ghost use Rattle.key_bag.specs.Bags.{IsBag};
ghost use Rattle.key_bag.specs.Texts.{AnswersExactly, IsLacked, IsSealedBy, IsSealedByDefault, UnsealsTo, HasUnsealFault, IsUnsealed, sealed_under, any_answer};

use crate::KeyBag;
use crate::fault::{AnyFault, SealFault};
use key_derivation::NigoriKey;
use nigori::{UnsealFault, seal, unseal};
use std::alloc::Global;
use sync_specifics::Sealed;
use wire_fields::{NoMemory, Octets};

impl KeyBag {
    /// The text of a sealed text, by the key of the name that it bears. It refuses a name that no key of the bag has,
    /// and what that key does not unseal. It takes time linear in the number of the keys and in the length of the text.
    pub fn unseal_any(&self, sealed: &Sealed) -> Result<Octets, AnyFault>
        ensures no_key { (name : List ℕ) → AnswersExactly AnyFault.NoMemory
            result (Err (AnyFault.NoKey name)) (IsLacked self.now sealed.now.key_name name) }
        ensures text { (plain : List ℕ) → AnswersExactly AnyFault.NoMemory
            result (Ok plain) (UnsealsTo self.now sealed.now plain) }
        ensures fault { (fault : Fault) → AnswersExactly AnyFault.NoMemory
            result (Err (AnyFault.Unseal fault)) (HasUnsealFault self.now sealed.now fault) }
        ensures memory_is_told_as_such { result ≢ Err (AnyFault.Unseal UnsealNoMemory) }
    {
        let Some(key) = self.key_named(sealed.key_name.as_slice()) else {
            return Err(no_key(&sealed.key_name));
        };
        unsealed(self.alloc(), &key, sealed.blob.as_slice())
    }

    /// A text sealed under the key of this name, and the name with it. The vector is to be one that nobody can
    /// foretell. It refuses a name that no key of the bag has, and takes time linear in the number of the keys and in
    /// the length of the text.
    pub fn seal_named(&self, name: &Octets, plain: &[u8], iv: &[u8; 16]) -> Result<Sealed, AnyFault>
        ensures no_key { (other : List ℕ) → AnswersExactly AnyFault.NoMemory
            result (Err (AnyFault.NoKey other)) (IsLacked self.now name.now other) }
        ensures sealed { (text : Text) → AnswersExactly AnyFault.NoMemory
            result (Ok text) (IsSealedBy self.now name.now plain.now iv.now text) }
        ensures never_unseals { (fault : Fault) → result ≢ Err (AnyFault.Unseal fault) }
        ensures is_bag { IsBag self.now }
    {
        let Some(key) = self.key_named(name.as_slice()) else {
            return Err(no_key(name));
        };
        Ok(sealed_under(self.alloc(), name, &key, plain, iv)?)
    }

    /// A text sealed under the default key, and its name with it. The vector is to be one that nobody can foretell. It
    /// refuses where there is no default, and takes time linear in the number of the keys and in the length of the
    /// text.
    pub fn seal_default(&self, plain: &[u8], iv: &[u8; 16]) -> Result<Sealed, SealFault>
        ensures no_default { (result ≡ Err SealFault.NoDefault) ↔ (self.now.default ≡ None) }
        ensures sealed { IfOk result (IsSealedByDefault self.now plain.now iv.now) }
        ensures is_bag { IsBag self.now }
    {
        let Some(name) = &self.default else {
            return Err(SealFault::NoDefault);
        };
        let Some(key) = self.key_named(name.as_slice()) else {
            unreachable!()
        };
        Ok(sealed_under(self.alloc(), name, &key, plain, iv)?)
    }
}

// That no key has this name.
fn no_key(name: &Octets) -> AnyFault
    ensures { result ≢ AnyFault.NoMemory → result ≡ AnyFault.NoKey name.now }
{
    match name.copy() {
        Ok(name) => AnyFault::NoKey { name },
        Err(NoMemory) => AnyFault::NoMemory,
    }
}

// A text sealed under a key, and this name with it.
fn sealed_under(
    alloc: Global,
    name: &Octets,
    key: &NigoriKey,
    plain: &[u8],
    iv: &[u8; 16],
) -> Result<Sealed, NoMemory>
    ensures { IfOk result (λ text. text ≡ sealed_under name.now key.now plain.now iv.now) }
{
    Ok(Sealed {
        key_name: name.copy()?,
        blob: seal(alloc, key, plain, iv)?,
    })
}

// The text of a blob that was sealed under a key.
fn unsealed(alloc: Global, key: &NigoriKey, blob: &[u8]) -> Result<Octets, AnyFault>
    ensures { IsUnsealed key.now blob.now result }
{
    any_answer(unseal(alloc, key, blob))
}

fn any_answer(answer: Result<Octets, UnsealFault>) -> Result<Octets, AnyFault>
    ensures { result ≡ any_answer answer }
{
    match answer {
        Ok(text) => Ok(text),
        Err(UnsealFault::NoMemory) => Err(AnyFault::NoMemory),
        Err(fault) => Err(AnyFault::Unseal(fault)),
    }
}
