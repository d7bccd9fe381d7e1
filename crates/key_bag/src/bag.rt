ghost use Rattle.std.specs.Prelude.{◌≡◌, ◌==◌, ◌↔◌, ℕ, List, length, IsTrue, Ok, Err, IfOk, OnOk, OnErr, option_copied};
ghost use Rattle.nigori.specs.Sealing.{key_name};
ghost use Rattle.key_bag.specs.Bags.{empty_bag, key_named, names_of, HasName, with_key, with_default, IsBag};
ghost use Rattle.key_bag.specs.Texts.{IsLacked};

use crate::fault::NoKey;
use crate::named::{NamedKey, append, key_named, named_by_itself, names};
use key_derivation::NigoriKey;
use std::alloc::Global;
use std::marker::Model;
use wire_fields::{List, NoMemory, Octets};

/// What became of a key that was to join a bag.
#[derive(Clone, Copy, Debug, PartialEq, Eq)]
pub enum Added {
    New,
    /// A key of its name stood in the bag, which is as it was.
    Present,
}

/// The keys of a profile in the order of their adding, each under the name that is computed from it, and the
/// default one, if there is one. A bag is short: a look-up goes through it.
///
/// Contracts see it as a `Bag`, and `len` and others tell what holds of each one.
#[derive(Debug, Drop)]
pub struct KeyBag {
    pub(crate) keys: Vec<NamedKey>,
    pub(crate) default: Option<Octets>,
}

impl Model for KeyBag {
    ghost use Rattle.key_bag.specs.Bags.{Bag, IsBag};

    ghost Value = { Bag };

    ghost view = { λ bag. record { keys = bag.keys.items; default = bag.default } };

    ghost invariant = { λ bag. IsBag (record { keys = bag.keys.items; default = bag.default }) };
}

impl KeyBag {
    /// No keys. It takes no memory.
    pub fn new(alloc: Global) -> KeyBag
        ensures { result ≡ empty_bag }
    {
        KeyBag {
            keys: Vec::new(alloc),
            default: None,
        }
    }

    /// The number of the keys.
    pub fn len(&self) -> usize
        ensures len { result ≡ length self.now.keys }
        ensures is_bag { IsBag self.now }
    {
        self.keys.len()
    }

    pub fn is_empty(&self) -> bool
        ensures { result ≡ (length self.now.keys == 0) }
    {
        self.keys.is_empty()
    }

    /// Whether a key of this name stands in the bag. It takes no memory, and time linear in the number of the keys.
    pub fn has(&self, name: &[u8]) -> bool
        ensures answer { IsTrue result ↔ HasName self.now name.now }
        ensures is_bag { IsBag self.now }
    {
        self.key_named(name).is_some()
    }

    /// The names of the keys in the order of their adding, in time linear in their number.
    pub fn names(&self) -> Result<List<Octets>, NoMemory>
        ensures { IfOk result (λ names. names ≡ names_of self.now) }
    {
        names(self.alloc(), &self.keys)
    }

    /// Adds a key at the end, under the name that is computed from it, if no key of that name stands in the bag. It
    /// encrypts and hashes a text of fixed length, and takes time linear in the number of the keys.
    pub fn add(&mut self, key: &NigoriKey) -> Result<Added, NoMemory>
        ensures answer { IfOk result (λ added. (added ≡ Added.Present) ↔ HasName self.old (key_name key.now)) }
        ensures new { result ≡ Ok Added.New → self.new ≡ with_key self.old key.now }
        ensures present { result ≡ Ok Added.Present → self.new ≡ self.old }
        ensures err { OnErr result (self.new ≡ self.old) }
    {
        let named = named_by_itself(self.alloc(), key)?;
        if self.has(named.name.as_slice()) {
            return Ok(Added::Present);
        }
        append(&mut self.keys, named)?;
        Ok(Added::New)
    }

    /// Makes the key of this name the default one. It refuses a name that no key of the bag has, and hands it back.
    /// It takes no memory, and time linear in the number of the keys.
    pub fn set_default(&mut self, name: Octets) -> Result<(), NoKey>
        ensures no_key { (other : List ℕ) → (result ≡ Err (record { name = other })) ↔ IsLacked self.old name other }
        ensures ok { OnOk result (self.new ≡ with_default self.old name) }
        ensures err { OnErr result (self.new ≡ self.old) }
    {
        if !self.has(name.as_slice()) {
            return Err(NoKey { name });
        }
        self.default = Some(name);
        Ok(())
    }

    /// The name of the default key, if there is one. It takes no memory.
    pub fn default_name(&self) -> Option<&Octets>
        ensures name { option_copied result ≡ self.now.default }
        ensures is_bag { IsBag self.now }
    {
        self.default.as_ref()
    }

    // The key of a name.
    pub(crate) fn key_named(&self, name: &[u8]) -> Option<NigoriKey>
        ensures key { result ≡ key_named self.now.keys name.now }
        ensures is_bag { IsBag self.now }
    {
        key_named(&self.keys, name)
    }

    pub(crate) fn alloc(&self) -> Global {
        *self.keys.allocator()
    }
}
