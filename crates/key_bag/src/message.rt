//! The keys of a bag as a message.
ghost use Rattle.std.specs.Prelude.{◌≡◌, IfOk};
ghost use Rattle.message_fields.specs.Faults.{Answered};
ghost use Rattle.sync_specifics.specs.Keys.{SaysKeys};
ghost use Rattle.key_bag.specs.Bags.{IsBag, packed};

use crate::KeyBag;
use crate::named::{names, unnamed};
use key_derivation::NigoriKey;
use std::alloc::Global;
use sync_specifics::{MessageFault, decode_keys, encode_keys};
use wire_fields::{List, NoMemory, Octets};

impl KeyBag {
    /// The canonical message of the keys with their names, in time linear in their number.
    pub fn pack(&self) -> Result<Octets, NoMemory>
        ensures bytes { IfOk result (λ bytes. bytes ≡ packed self.now) }
        ensures is_bag { IsBag self.now }
    {
        let names = names(self.alloc(), &self.keys)?;
        let keys = unnamed(self.alloc(), &self.keys)?;
        encode_keys(self.alloc(), &names, &keys)
    }

    /// The keys that a message says, in time linear in its bytes. The names in it are read over: a bag that the keys
    /// are added to computes its own.
    pub fn unpack(alloc: Global, bytes: &[u8]) -> Result<List<NigoriKey>, MessageFault>
        ensures { Answered (SaysKeys bytes.now) result }
    {
        decode_keys(alloc, bytes)
    }
}
