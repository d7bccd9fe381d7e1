//! A message of either direction, and the bytes that say it.
ghost use Rattle.std.specs.Prelude.{◌≡◌, ◌↔◌, IfOk, IsTrue};
ghost use Rattle.message_fields.specs.Faults.{Answered};
ghost use Rattle.message_text.specs.Messages.{Says, canonical_bytes};

use std::alloc::Global;
use sync_messages::{
    FromServer, MessageFault, ToServer, decode_from, decode_to, encode_from, encode_to,
};
use wire_fields::{NoMemory, Octets};

/// Which way a message goes.
#[derive(Clone, Copy, Debug, PartialEq, Eq)]
pub enum Direction {
    ToServer,
    FromServer,
}

/// A message of either direction.
#[derive(Debug, Drop)]
pub enum WireMessage {
    ToServer(ToServer),
    FromServer(FromServer),
}

impl WireMessage {
    /// Reads a message of this direction, in time linear in the bytes.
    pub fn read(
        alloc: Global,
        direction: Direction,
        bytes: &[u8],
    ) -> Result<WireMessage, MessageFault>
        ensures { Answered (Says direction bytes.now) result }
    {
        match direction {
            Direction::ToServer => Ok(WireMessage::ToServer(decode_to(alloc, bytes)?)),
            Direction::FromServer => Ok(WireMessage::FromServer(decode_from(alloc, bytes)?)),
        }
    }

    /// The canonical bytes of the message, in time linear in their number.
    pub fn encode(&self, alloc: Global) -> Result<Octets, NoMemory>
        ensures { IfOk result (λ bytes. bytes ≡ canonical_bytes self.now) }
    {
        match self {
            WireMessage::ToServer(message) => encode_to(alloc, message),
            WireMessage::FromServer(message) => encode_from(alloc, message),
        }
    }

    /// Whether these bytes are the canonical ones of the message, in time linear in the number of those.
    pub fn is_spelled(&self, alloc: Global, bytes: &[u8]) -> Result<bool, NoMemory>
        ensures { IfOk result (λ answer. IsTrue answer ↔ (bytes.now ≡ canonical_bytes self.now)) }
    {
        let canonical = self.encode(alloc)?;
        Ok(bytes == canonical.as_slice())
    }
}
