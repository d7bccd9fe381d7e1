//! Reading the bytes that the other side wrote.
ghost use Rattle.std.specs.Prelude.{◌≡◌, IfOk};
ghost use Rattle.message_fields.specs.Faults.{no_memory};
ghost use Rattle.sync_messages.specs.declared.message.FromServer.{FromServer};
ghost use Rattle.sync_messages.specs.declared.message.ToServer.{ToServer};
ghost use Rattle.sync_messages.specs.Laws.{HasCanonicalReply, HasCanonicalRequest, IsSayable, IsSayableRequest};
ghost use Rattle.sync_messages.specs.Spellings.{to_bytes, from_bytes};
ghost use Rattle.replay_messages.specs.Spelled.{IsRequestBytes, IsReplyBytes};

use std::alloc::Global;
use sync_messages::{
    FromServer, MessageFault, ToServer, bytes_say_one_message, decode_from, decode_to,
    said_extras_are_canonical, written_messages_are_read,
};
use wire_fields::NoMemory;

// The fault of bytes in which nothing is at fault: memory was wanting.
fn want_of_memory(_fault: MessageFault) -> NoMemory
    requires { _fault ≡ no_memory }
{
    NoMemory
}

/// Reads the bytes of a message to a server, in time linear in them. It fails only for want of memory.
pub fn read_request(alloc: Global, bytes: &[u8]) -> Result<ToServer, NoMemory>
    requires { IsRequestBytes bytes.now }
    ensures canonical { IfOk result (λ read. HasCanonicalRequest read.request) }
    ensures read { (message : ToServer) → IsSayableRequest message.request → bytes.now ≡ to_bytes message
        → IfOk result (λ read. read ≡ message) }
{
    bytes_say_one_message();
    said_extras_are_canonical();
    written_messages_are_read();
    match decode_to(alloc, bytes) {
        Ok(message) => Ok(message),
        Err(fault) => Err(want_of_memory(fault)),
    }
}

/// Reads the bytes of a message from a server, in time linear in them. It fails only for want of memory.
pub fn read_reply(alloc: Global, bytes: &[u8]) -> Result<FromServer, NoMemory>
    requires { IsReplyBytes bytes.now }
    ensures canonical { IfOk result (λ read. HasCanonicalReply read.reply) }
    ensures read { (message : FromServer) → IsSayable message → bytes.now ≡ from_bytes message
        → IfOk result (λ read. read ≡ message) }
{
    bytes_say_one_message();
    said_extras_are_canonical();
    written_messages_are_read();
    match decode_from(alloc, bytes) {
        Ok(message) => Ok(message),
        Err(fault) => Err(want_of_memory(fault)),
    }
}
