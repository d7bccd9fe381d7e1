//! The server of a run.
ghost use Rattle.std.specs.Prelude.{◌≡◌, [], length, reverse, OnOk, OnErr, IfOk};
ghost use Rattle.std.specs.List.{AllByRecursion};
ghost use Rattle.sync_model.specs.History.{IsBased};
ghost use Rattle.sync_model.specs.Servers.{history_served};
ghost use Rattle.sync_model.specs.Worlds.{STORE_BIRTHDAY, is_invalid_entry};
ghost use Rattle.sync_messages.specs.Laws.{HasCanonicalRequest};
ghost use Rattle.sync_messages.specs.Spellings.{from_bytes};
ghost use Rattle.replay_messages.specs.Replies.{reply_for, history_for};
ghost use Rattle.replay_messages.specs.Forms.{IsPlain};
ghost use Rattle.replay_world.specs.Outcomes.{served_reply, IsRequest, IsReply};

use crate::copies::{answers_of, copied_entries, keep_stored};
use loopback_server::Server;
use replay_messages::{read_request, server_agrees};
use std::alloc::Global;
use std::marker::Model;
use sync_messages::{FromServer, ToServer, encode_from};
use sync_model::{Content, Entry, Request};
use wire_fields::{NoMemory, Octets};

/// The server of a run. Beside what the server stores it keeps the writes as the clients made them.
///
/// Contracts see the history, the newest write first.
#[derive(Drop)]
pub(crate) struct RunServer {
    alloc: Global,
    server: Server,
    writes: Vec<Entry<Content>>,
}

impl Model for RunServer {
    ghost use Rattle.std.specs.Prelude.{List};
    ghost use Rattle.sync_model.specs.declared.message.Content.{Content};
    ghost use Rattle.sync_model.specs.declared.message.Entry.{Entry};

    ghost Value = { List (Entry Content) };

    ghost use Rattle.replay_world.specs.Servers.{history_of, IsServer};

    ghost view = { history_of };

    ghost invariant = { IsServer };
}

#[tactic(auto, unfolding(sync_model::specs::Worlds::STORE_BIRTHDAY))]
fn store_birthday(alloc: Global) -> Result<Octets, NoMemory>
    ensures { IfOk result (λ birthday. birthday ≡ STORE_BIRTHDAY) }
{
    Octets::from_slice(alloc, b"replay")
}

/// A reply, and its bytes.
#[derive(Drop)]
struct ToldReply {
    reply: FromServer,
    bytes: Octets,
}

// Handles a message. Where the bytes of the reply find no memory, what was stored is taken back.
fn handle(alloc: Global, server: &mut Server, message: &ToServer) -> Result<ToldReply, NoMemory>
    requires based { IsBased server.old.history }
    requires canonical { HasCanonicalRequest message.now.request }
    ensures reply { IfOk result (λ told. told.reply ≡ reply_for server.old.birthday server.old.history message.now) }
    ensures bytes { IfOk result (λ told. told.bytes ≡ from_bytes told.reply) }
    ensures history { OnOk result (server.new.history ≡ history_for server.old.birthday server.old.history message.now) }
    ensures birthday { server.new.birthday ≡ server.old.birthday }
    ensures err { OnErr result (server.new.history ≡ server.old.history) }
{
    let before = server.counter();
    let reply = server.handle(message)?;
    let Ok(bytes) = encode_from(alloc, &reply) else {
        let stored = server.counter() - before;
        server.take_back(stored as usize);
        return Err(NoMemory);
    };
    Ok(ToldReply { reply, bytes })
}

impl RunServer {
    /// A server that has stored nothing.
    pub(crate) fn new(alloc: Global) -> Result<RunServer, NoMemory>
        ensures { IfOk result (λ server. server ≡ []) }
    {
        let birthday = store_birthday(alloc)?;
        Ok(RunServer {
            alloc,
            server: Server::new(alloc, birthday),
            writes: Vec::new(alloc),
        })
    }

    /// The version of the last write, 0 without one.
    pub(crate) fn version(&self) -> u64
        ensures { result ≡ length self.now }
    {
        self.server.counter()
    }

    /// The writes, the oldest first.
    pub(crate) fn writes(&self) -> &[Entry<Content>]
        ensures is { reverse result.now ≡ self.now }
        ensures based { IsBased (reverse result.now) }
        ensures plain { AllByRecursion IsPlain (reverse result.now) }
    {
        &self.writes
    }

    /// Handles a request by its bytes, and answers the bytes of the reply. A commit takes time that grows with its
    /// bytes and, for each entry, with the logarithm of the number of keys.
    pub(crate) fn deliver(
        &mut self,
        client: u32,
        request: &Request<Content>,
        bytes: &[u8],
    ) -> Result<Octets, NoMemory>
        requires { IsRequest client request.now bytes.now }
        ensures reply { IfOk result (IsReply request.now (served_reply self.old request.now)) }
        ensures history { OnOk result (self.new ≡ history_served is_invalid_entry STORE_BIRTHDAY self.old request.now) }
        ensures err { OnErr result (self.new ≡ self.old) }
    {
        server_agrees();
        let message = read_request(self.alloc, bytes)?;
        let copies = copied_entries(self.alloc, &request.call)?;
        self.writes.reserve(copies.len())?;
        let told = handle(self.alloc, &mut self.server, &message)?;
        keep_stored(&mut self.writes, copies, answers_of(&told.reply.reply));
        Ok(told.bytes)
    }
}
