//! The server.
ghost use Rattle.std.specs.Prelude.{◌≡◌, ◌≤◌, [], length, drop, map, not, IfOk, OnOk, OnErr};
ghost use Rattle.std.specs.Str.{bytes_eq};
ghost use Rattle.sync_messages.specs.Laws.{HasCanonicalRequest, IsSayable, IsSayableReply};
ghost use Rattle.sync_model.specs.History.{IsBased};
ghost use Rattle.sync_model.specs.Servers.{is_foreign, verdict_on, history_after};
ghost use Rattle.replay_messages.specs.Entries.{is_invalid};
ghost use Rattle.loopback_server.specs.Extras.{HoldCanonicalExtras};
ghost use Rattle.replay_messages.specs.Replies.{call_in, entries_of, told_entity, told_verdict, reply_for, history_for};
ghost use Rattle.loopback_server.specs.Pages.{last_writes};
ghost use Rattle.loopback_server.specs.Stores.{history_of, IsIndexed};

use crate::store::Store;
use std::alloc::Global;
use std::marker::Model;
use sync_messages::{Entity, FromServer, Reply, Request, ToServer};
use wire_fields::{List, NoMemory, Octets};

/// The code of a request that is for a store of another birthday.
const NOT_MY_BIRTHDAY: u32 = 2;

/// A server that keeps what it stores in memory.
///
/// Contracts see the birthday of its store and the history of its writes.
#[derive(Drop)]
pub struct Server {
    birthday: Octets,
    store: Store,
}

impl Model for Server {
    ghost use Rattle.loopback_server.specs.Extras.{HoldCanonicalExtras};
    ghost use Rattle.loopback_server.specs.Servers.{Served};
    ghost use Rattle.loopback_server.specs.Stores.{history_of, IsIndexed};

    ghost Value = { Served };

    ghost view = { λ server. record { birthday = server.birthday; history = history_of server.store } };

    ghost invariant = { λ server. IsIndexed server.store × HoldCanonicalExtras (history_of server.store) };
}

// Two texts are not the same.
fn differ(text: &[u8], other: &[u8]) -> bool
    ensures { result ≡ not (bytes_eq text.now other.now) }
{
    text != other
}

// A birthday is known, and is another one than this.
fn is_foreign(own: &Octets, birthday: &Option<Octets>) -> bool
    ensures { result ≡ is_foreign own.now birthday.now }
{
    match birthday {
        None => false,
        Some(other) => differ(other.as_slice(), own.as_slice()),
    }
}

// What is said to a request that is accepted.
fn answer(store: &mut Store, request: &Request) -> Result<Reply, NoMemory>
    requires indexed { IsIndexed store.old }
    requires stored { HoldCanonicalExtras (history_of store.old) }
    requires canonical { HasCanonicalRequest request.now }
    ensures reply { IfOk result (λ reply. reply
        ≡ told_verdict (entries_of (call_in request.now)) (verdict_on is_invalid (history_of store.old) (call_in request.now))) }
    ensures history { OnOk result (history_of store.new
        ≡ history_after is_invalid (history_of store.old) (call_in request.now)) }
    ensures err { OnErr result (history_of store.new ≡ history_of store.old) }
    ensures indexed { IsIndexed store.new }
    ensures sayable { IfOk result IsSayableReply }
{
    match request {
        Request::Commit(commit) => Ok(Reply::Committed(store.commit(commit.entries.as_slice())?)),
        Request::Updates(updates) => Ok(Reply::Updates(store.updates(updates.marks.as_slice())?)),
    }
}

impl Server {
    /// A server that has stored nothing, for a store of this birthday. It takes no memory.
    pub fn new(alloc: Global, birthday: Octets) -> Server
        ensures { result ≡ record { birthday = birthday; history = [] } }
    {
        Server {
            birthday,
            store: Store::new(alloc),
        }
    }

    /// Handles a message, whose entities have canonical extras, as those have that are decoded. A commit takes time that
    /// grows with its bytes and, for each entity, with the logarithm of the number of keys; a get-updates takes one pass
    /// over the keys, and time that grows with the bytes of what is told and, for each key that is wanted, with the
    /// logarithm of their number.
    #[tactic(auto, unfolding(replay_messages::specs::Replies::reply_for, replay_messages::specs::Replies::history_for, sync_model::specs::Servers::reply_to, sync_model::specs::Servers::history_served))]
    pub fn handle(&mut self, request: &ToServer) -> Result<FromServer, NoMemory>
        requires { HasCanonicalRequest request.now.request }
        ensures reply { IfOk result (λ reply. reply ≡ reply_for self.old.birthday self.old.history request.now) }
        ensures history { OnOk result (self.new.history ≡ history_for self.old.birthday self.old.history request.now) }
        ensures birthday { self.new.birthday ≡ self.old.birthday }
        ensures err { OnErr result (self.new.history ≡ self.old.history) }
        ensures versions { IsBased self.old.history → IsBased self.new.history }
        ensures sayable { IfOk result IsSayable }
    {
        let birthday = self.birthday.copy()?;
        if is_foreign(&self.birthday, &request.birthday) {
            return Ok(FromServer {
                birthday: Some(birthday),
                reply: Reply::Refused(NOT_MY_BIRTHDAY),
            });
        }
        let reply = answer(&mut self.store, &request.request)?;
        Ok(FromServer {
            birthday: Some(birthday),
            reply,
        })
    }

    /// Takes back the last writes, as if they had not been made, for a caller that could not keep the reply to them. It
    /// takes no memory, and for each write time that grows with the logarithm of the number of keys.
    pub fn take_back(&mut self, count: usize)
        requires few { count ≤ length self.old.history }
        requires based { IsBased self.old.history }
        ensures { self.new ≡ record self.old { history = drop count self.old.history } }
    {
        self.store.take_back(count);
    }

    /// The version of the last write, 0 without one.
    pub fn counter(&self) -> u64
        ensures { result ≡ length self.now.history }
    {
        self.store.version()
    }

    /// The last writes of all keys, deletions among them, by ascending version. It takes time that grows
    /// with their bytes and, for each, with the logarithm of the number of keys.
    pub fn entities(&self) -> Result<List<Entity>, NoMemory>
        ensures { IfOk result (λ entities. entities ≡ map told_entity (last_writes self.now.history)) }
    {
        self.store.entities()
    }
}
