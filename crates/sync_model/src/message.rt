use client_tags::TagHash;
use key_derivation::NigoriKey;
use sync_values::{Kind, Value};
use wire_fields::{List, Octets};

/// What names an entity: its type, and the hash of its client tag.
#[derive(Clone, Copy, Debug, PartialEq, Eq)]
pub struct Key {
    pub kind: Kind,
    pub hash: TagHash,
}

/// An entity in a commit, and as the server then keeps it: the version that it is based on, 0 for none,
/// and what it carries. In a reply its version is that of the write itself.
#[derive(Debug, Drop)]
pub struct Entry<C> {
    pub key: Key,
    pub version: u64,
    pub content: C,
}

/// A random draw that seals a value: the key that seals it, the number of the client that drew, and how many
/// draws that client had made before.
#[derive(Clone, Copy, Debug, PartialEq, Eq)]
pub struct Draw {
    pub key: NigoriKey,
    pub client: u32,
    pub number: u64,
}

/// What a client sends of an edit: the value, the edit's number, and where it is sealed the name of the key
/// that seals it and the draw that it is sealed with.
#[derive(Debug, Drop)]
pub struct Content {
    pub value: Value,
    pub number: u64,
    pub lock: Option<Octets>,
    pub draw: Option<Draw>,
}

/// The version up to which a client has seen a type's writes, or has them all with a reply.
#[derive(Clone, Copy, Debug, PartialEq, Eq)]
pub struct Marker {
    pub kind: Kind,
    pub mark: u64,
}

/// What a client asks of the server.
#[derive(Debug, Drop)]
pub enum Call<C> {
    /// To store these entities.
    Commit(List<Entry<C>>),
    /// To give the last writes of these types above their marks.
    Updates(List<Marker>),
}

/// A request, with the birthday of the store that the client knows, if it knows one.
#[derive(Debug, Drop)]
pub struct Request<C> {
    pub birthday: Option<Octets>,
    pub call: Call<C>,
}

/// What the server answers to one entry of a commit.
#[derive(Clone, Copy, Debug, PartialEq, Eq)]
pub enum Answer {
    /// It is stored as the write of this version.
    Success(u64),
    /// Its key has another version.
    Conflict,
    /// It is no entity that may be stored.
    Invalid,
    /// The server has no room for it.
    OverQuota,
}

/// The last writes that a client asked for, how many more there are, and the marks of the types asked for.
#[derive(Debug, Drop)]
pub struct Updates<C> {
    pub entries: List<Entry<C>>,
    pub remaining: u64,
    pub marks: List<Marker>,
}

/// What the server says to a request.
#[derive(Debug, Drop)]
pub enum Verdict<C> {
    /// An answer to each entry of the commit.
    Committed(List<Answer>),
    Updated(Updates<C>),
    /// The request was refused with this code.
    Refused(u32),
}

/// A reply, with the birthday of the server's store.
#[derive(Debug, Drop)]
pub struct Reply<C> {
    pub birthday: Option<Octets>,
    pub verdict: Verdict<C>,
}

/// What a side has to send of one key: the version that it knows, its own value, and the number of the key's
/// last edit.
#[derive(Debug, Drop)]
pub struct Offer {
    pub hash: TagHash,
    pub known: u64,
    pub value: Value,
    pub number: u64,
}

/// A write of a key that is new to a client, with the name of the key that seals it.
#[derive(Debug, Drop)]
pub struct Update {
    pub hash: TagHash,
    pub version: u64,
    pub value: Value,
    pub lock: Option<Octets>,
}

/// The server's word that an edit of a key is stored, as the write of this version.
#[derive(Debug, Drop)]
pub struct Ack {
    pub hash: TagHash,
    pub version: u64,
    pub value: Value,
    pub number: u64,
    pub lock: Option<Octets>,
}

/// The updates of one type in a reply, and the mark up to which they are all.
#[derive(Debug, Drop)]
pub struct Batch {
    pub updates: List<Update>,
    pub mark: u64,
}

/// What a reply says of one type, and a type's processor then finds in its mailbox.
#[derive(Debug, Drop)]
pub enum Task {
    Batch(Batch),
    Acks(List<Ack>),
}
