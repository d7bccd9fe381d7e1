//! The messages between a client and a server.

use client_tags::{Kind, TagHash};
use progress_marker::Mark;
use sync_specifics::Specifics;
use wire_fields::{List, Octets};

/// An entity as a message carries it.
#[derive(Debug, Drop)]
pub struct Entity {
    /// The server's name of it; empty before the server knows it.
    pub id: Octets,
    /// The version on which a commit is based, or that the server gave it.
    pub version: i64,
    pub deleted: bool,
    pub specifics: Option<Specifics>,
    pub hash: Option<TagHash>,
}

/// What a client asks a server to store.
#[derive(Debug, Drop)]
pub struct Commit {
    /// The name of the client's cache.
    pub guid: Octets,
    pub entries: List<Entity>,
}

/// How far a client has come with a type.
#[derive(Clone, Copy, Debug, PartialEq, Eq)]
pub struct Marker {
    pub kind: Kind,
    pub mark: Mark,
}

/// What a client asks a server to tell: what is newer than these marks, each of its type.
#[derive(Debug, Drop)]
pub struct GetUpdates {
    pub marks: List<Marker>,
}

#[derive(Debug, Drop)]
pub enum Request {
    Commit(Commit),
    Updates(GetUpdates),
}

/// A message to a server.
#[derive(Debug, Drop)]
pub struct ToServer {
    /// The birthday of the server that the client knows, if it knows one.
    pub birthday: Option<Octets>,
    pub request: Request,
}

/// What came of an entry of a commit.
#[derive(Clone, Copy, Debug, PartialEq, Eq, Hash)]
pub enum Outcome {
    Success,
    Conflict,
    Retry,
    Invalid,
    OverQuota,
    Transient,
}

/// A server's answer to an entry of a commit.
#[derive(Debug, Drop)]
pub struct EntryAnswer {
    pub outcome: Outcome,
    pub id: Octets,
    pub version: i64,
}

/// What a server tells of what it has stored.
#[derive(Debug, Drop)]
pub struct Updates {
    pub entries: List<Entity>,
    /// How many entities are left to tell.
    pub remaining: u64,
    pub marks: List<Marker>,
}

#[derive(Debug, Drop)]
pub enum Reply {
    Committed(List<EntryAnswer>),
    Updates(Updates),
    /// The server does not handle the request, for the reason of this number, from 1 to 2,147,483,647.
    Refused(u32),
}

/// A message from a server.
#[derive(Debug, Drop)]
pub struct FromServer {
    pub birthday: Option<Octets>,
    pub reply: Reply,
}
