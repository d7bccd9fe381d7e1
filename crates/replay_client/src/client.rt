//! A client, and what its calls share.
ghost use Rattle.std.specs.Prelude.{◌≡◌, ◌||◌, is_some, IfOk};
ghost use Rattle.sync_model.specs.Clients.{new_client, side_of};
ghost use Rattle.sync_model.specs.Sending.{has_letter, is_busy};

use crate::side::Side;
use client_tags::Kind;
use conflict_rules::{NigoriRules, Passwords, Preferences};
use std::alloc::Global;
use std::marker::Model;
use sync_model::{Content, Entry};
use wire_fields::{NoMemory, Octets};

/// A client of a run. Contracts see it as the model's client.
#[derive(Drop)]
pub struct Client {
    pub(crate) alloc: Global,
    pub(crate) nigori: Side<NigoriRules>,
    pub(crate) preference: Side<Preferences>,
    pub(crate) password: Side<Passwords>,
    pub(crate) birthday: Option<Octets>,
    pub(crate) held: Vec<Entry<Content>>,
    pub(crate) outstanding: Option<u32>,
}

impl Model for Client {
    ghost use Rattle.sync_model.specs.Clients as clients;

    ghost Value = { clients.Client };

    ghost use Rattle.replay_client.specs.Clients.{client_of, IsPlainClient};

    ghost view = { client_of };

    ghost invariant = { IsPlainClient };
}

pub(crate) fn copied(text: &Option<Octets>) -> Result<Option<Octets>, NoMemory>
    ensures { IfOk result (λ copy. copy ≡ text.now) }
{
    match text {
        Some(text) => Ok(Some(text.copy()?)),
        None => Ok(None),
    }
}

impl Client {
    /// A client that nothing has happened to. It takes no memory.
    pub fn new(alloc: Global) -> Client
        ensures { result ≡ new_client }
    {
        Client {
            alloc,
            nigori: Side::new(alloc, Kind::Nigori, NigoriRules),
            preference: Side::new(alloc, Kind::Preference, Preferences),
            password: Side::new(alloc, Kind::Password, Passwords),
            birthday: None,
            held: Vec::new(alloc),
            outstanding: None,
        }
    }

    // What the last reply says of a type is not yet posted.
    pub(crate) fn has_letter_of(&self, kind: Kind) -> bool
        ensures { result ≡ is_some (side_of self.now kind).letter }
    {
        match kind {
            Kind::Nigori => self.nigori.letter.is_some(),
            Kind::Preference => self.preference.letter.is_some(),
            Kind::Password => self.password.letter.is_some(),
        }
    }

    // A request or its reply is under way.
    pub(crate) fn is_busy(&self) -> bool
        ensures { result ≡ is_busy self.now }
    {
        self.outstanding.is_some()
            || self.nigori.letter.is_some()
            || self.preference.letter.is_some()
            || self.password.letter.is_some()
    }
}
