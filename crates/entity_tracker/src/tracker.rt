//! The tracker of one key.
ghost use Rattle.std.specs.Prelude.{◌≡◌, ◌<◌, ◌≤◌, IsTrue, is_some, IfSome, IfNone, IfOk, OnOk, OnErr};
ghost use Rattle.std.specs.Option.{option_copied};
ghost use Rattle.sync_model.specs.KeyStates.{new_state, edited, noted, is_echo, accepted, rebased, acknowledged, is_locked_by, needs_seal};
ghost use Rattle.sync_model.specs.Offers.{offer_for};
ghost use Rattle.entity_tracker.specs.Acked.{acked_as, acked_after};
ghost use Rattle.entity_tracker.specs.Offers.{IsOfferedBy};
ghost use Rattle.entity_tracker.specs.Trackers.{due_above};

use crate::offered::{add_offered, copied_offered, is_earlier_offer, is_offered};
use client_tags::TagHash;
use std::alloc::Global;
use std::marker::Model;
use sync_model::{Ack, Offer, Offered, Update};
use sync_values::Value;
use wire_fields::{NoMemory, Octets};

/// What a client knows of one key. Its edits are counted: what the server lacks are those above the last one
/// that was acknowledged. It keeps which of its values were offered under the version that it knows, so that it
/// knows them again where they come back.
#[derive(Debug, Drop)]
pub struct Tracker {
    alloc: Global,
    hash: TagHash,
    known: u64,
    base: Value,
    own: Value,
    sequence: u64,
    acked: u64,
    lock: Option<Octets>,
    offered: Vec<Offered>,
}

impl Model for Tracker {
    ghost use Rattle.entity_tracker.specs.Tracked.{Tracked};

    ghost Value = { Tracked };

    ghost use Rattle.entity_tracker.specs.Trackers.{tracked, IsTracker};

    ghost view = { tracked };

    ghost invariant = { IsTracker };
}

/// What came of an acknowledgement.
#[derive(Clone, Copy, Debug, PartialEq, Eq)]
pub enum Acked {
    /// This version was known, which is not below that of the acknowledgement. Nothing changed.
    Old { known: u64 },
    /// Its version is known now.
    Applied,
}

impl Tracker {
    /// A key of which nothing is known.
    pub fn fresh(alloc: Global, hash: TagHash) -> Tracker
        ensures { result ≡ record { hash = hash; state = new_state; acked = 0 } }
    {
        Tracker {
            alloc,
            hash,
            known: 0,
            base: Value::Absent,
            own: Value::Absent,
            sequence: 0,
            acked: 0,
            lock: None,
            offered: Vec::new(alloc),
        }
    }

    /// The hash of the key's tag.
    pub fn hash(&self) -> TagHash
        ensures { result ≡ self.now.hash }
    {
        self.hash
    }

    /// The version of the server's that the client knows, 0 for none.
    pub fn known(&self) -> u64
        ensures { result ≡ self.now.state.known }
    {
        self.known
    }

    /// The value of that version.
    pub fn base(&self) -> &Value
        ensures { result.now ≡ self.now.state.base }
    {
        &self.base
    }

    /// The client's own value.
    pub fn own(&self) -> &Value
        ensures { result.now ≡ self.now.state.own }
    {
        &self.own
    }

    /// The number of the last edit, 0 for none.
    pub fn sequence(&self) -> u64
        ensures { result ≡ self.now.state.last_edit }
    {
        self.sequence
    }

    /// The number of the last edit that was acknowledged or settled, 0 for none.
    pub fn acked(&self) -> u64
        ensures acked { result ≡ self.now.acked }
        ensures due { self.now.state.due ≡ due_above result self.now.state.last_edit }
        ensures made { result ≤ self.now.state.last_edit }
    {
        self.acked
    }

    /// What was offered since the known version became known, by ascending number.
    pub fn offered(&self) -> &[Offered]
        ensures offered { result.now ≡ self.now.state.offered }
        ensures of_edits { IsOfferedBy self.now.state.last_edit result.now }
    {
        &self.offered
    }

    /// The name of the key that seals what the server has.
    pub fn lock(&self) -> Option<&Octets>
        ensures { option_copied result ≡ self.now.state.lock }
    {
        self.lock.as_ref()
    }

    /// The number of the edit that the server lacks, which is the last one. Where it lacks none, the own value is
    /// what the server has.
    pub fn due(&self) -> Option<u64>
        ensures due { result ≡ self.now.state.due }
        ensures last { IfSome result (λ number. number ≡ self.now.state.last_edit) }
        ensures in_sync { IfNone result (self.now.state.own ≡ self.now.state.base) }
    {
        if self.is_due() {
            Some(self.sequence)
        } else {
            None
        }
    }

    /// The server lacks the last edit.
    pub fn is_due(&self) -> bool
        ensures { result ≡ is_some self.now.state.due }
    {
        self.sequence > self.acked
    }

    /// Sets the own value by an edit of this number, which is due from then on.
    pub fn local_change(&mut self, value: Value, number: u64)
        requires { self.old.state.last_edit < number }
        ensures { self.new ≡ record self.old { state = edited self.old.state value number } }
    {
        self.own = value;
        self.sequence = number;
    }

    /// Keeps that the own value was offered by the last edit. Where eight values are kept, that of the least number
    /// goes. It takes time in the value's length.
    #[tactic(auto, unfolding(sync_model::specs::KeyStates::noted))]
    pub fn note_offered(&mut self) -> Result<(), NoMemory>
        ensures ok { OnOk result (self.new
            ≡ record self.old { state = noted self.old.state self.old.state.last_edit self.old.state.own }) }
        ensures err { OnErr result (self.new ≡ self.old) }
    {
        if is_offered(&self.offered, self.sequence) {
            return Ok(());
        }
        let value = self.own.copy()?;
        let number = self.sequence;
        add_offered(&mut self.offered, Offered { number, value })
    }

    /// A value that comes from the server is one that was offered by an edit before the due one.
    #[tactic(auto, unfolding(sync_model::specs::KeyStates::is_echo))]
    pub fn is_echo(&self, remote: &Value) -> bool
        ensures { result ≡ is_echo self.now.state remote.now }
    {
        self.is_due() && is_earlier_offer(&self.offered, self.sequence, remote)
    }

    /// Takes an update as what is known and as the own value. Nothing is due then.
    pub fn accept_remote(&mut self, remote: Update, own: Value)
        requires newer { self.old.state.known < remote.version }
        requires own { own ≡ remote.value }
        ensures { self.new
            ≡ record self.old { state = accepted self.old.state remote; acked = self.old.state.last_edit } }
    {
        self.known = remote.version;
        self.base = remote.value;
        self.lock = remote.lock;
        self.own = own;
        self.acked = self.sequence;
        self.offered = Vec::new(self.alloc);
    }

    /// Takes an update as what is known, and keeps the own value, which stays due.
    pub fn keep_local(&mut self, update: Update)
        requires newer { self.old.state.known < update.version }
        requires due { IsTrue (is_some self.old.state.due) }
        ensures { self.new ≡ record self.old { state = rebased self.old.state update self.old.state.own } }
    {
        self.known = update.version;
        self.base = update.value;
        self.lock = update.lock;
        self.offered = Vec::new(self.alloc);
    }

    /// Takes an update as what is known, and this value, which was merged of both, as the own one. It is due.
    pub fn accept_merged(&mut self, update: Update, own: Value)
        requires newer { self.old.state.known < update.version }
        requires due { IsTrue (is_some self.old.state.due) }
        ensures { self.new ≡ record self.old { state = rebased self.old.state update own } }
    {
        self.keep_local(update);
        self.own = own;
    }

    /// Takes the server's word that an edit is stored. A later edit stays due.
    #[tactic(auto, unfolding(sync_model::specs::KeyStates::acknowledged))]
    pub fn acknowledge(&mut self, ack: Ack, own: Value) -> Acked
        requires own { own ≡ ack.value }
        requires made { ack.number ≤ self.old.state.last_edit }
        ensures state { self.new
            ≡ record self.old { state = acknowledged self.old.state ack; acked = acked_after self.old ack } }
        ensures answer { result ≡ acked_as self.old.state ack }
    {
        if ack.version <= self.known {
            return Acked::Old { known: self.known };
        }
        let acked = self.acked.max(ack.number);
        let write = Update {
            hash: ack.hash,
            version: ack.version,
            value: ack.value,
            lock: ack.lock,
        };
        if acked == self.sequence {
            self.accept_remote(write, own);
            return Acked::Applied;
        }
        self.acked = acked;
        self.keep_local(write);
        Acked::Applied
    }

    /// The value is to be sealed anew: the server has it, but not under the key of the name that is wanted.
    pub fn needs_seal(&self, wanted: Option<&Octets>) -> bool
        ensures { result ≡ needs_seal (option_copied wanted.entry) self.now.state }
    {
        let Some(name) = wanted else {
            return false;
        };
        !self.is_due()
            && self.known > 0
            && !matches!(self.own, Value::Absent)
            && !is_locked_by(&self.lock, name)
    }

    /// A second tracker of the same key, in time linear in its values.
    pub fn copy(&self) -> Result<Tracker, NoMemory>
        ensures { IfOk result (λ copy. copy ≡ self.now) }
    {
        Ok(Tracker {
            alloc: self.alloc,
            hash: self.hash,
            known: self.known,
            base: self.base.copy()?,
            own: self.own.copy()?,
            sequence: self.sequence,
            acked: self.acked,
            lock: copied(&self.lock)?,
            offered: copied_offered(self.alloc, &self.offered)?,
        })
    }

    /// What is to be sent of the key, in time linear in its value.
    pub fn offer(&self) -> Result<Offer, NoMemory>
        ensures { IfOk result (λ offer. offer ≡ offer_for self.now.hash self.now.state self.now.state.last_edit) }
    {
        Ok(Offer {
            hash: self.hash,
            known: self.known,
            value: self.own.copy()?,
            number: self.sequence,
        })
    }
}

fn copied(lock: &Option<Octets>) -> Result<Option<Octets>, NoMemory>
    ensures { IfOk result (λ copy. copy ≡ lock.now) }
{
    match lock {
        Some(name) => Ok(Some(name.copy()?)),
        None => Ok(None),
    }
}

fn is_locked_by(lock: &Option<Octets>, name: &Octets) -> bool
    ensures { result ≡ is_locked_by lock.now name.now }
{
    match lock {
        Some(lock) => lock.as_slice() == name.as_slice(),
        None => false,
    }
}
