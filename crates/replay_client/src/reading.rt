//! What a report shows of a client, without copies.
ghost use Rattle.std.specs.Prelude.{◌≡◌, length, is_some};
ghost use Rattle.run_setting.specs.Hashed.{hashed};
ghost use Rattle.sync_model.specs.Clients.{side_of, wanted_name};
ghost use Rattle.sync_model.specs.Offers.{reseal_count};
ghost use Rattle.sync_model.specs.Report.{is_client_caught_up};
ghost use Rattle.sync_model.specs.Sides.{due_count, pending_count, is_caught_up};

use crate::client::Client;
use client_tags::Kind;
use type_processor::TrackersIter;

impl Client {
    /// The version up to which a type has all writes.
    pub fn mark(&self, kind: Kind) -> u64
        ensures { result ≡ (side_of self.now kind).mark }
    {
        match kind {
            Kind::Nigori => self.nigori.processor.mark(),
            Kind::Preference => self.preference.processor.mark(),
            Kind::Password => self.password.processor.mark(),
        }
    }

    /// How many keys of a type have an edit that the server lacks. It looks at each key.
    pub fn due_count(&self, kind: Kind) -> u64
        ensures { result ≡ due_count (side_of self.now kind).states }
    {
        match kind {
            Kind::Nigori => self.nigori.processor.due_count(),
            Kind::Preference => self.preference.processor.due_count(),
            Kind::Password => self.password.processor.due_count(),
        }
    }

    /// How many keys of a type are to be sealed anew: none, as long as nothing is sealed.
    pub fn reseal_count(&self, kind: Kind) -> u64
        ensures { result ≡ reseal_count (wanted_name hashed self.now kind) (side_of self.now kind).states }
    {
        match kind {
            Kind::Nigori => self.nigori.processor.reseal_count(None),
            Kind::Preference => self.preference.processor.reseal_count(None),
            Kind::Password => self.password.processor.reseal_count(None),
        }
    }

    /// How many updates of a type wait for a key: none, as long as nothing is sealed.
    pub fn pending_count(&self, kind: Kind) -> u64
        ensures { result ≡ pending_count (side_of self.now kind).pending }
    {
        let _alloc = &self.alloc;
        0
    }

    // A batch of a type waits for a key: none does, as long as nothing is sealed.
    fn has_pending(&self, kind: Kind) -> bool
        ensures { result ≡ is_some (side_of self.now kind).pending }
    {
        let _alloc = &self.alloc;
        false
    }

    /// How many tasks of a type wait for a turn.
    pub fn mailbox_len(&self, kind: Kind) -> u64
        ensures { result ≡ length (side_of self.now kind).mailbox }
    {
        match kind {
            Kind::Nigori => self.nigori.processor.mailbox_len(),
            Kind::Preference => self.preference.processor.mailbox_len(),
            Kind::Password => self.password.processor.mailbox_len(),
        }
    }

    /// What is known of a type's keys, by ascending hash.
    pub fn states(&self, kind: Kind) -> TrackersIter<'_>
        ensures { result ≡ (side_of self.now kind).states }
    {
        match kind {
            Kind::Nigori => self.nigori.processor.trackers(),
            Kind::Preference => self.preference.processor.trackers(),
            Kind::Password => self.password.processor.trackers(),
        }
    }

    /// A type has all that a server of this version has, and nothing waits. It looks at each key.
    pub fn is_side_caught_up(&self, kind: Kind, version: u64) -> bool
        ensures { result ≡ is_caught_up version (side_of self.now kind) }
    {
        self.mark(kind) == version
            && self.mailbox_len(kind) == 0
            && !self.has_pending(kind)
            && self.due_count(kind) == 0
    }

    /// Each type has all that a server of this version has, and nothing waits. It looks at each key.
    pub fn is_caught_up(&self, version: u64) -> bool
        ensures { result ≡ is_client_caught_up version self.now }
    {
        self.is_side_caught_up(Kind::Nigori, version)
            && self.is_side_caught_up(Kind::Preference, version)
            && self.is_side_caught_up(Kind::Password, version)
    }
}
