//! The trackers of a type by the hashes of their keys.
ghost use Rattle.std.specs.Prelude.{◌≡◌, ◌∷◌, [], false, length, IsSome, IsTrue, IfOk, OnOk, OnErr, MatchOption};
ghost use Rattle.std.specs.BTreeMap.{is_at};
ghost use Rattle.std.specs.Cmp.Lexicographic.{slice_cmp};
ghost use Rattle.std.specs.Map.{remove_entry};
ghost use Rattle.std.specs.Ordering.{nat_cmp};
ghost use Rattle.std.specs.Option.{option_copied, option_map};
ghost use Rattle.sync_model.specs.Sides.{has_state, state_at, with_state};
ghost use Rattle.type_processor.specs.Keyed.{hashes_of, key_of, key_at, HaveOwnHashes};

use client_tags::TagHash;
use entity_tracker::Tracker;
use std::alloc::Global;
use std::collections::{BTreeMap, btree_map};
use std::marker::Model;
use wire_fields::NoMemory;

/// Trackers, which contracts see as the states of their keys by ascending hash.
#[derive(Drop)]
pub(crate) struct Trackers {
    map: BTreeMap<TagHash, Tracker>,
}

impl Model for Trackers {
    ghost use Rattle.sync_model.specs.Sides.{States};

    ghost Value = { States };

    ghost use Rattle.type_processor.specs.Keyed.{states_of, AreKeyed};

    ghost view = { λ trackers. states_of trackers.map.entries };

    ghost invariant = { λ trackers. AreKeyed trackers.map.entries };
}

/// Goes over trackers by ascending hash. Contracts see it as the states of the keys that are left.
#[derive(Drop)]
pub struct TrackersIter<'a> {
    entries: btree_map::Iter<'a, TagHash, Tracker>,
}

impl<'a> Model for TrackersIter<'a> {
    ghost use Rattle.sync_model.specs.Sides.{States};

    ghost Value = { States };

    ghost use Rattle.type_processor.specs.Keyed.{states_of, AreKeyed};

    ghost view = { λ iter. states_of iter.entries };

    ghost invariant = { λ iter. AreKeyed iter.entries };
}

impl<'a> TrackersIter<'a> {
    /// The tracker of the next key, or `None` where there is none. It takes constant time over a whole walk.
    pub fn next(&mut self) -> Option<&'a Tracker>
        ensures { MatchOption result
            (self.old ≡ [])
            (λ tracker. self.old ≡ (tracker.now.hash, tracker.now.state) ∷ self.new) }
    {
        match self.entries.next() {
            Some((_, tracker)) => Some(tracker),
            None => None,
        }
    }
}

impl Trackers {
    /// No trackers. It takes no memory.
    pub(crate) fn new(alloc: Global) -> Trackers
        ensures { result ≡ [] }
    {
        Trackers {
            map: BTreeMap::new(alloc),
        }
    }

    pub(crate) fn len(&self) -> usize
        ensures { result ≡ length self.now }
    {
        self.map.len()
    }

    pub(crate) fn contains(&self, hash: &TagHash) -> bool
        ensures { result ≡ has_state self.now hash.now }
    {
        self.map.contains_key(hash)
    }

    pub(crate) fn get(&self, hash: &TagHash) -> Option<&Tracker>
        ensures { option_map key_of (option_copied result) ≡ key_at self.now hash.now }
    {
        self.map.get(hash)
    }

    pub(crate) fn iter(&self) -> TrackersIter<'_>
        ensures { result ≡ self.now }
    {
        TrackersIter {
            entries: self.map.iter(),
        }
    }

    /// No two keys have one hash.
    pub(crate) fn have_own_hashes(&self)
        ensures { HaveOwnHashes self.now }
    {
        // Of each entry that a map goes over it is known that its key is found.
        let _entries = self.map.iter();
    }

    /// A copy of a key's tracker, or a fresh one where there is none.
    pub(crate) fn current(&self, alloc: Global, hash: &TagHash) -> Result<Tracker, NoMemory>
        ensures { IfOk result (λ tracker. key_of tracker ≡ (hash.now, state_at self.now hash.now)) }
    {
        match self.get(hash) {
            Some(tracker) => tracker.copy(),
            None => Ok(Tracker::fresh(alloc, *hash)),
        }
    }

    /// Puts a tracker in the place of its key's, and gives that one back, if there was one.
    pub(crate) fn put(&mut self, tracker: Tracker) -> Result<Option<Tracker>, NoMemory>
        ensures ok { OnOk result (self.new ≡ with_state self.old tracker.hash tracker.state) }
        ensures before { IfOk result (λ before. option_map key_of before ≡ key_at self.old tracker.hash) }
        ensures kept { IfOk result (λ before. IsSome before → hashes_of self.new ≡ hashes_of self.old) }
        ensures absent { OnErr result (has_state self.old tracker.hash ≡ false) }
        ensures err { OnErr result (self.new ≡ self.old) }
    {
        Ok(self.map.insert(tracker.hash(), tracker)?)
    }

    /// Takes a key's tracker out.
    pub(crate) fn remove(&mut self, hash: &TagHash)
        ensures { self.new ≡ remove_entry (is_at (slice_cmp nat_cmp hash.now)) self.old }
    {
        let removed = self.map.remove(hash);
        discard(removed);
    }

    /// Puts a tracker in the place of one that is there, which takes no memory.
    pub(crate) fn put_back(&mut self, tracker: Tracker)
        ensures { IsTrue (has_state self.old tracker.hash) → self.new ≡ with_state self.old tracker.hash tracker.state }
    {
        match self.put(tracker) {
            Ok(replaced) => discard(replaced),
            Err(_) => {}
        }
    }
}

/// Lets go of a tracker.
pub(crate) fn discard(_tracker: Option<Tracker>) {}
