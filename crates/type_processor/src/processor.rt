//! What a client has of one type, and its calls.
ghost use Rattle.std.specs.Prelude.{◌≡◌, ◌<◌, ◌+◌, ◌∷◌, ◌++◌, [], None, false, length, map, OnOk, OnErr, IfOk, IfErr};
ghost use Rattle.std.specs.List.{AllByRecursion};
ghost use Rattle.std.specs.Option.{option_copied, option_map};
ghost use Rattle.sync_model.specs.declared.state.KeyState.{KeyState as KeyStateOf};
ghost use Rattle.sync_model.specs.Changes.{own_at};
ghost use Rattle.sync_model.specs.Edits.{edit_kind, edit_value, edit_length};
ghost use Rattle.sync_model.specs.Offers.{offers_of, reseal_count};
ghost use Rattle.sync_model.specs.Sides.{due_count, is_full, side_edited, side_offered, state_at};
ghost use Rattle.type_processor.specs.Edits.{edit_hash as hash_of_edit, refusal_of, edited_by, edit_told, told_length, IsRefusalAt, IsFaultAt};
ghost use Rattle.type_processor.specs.Fits.{IsTaskOf, IsOfferOf};
ghost use Rattle.type_processor.specs.Keyed.{found_at, key_of, key_at};
ghost use Rattle.type_processor.specs.Processed.{side_of, with_side};
ghost use Rattle.type_processor.specs.Turns.{turned, turn_told};

use crate::answers::{EditFault, Edited, Turn};
use crate::counts::{copied_trackers, due_count, reseal_count};
use crate::edits::{edit_hash, edit_length, edit_value};
use crate::notes::note_offers;
use crate::offers::first_offers;
use crate::tasks::{apply_task, discard_task, raised_mark};
use crate::trackers::{Trackers, TrackersIter, discard};
use client_tags::TagHash;
use conflict_rules::TypeRules;
use entity_tracker::Tracker;
use std::alloc::Global;
use std::collections::VecDeque;
use std::marker::Model;
use sync_model::{Edit, Kind, Offer, Task, Value};
use wire_fields::{List, NoMemory, Octets};

/// How many bytes the texts of an edit may have.
const MAX_TEXT: u64 = 16_384;

/// How many keys a type has room for.
const MAX_STATES: usize = 100_000;

/// What a client has of one type: its trackers, the version up to which it has all writes, the number of the last
/// edit, and the tasks that wait for a turn.
#[derive(Drop)]
pub struct Processor<R> {
    alloc: Global,
    kind: Kind,
    rules: R,
    trackers: Trackers,
    mark: u64,
    last_edit: u64,
    pub(crate) mailbox: VecDeque<Task>,
}

impl<R> Model for Processor<R> {
    ghost use Rattle.type_processor.specs.Processed.{Processed};

    ghost Value = { Processed R };

    ghost use Rattle.type_processor.specs.Processors.{processed, IsProcessor};

    ghost view = { processed };

    ghost invariant = { IsProcessor };
}

impl<R: TypeRules> Processor<R> {
    /// Nothing of a type, whose conflicts these rules settle. It takes no memory.
    pub fn new(alloc: Global, kind: Kind, rules: R) -> Processor<R>
        ensures { result ≡ record { kind = kind; rules = rules; mark = 0; states = []; last_edit = 0; mailbox = [] } }
    {
        Processor {
            alloc,
            kind,
            rules,
            trackers: Trackers::new(alloc),
            mark: 0,
            last_edit: 0,
            mailbox: VecDeque::new(alloc),
        }
    }

    /// The type.
    pub fn kind(&self) -> Kind
        ensures { result ≡ self.now.kind }
    {
        self.kind
    }

    // There is no room for an edit of this key.
    fn is_full(&self, hash: &TagHash) -> bool
        ensures { result ≡ is_full (side_of self.now) hash.now }
    {
        (self.trackers.len() >= MAX_STATES && !self.trackers.contains(hash))
            || self.last_edit == u64::MAX
    }

    // How many bytes an edit of this key has, with the unknown fields of the value that it makes.
    fn length_at(&self, hash: &TagHash, edit: &Edit) -> u64
        ensures { result ≡ told_length (edit_length (own_at (side_of self.now) hash.now) edit.now) }
    {
        match self.trackers.get(hash) {
            Some(tracker) => edit_length(tracker.own(), edit),
            None => edit_length(&Value::Absent, edit),
        }
    }

    // The hash of an edit's key, if the edit may be taken.
    fn room_for(&self, edit: &Edit) -> Result<TagHash, EditFault>
        ensures hash { IfOk result (λ hash. hash ≡ hash_of_edit edit.now) }
        ensures may { OnOk result (refusal_of self.now edit.now ≡ None) }
        ensures refused { IfErr result (IsRefusalAt self.now edit.now) }
    {
        let hash = edit_hash(edit);
        let len = self.length_at(&hash, edit);
        if len > MAX_TEXT {
            return Err(EditFault::TooLong { len });
        }
        if self.is_full(&hash) {
            let count = self.trackers.len() as u64;
            return Err(EditFault::Full { count });
        }
        Ok(hash)
    }

    // Takes an edit of a key for which there is room.
    fn take(&mut self, hash: &TagHash, edit: Edit) -> Result<Edited, NoMemory>
        requires kind { edit_kind edit ≡ self.old.kind }
        requires room { is_full (side_of self.old) hash.now ≡ false }
        ensures ok { OnOk result (self.new ≡ with_side self.old (side_edited (side_of self.old) hash.now
            (edit_value (own_at (side_of self.old) hash.now) edit))) }
        ensures told { IfOk result (λ edited. edited ≡ record {
          number = self.old.last_edit + 1;
          followed = (state_at self.old.states hash.now).due;
        }) }
        ensures err { OnErr result (self.new ≡ self.old) }
    {
        let number = self.last_edit + 1;
        let mut tracker = self.trackers.current(self.alloc, hash)?;
        let value = edit_value(self.alloc, tracker.own(), edit)?;
        let followed = tracker.due();
        tracker.local_change(value, number);
        let before = self.trackers.put(tracker)?;
        discard(before);
        self.last_edit = number;
        Ok(Edited { number, followed })
    }

    /// Takes an edit of its user: the key's own value is what the edit makes of the one before, and is due. It takes
    /// time in the length of the edit's texts and of the key's values, and the logarithm of the number of keys.
    ///
    /// It refuses texts that are too long, and then a new key where no more are held; both whether or not there is
    /// memory.
    pub fn edit(&mut self, edit: Edit) -> Result<Edited, EditFault>
        requires { edit_kind edit ≡ self.old.kind }
        ensures taken { OnOk result (refusal_of self.old edit ≡ None) }
        ensures ok { OnOk result (self.new ≡ edited_by self.old edit) }
        ensures told { IfOk result (λ edited. edited ≡ edit_told self.old edit) }
        ensures fault { IfErr result (IsFaultAt self.old edit) }
        ensures err { OnErr result (self.new ≡ self.old) }
    {
        let hash = self.room_for(&edit)?;
        match self.take(&hash, edit) {
            Ok(edited) => Ok(edited),
            Err(NoMemory) => Err(EditFault::NoMemory),
        }
    }

    /// Tells whether `edit` would refuse this edit now for its texts' length or for want of room. It takes no memory, and
    /// time in the length of the edit's texts and the logarithm of the number of keys.
    pub fn may_edit(&self, edit: &Edit) -> Result<(), EditFault>
        requires { edit_kind edit.now ≡ self.now.kind }
        ensures may { OnOk result (refusal_of self.now edit.now ≡ None) }
        ensures refused { IfErr result (IsRefusalAt self.now edit.now) }
    {
        self.room_for(edit)?;
        Ok(())
    }

    /// The first of what is to be sent, at most so many: what is due by ascending number of the edits, and then what
    /// is to be sealed anew under the key of the name that is wanted, by ascending known version; ties by ascending
    /// hash. It looks at each tracker twice, sorts what is to be sent, and copies the values of the offers that it
    /// gives alone. Each key keeps that its value was offered, all of them or none.
    pub fn offers(&mut self, wanted: Option<&Octets>, max: usize) -> Result<List<Offer>, NoMemory>
        ensures offers { IfOk result (λ offers. offers ≡ offers_of (option_copied wanted.entry) max self.old.states) }
        ensures fit { IfOk result (AllByRecursion (IsOfferOf self.old.kind)) }
        ensures noted { IfOk result (λ offers. self.new ≡ with_side self.old (side_offered (side_of self.old) offers)) }
        ensures err { OnErr result (self.new ≡ self.old) }
    {
        let offers = first_offers(self.alloc, &self.trackers, wanted, max)?;
        self.trackers.have_own_hashes();
        note_offers(self.alloc, &mut self.trackers, offers.as_slice())?;
        Ok(offers)
    }

    /// Puts a task to the end of those that wait for a turn.
    pub fn post(&mut self, task: Task) -> Result<(), NoMemory>
        requires { IsTaskOf self.old.kind task }
        ensures ok { OnOk result (self.new ≡ record self.old { mailbox = self.old.mailbox ++ task ∷ [] }) }
        ensures err { OnErr result (self.new ≡ self.old) }
    {
        self.mailbox.push_back(task)?;
        Ok(())
    }

    /// Applies the first task that waits, if there is one, whole or not at all; where none waits it takes no memory. It
    /// takes time in what the task holds, and the logarithm of the number of keys for each of the task's.
    pub fn turn(&mut self) -> Result<Turn, NoMemory>
        ensures ok { OnOk result (self.new ≡ turned (R.decided self.old.rules) self.old) }
        ensures told { IfOk result (λ turn. turn ≡ turn_told (R.decided self.old.rules) self.old) }
        ensures err { OnErr result (self.new ≡ self.old) }
        ensures idle { OnErr result (0 < length self.old.mailbox) }
    {
        let Some(task) = self.mailbox.get(0) else {
            return Ok(Turn::Idle);
        };
        let notes = apply_task(self.alloc, &self.rules, &mut self.trackers, task)?;
        self.mark = raised_mark(self.mark, task);
        discard_task(self.mailbox.pop_front());
        Ok(Turn::Turned(List::from_vec(notes)))
    }

    /// A copy of a key's own value, if anything is known of the key.
    pub fn value(&self, hash: &TagHash) -> Result<Option<Value>, NoMemory>
        ensures { IfOk result (λ value. value ≡ option_map (λ (state : KeyStateOf). state.own) (found_at self.now.states hash.now)) }
    {
        match self.trackers.get(hash) {
            Some(tracker) => Ok(Some(tracker.own().copy()?)),
            None => Ok(None),
        }
    }

    /// The version up to which all writes of the type are applied.
    pub fn mark(&self) -> u64
        ensures { result ≡ self.now.mark }
    {
        self.mark
    }

    /// The number of the last edit, 0 for none.
    pub fn last_edit(&self) -> u64
        ensures { result ≡ self.now.last_edit }
    {
        self.last_edit
    }

    /// Copies of the trackers by ascending hash, in time linear in all that they hold.
    pub fn list(&self) -> Result<List<Tracker>, NoMemory>
        ensures { IfOk result (λ list. map key_of list ≡ self.now.states) }
    {
        copied_trackers(self.alloc, &self.trackers)
    }

    /// The trackers by ascending hash, without copies.
    pub fn trackers(&self) -> TrackersIter<'_>
        ensures { result ≡ self.now.states }
    {
        self.trackers.iter()
    }

    /// What is known of a key, if anything is, without a copy.
    pub fn tracker(&self, hash: &TagHash) -> Option<&Tracker>
        ensures { option_map key_of (option_copied result) ≡ key_at self.now.states hash.now }
    {
        self.trackers.get(hash)
    }

    /// How many keys have an edit that the server lacks. It looks at each.
    pub fn due_count(&self) -> u64
        ensures { result ≡ due_count self.now.states }
    {
        due_count(&self.trackers) as u64
    }

    /// How many keys are to be sealed anew under the key of the name that is wanted. It looks at each.
    pub fn reseal_count(&self, wanted: Option<&Octets>) -> u64
        ensures { result ≡ reseal_count (option_copied wanted.entry) self.now.states }
    {
        reseal_count(&self.trackers, wanted) as u64
    }

    /// How many tasks wait for a turn.
    pub fn mailbox_len(&self) -> u64
        ensures { result ≡ length self.now.mailbox }
    {
        self.mailbox.len() as u64
    }
}
