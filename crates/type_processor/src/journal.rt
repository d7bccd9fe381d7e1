//! What a turn did so far, so that it can be taken back where memory is wanting.
ghost use Rattle.std.specs.Prelude.{◌≡◌, ◌<◌, ◌∷◌, IsTrue, OnOk, OnErr};
ghost use Rattle.std.specs.VecDeque.{deque_len, deque_capacity};
ghost use Rattle.sync_model.specs.Sides.{States, has_state, with_state};
ghost use Rattle.type_processor.specs.Keyed.{hashes_of};
ghost use Rattle.type_processor.specs.Journals.{IsChange, LeadsBack};

use crate::trackers::{Trackers, discard};
use client_tags::TagHash;
use entity_tracker::Tracker;
use std::collections::VecDeque;
use wire_fields::NoMemory;

/// A key that a turn has changed, and its tracker before, if it had one.
#[derive(Drop)]
pub(crate) struct Change {
    pub(crate) hash: TagHash,
    pub(crate) before: Option<Tracker>,
}

// Takes back the last change.
fn take_back(trackers: &mut Trackers, change: Change)
    ensures { (before : States) → IsChange change before trackers.old → trackers.new ≡ before }
{
    let Change { hash, before } = change;
    match before {
        None => trackers.remove(&hash),
        Some(tracker) => trackers.put_back(tracker),
    }
}

/// Takes back the changes of a turn, of which the last one comes first.
pub(crate) fn take_all_back(trackers: &mut Trackers, mut changes: VecDeque<Change>)
    ensures { (first : States) → LeadsBack changes.items first trackers.old → trackers.new ≡ first }
{
    'changes: while let Some(change) = changes.pop_front() {
        take_back(trackers, change);
    }
}

// Notes a change, for which there is room.
fn note_change(changes: &mut VecDeque<Change>, change: Change)
    requires { deque_len changes.old < deque_capacity changes.old }
    ensures { changes.new.items ≡ change ∷ changes.old.items }
{
    let Ok(()) = changes.push_front(change) else {
        return;
    };
}

/// Puts a changed tracker in its place, and a note of it to the turn's change log.
pub(crate) fn put_changed(
    trackers: &mut Trackers,
    changes: &mut VecDeque<Change>,
    tracker: Tracker,
) -> Result<(), NoMemory>
    ensures ok { OnOk result (trackers.new ≡ with_state trackers.old tracker.hash tracker.state) }
    ensures leads { (first : States) → LeadsBack changes.old.items first trackers.old
        → LeadsBack changes.new.items first trackers.new }
    ensures kept { OnOk result (IsTrue (has_state trackers.old tracker.hash)
        → hashes_of trackers.new ≡ hashes_of trackers.old) }
    ensures err { OnErr result (trackers.new ≡ trackers.old) }
{
    changes.reserve(1)?;
    let hash = tracker.hash();
    let before = trackers.put(tracker)?;
    note_change(changes, Change { hash, before });
    Ok(())
}
