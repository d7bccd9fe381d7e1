//! What acknowledgements make of the trackers.
ghost use Rattle.std.specs.Prelude.{◌≡◌, false, option_to_list, IfOk, OnOk, OnErr};
ghost use Rattle.sync_model.specs.KeyStates.{acknowledged, ended, is_ignored};
ghost use Rattle.sync_model.specs.Sides.{States, state_at, note_of, after_ack, after_acks, notes_of};
ghost use Rattle.type_processor.specs.Journals.{LeadsBack};
ghost use Rattle.type_processor.specs.Keyed.{key_of};

use crate::journal::{Change, put_changed, take_all_back};
use crate::trackers::Trackers;
use crate::updates::{copied_lock, push_note};
use entity_tracker::Tracker;
use std::alloc::Global;
use std::collections::VecDeque;
use sync_model::{Ack, Fate, Note, Value};
use wire_fields::NoMemory;

fn copied(ack: &Ack) -> Result<Ack, NoMemory>
    ensures { IfOk result (λ copy. copy ≡ ack.now) }
{
    Ok(Ack {
        hash: ack.hash,
        version: ack.version,
        value: ack.value.copy()?,
        number: ack.number,
        lock: copied_lock(&ack.lock)?,
    })
}

// An acknowledgement is old, or of an edit that was not made.
fn is_ignored(tracker: &Tracker, ack: &Ack) -> bool
    ensures { result ≡ is_ignored tracker.now.state ack.now }
{
    ack.version <= tracker.known() || ack.number > tracker.sequence()
}

// What an acknowledgement makes of a tracker, and the due edit that it ends, if it ends one.
#[tactic(auto, unfolding(sync_model::specs::KeyStates::acknowledged, sync_model::specs::KeyStates::ended))]
fn acknowledge(tracker: &mut Tracker, ack: Ack, own: Value) -> Option<u64>
    requires own { own ≡ ack.value }
    requires taken { is_ignored tracker.old.state ack ≡ false }
    ensures state { key_of tracker.new ≡ (tracker.old.hash, acknowledged tracker.old.state ack) }
    ensures ended { result ≡ ended tracker.old.state ack }
{
    let due = tracker.due();
    let _ = tracker.acknowledge(ack, own);
    if tracker.is_due() { None } else { due }
}

fn note_of(ended: Option<u64>, version: u64) -> Option<Note>
    ensures { option_to_list result ≡ note_of ended version }
{
    match ended {
        Some(number) => Some(Note {
            number,
            fate: Fate::Committed(version),
        }),
        None => None,
    }
}

// Applies an acknowledgement, and gives the note of the due edit that it ends, if it ends one.
fn apply_ack(
    alloc: Global,
    trackers: &mut Trackers,
    changes: &mut VecDeque<Change>,
    ack: &Ack,
) -> Result<Option<Note>, NoMemory>
    ensures states { OnOk result (trackers.new ≡ after_ack trackers.old ack.now) }
    ensures note { IfOk result (λ note. option_to_list note
        ≡ note_of (ended (state_at trackers.old ack.now.hash) ack.now) ack.now.version) }
    ensures leads { (first : States) → LeadsBack changes.old.items first trackers.old
        → LeadsBack changes.new.items first trackers.new }
{
    let mut tracker = trackers.current(alloc, &ack.hash)?;
    if is_ignored(&tracker, ack) {
        return Ok(None);
    }
    let ended = acknowledge(&mut tracker, copied(ack)?, ack.value.copy()?);
    put_changed(trackers, changes, tracker)?;
    Ok(note_of(ended, ack.version))
}

// Applies acknowledgements one after another, up to the first one for which memory is wanting.
#[tactic(auto, unfolding(sync_model::specs::Sides::after_acks, sync_model::specs::Sides::notes_of))]
fn apply_each(
    alloc: Global,
    trackers: &mut Trackers,
    changes: &mut VecDeque<Change>,
    acks: &[Ack],
) -> Result<Vec<Note>, NoMemory>
    ensures states { OnOk result (trackers.new ≡ after_acks trackers.old acks.now) }
    ensures notes { IfOk result (λ notes. notes.items ≡ notes_of trackers.old acks.now) }
    ensures leads { (first : States) → LeadsBack changes.old.items first trackers.old
        → LeadsBack changes.new.items first trackers.new }
{
    let mut notes = Vec::new(alloc);
    for ack in acks {
        let note = apply_ack(alloc, trackers, changes, ack)?;
        push_note(&mut notes, note)?;
    }
    Ok(notes)
}

/// Applies acknowledgements one after another, all of them or none, and gives the notes of what they end.
pub(crate) fn apply_acks(
    alloc: Global,
    trackers: &mut Trackers,
    acks: &[Ack],
) -> Result<Vec<Note>, NoMemory>
    ensures states { OnOk result (trackers.new ≡ after_acks trackers.old acks.now) }
    ensures notes { IfOk result (λ notes. notes.items ≡ notes_of trackers.old acks.now) }
    ensures err { OnErr result (trackers.new ≡ trackers.old) }
{
    let mut changes = VecDeque::new(alloc);
    match apply_each(alloc, trackers, &mut changes, acks) {
        Ok(notes) => Ok(notes),
        Err(NoMemory) => {
            take_all_back(trackers, changes);
            Err(NoMemory)
        }
    }
}
