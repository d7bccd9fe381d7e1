//! What the updates of a batch make of the trackers.
ghost use Rattle.std.specs.Prelude.{◌≡◌, ◌<◌, ◌++◌, IsTrue, is_some, option_to_list, IfOk, OnOk, OnErr};
ghost use Rattle.sync_model.specs.KeyStates.{settled, updated, fate_by, fate_of_update};
ghost use Rattle.sync_model.specs.Sides.{States, state_at, note_with, after_update, after_updates, update_notes};
ghost use Rattle.type_processor.specs.Journals.{LeadsBack};
ghost use Rattle.type_processor.specs.Keyed.{key_of};

use crate::journal::{Change, put_changed, take_all_back};
use crate::trackers::Trackers;
use conflict_rules::{Choice, Resolution, TypeRules, resolve};
use entity_tracker::Tracker;
use std::alloc::Global;
use std::collections::VecDeque;
use sync_model::{Fate, Note, Update, Value};
use wire_fields::{NoMemory, Octets};

/// A second name of a key, or none.
pub(crate) fn copied_lock(lock: &Option<Octets>) -> Result<Option<Octets>, NoMemory>
    ensures { IfOk result (λ copy. copy ≡ lock.now) }
{
    match lock {
        Some(name) => Ok(Some(name.copy()?)),
        None => Ok(None),
    }
}

fn copied(update: &Update) -> Result<Update, NoMemory>
    ensures { IfOk result (λ copy. copy ≡ update.now) }
{
    Ok(Update {
        hash: update.hash,
        version: update.version,
        value: update.value.copy()?,
        lock: copied_lock(&update.lock)?,
    })
}

// What a row of the conflict table makes of a tracker that is due, and the fate that it gives to the due edit.
fn settle(tracker: &mut Tracker, update: Update, own: Value, resolution: Resolution) -> Option<Fate>
    requires newer { tracker.old.state.known < update.version }
    requires own { own ≡ update.value }
    requires due { IsTrue (is_some tracker.old.state.due) }
    ensures state { key_of tracker.new ≡ (tracker.old.hash, settled tracker.old.state update resolution.choice) }
    ensures fate { result ≡ fate_by update.version resolution resolution.choice }
{
    let version = update.version;
    let row = resolution.row;
    match resolution.choice {
        Choice::Same => {
            tracker.accept_remote(update, own);
            Some(Fate::Matched(version))
        }
        Choice::Remote => {
            tracker.accept_remote(update, own);
            Some(Fate::Taken { version, row })
        }
        Choice::Local => {
            tracker.keep_local(update);
            None
        }
        Choice::Merged(merged) => {
            tracker.accept_merged(update, merged);
            Some(Fate::Merged { version, row })
        }
    }
}

// What an update makes of a tracker, and the fate that it gives to the due edit, if there is one.
#[tactic(auto, unfolding(sync_model::specs::KeyStates::updated, sync_model::specs::KeyStates::fate_of_update))]
fn update_tracker<R: TypeRules>(
    rules: &R,
    tracker: &mut Tracker,
    update: &Update,
) -> Result<Option<Fate>, NoMemory>
    requires newer { tracker.old.state.known < update.now.version }
    ensures state { OnOk result (key_of tracker.new
        ≡ (tracker.old.hash, updated (R.decided rules.now) tracker.old.state update.now)) }
    ensures fate { IfOk result (λ fate. fate ≡ fate_of_update (R.decided rules.now) tracker.old.state update.now) }
{
    let own = update.value.copy()?;
    let write = copied(update)?;
    if !tracker.is_due() {
        tracker.accept_remote(write, own);
        return Ok(None);
    }
    let echo = tracker.is_echo(&update.value);
    let resolution = resolve(rules, echo, tracker.base(), tracker.own(), &update.value)?;
    Ok(settle(tracker, write, own, resolution))
}

fn note_with(due: Option<u64>, fate: Option<Fate>) -> Option<Note>
    ensures { option_to_list result ≡ note_with due fate }
{
    match (due, fate) {
        (Some(number), Some(fate)) => Some(Note { number, fate }),
        _ => None,
    }
}

/// Adds a note, if there is one.
pub(crate) fn push_note(notes: &mut Vec<Note>, note: Option<Note>) -> Result<(), NoMemory>
    ensures { OnOk result (notes.new.items ≡ notes.old.items ++ option_to_list note) }
{
    if let Some(note) = note {
        notes.push(note)?;
    }
    Ok(())
}

// Applies an update, and gives the note of the due edit that it settles, if it does.
fn apply_update<R: TypeRules>(
    alloc: Global,
    rules: &R,
    trackers: &mut Trackers,
    changes: &mut VecDeque<Change>,
    update: &Update,
) -> Result<Option<Note>, NoMemory>
    ensures states { OnOk result (trackers.new ≡ after_update (R.decided rules.now) trackers.old update.now) }
    ensures note { IfOk result (λ note. option_to_list note
        ≡ note_with (state_at trackers.old update.now.hash).due
        (fate_of_update (R.decided rules.now) (state_at trackers.old update.now.hash) update.now)) }
    ensures leads { (first : States) → LeadsBack changes.old.items first trackers.old
        → LeadsBack changes.new.items first trackers.new }
{
    let mut tracker = trackers.current(alloc, &update.hash)?;
    if update.version <= tracker.known() {
        return Ok(None);
    }
    let due = tracker.due();
    let fate = update_tracker(rules, &mut tracker, update)?;
    put_changed(trackers, changes, tracker)?;
    Ok(note_with(due, fate))
}

// Applies updates one after another, up to the first one for which memory is wanting.
#[tactic(auto, unfolding(sync_model::specs::Sides::after_updates, sync_model::specs::Sides::update_notes))]
fn apply_each<R: TypeRules>(
    alloc: Global,
    rules: &R,
    trackers: &mut Trackers,
    changes: &mut VecDeque<Change>,
    updates: &[Update],
) -> Result<Vec<Note>, NoMemory>
    ensures states { OnOk result (trackers.new ≡ after_updates (R.decided rules.now) trackers.old updates.now) }
    ensures notes { IfOk result (λ notes. notes.items
        ≡ update_notes (R.decided rules.now) trackers.old updates.now) }
    ensures leads { (first : States) → LeadsBack changes.old.items first trackers.old
        → LeadsBack changes.new.items first trackers.new }
{
    let mut notes = Vec::new(alloc);
    for update in updates {
        let note = apply_update(alloc, rules, trackers, changes, update)?;
        push_note(&mut notes, note)?;
    }
    Ok(notes)
}

/// Applies updates one after another, all of them or none, and gives the notes of what they settle.
pub(crate) fn apply_updates<R: TypeRules>(
    alloc: Global,
    rules: &R,
    trackers: &mut Trackers,
    updates: &[Update],
) -> Result<Vec<Note>, NoMemory>
    ensures states { OnOk result (trackers.new ≡ after_updates (R.decided rules.now) trackers.old updates.now) }
    ensures notes { IfOk result (λ notes. notes.items
        ≡ update_notes (R.decided rules.now) trackers.old updates.now) }
    ensures err { OnErr result (trackers.new ≡ trackers.old) }
{
    let mut changes = VecDeque::new(alloc);
    match apply_each(alloc, rules, trackers, &mut changes, updates) {
        Ok(notes) => Ok(notes),
        Err(NoMemory) => {
            take_all_back(trackers, changes);
            Err(NoMemory)
        }
    }
}
