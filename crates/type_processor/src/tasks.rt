//! What a task makes of a type.
ghost use Rattle.std.specs.Prelude.{◌≡◌, IfOk, OnOk, OnErr};
ghost use Rattle.sync_model.specs.Sides.{task_notes};
ghost use Rattle.type_processor.specs.Turns.{states_after, mark_after};

use crate::acks::apply_acks;
use crate::trackers::Trackers;
use crate::updates::apply_updates;
use conflict_rules::TypeRules;
use std::alloc::Global;
use sync_model::{Note, Task};
use wire_fields::NoMemory;

/// Applies a task, whole or not at all, and gives the notes of what it settles.
#[tactic(auto, unfolding(sync_model::specs::Sides::task_notes))]
pub(crate) fn apply_task<R: TypeRules>(
    alloc: Global,
    rules: &R,
    trackers: &mut Trackers,
    task: &Task,
) -> Result<Vec<Note>, NoMemory>
    ensures states { OnOk result (trackers.new ≡ states_after (R.decided rules.now) trackers.old task.now) }
    ensures notes { IfOk result (λ notes. notes.items ≡ task_notes (R.decided rules.now) trackers.old task.now) }
    ensures err { OnErr result (trackers.new ≡ trackers.old) }
{
    match task {
        Task::Batch(batch) => apply_updates(alloc, rules, trackers, batch.updates.as_slice()),
        Task::Acks(acks) => apply_acks(alloc, trackers, acks.as_slice()),
    }
}

/// The mark after a task.
pub(crate) fn raised_mark(mark: u64, task: &Task) -> u64
    ensures { result ≡ mark_after mark task.now }
{
    match task {
        Task::Batch(batch) => mark.max(batch.mark),
        Task::Acks(_) => mark,
    }
}

/// Lets go of a task.
pub(crate) fn discard_task(_task: Option<Task>) {}
