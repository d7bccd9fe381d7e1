//! A type's worker.
ghost use Rattle.std.specs.Prelude.{◌≡◌, ◌↔◌, IsTrue, option_map, option_copied, IfOk, OnErr, Ok, None, Some};
ghost use Rattle.sync_model.specs.declared.message.Task.{Task as Letter};
ghost use Rattle.type_worker.specs.Batches.{Held, holding_none, IsTaskOf, Waits, StillWaits, IsMailable, OpensNow, waiting_count};
ghost use Rattle.type_worker.specs.Entries.{entries_of};

use crate::batch::{BatchFault, opened_entries};
use crate::blocked::Blocked;
use crate::entries::entries_of;
use crate::pending::{Pending, task_of};
use client_tags::Kind;
use key_bag::KeyBag;
use progress_marker::Mark;
use std::alloc::Global;
use std::marker::Model;
use sync_messages::Entity;
use sync_model::Task;
use wire_fields::{List, NoMemory};

/// What became of a reply's updates.
#[derive(Debug, Drop)]
pub enum Taken {
    /// All of them open: the task is for the type's processor.
    Ready(Task),
    /// One of them does not open, and the batch waits for a key.
    Pending,
}

/// One type's part of a client's cycle. It holds at most one batch, which waits for a key that opens it.
#[derive(Drop)]
pub struct Worker {
    pub(crate) alloc: Global,
    pub(crate) kind: Kind,
    pub(crate) pending: Option<Pending>,
}

impl Model for Worker {
    ghost use Rattle.std.specs.Prelude.{option_map};
    ghost use Rattle.type_worker.specs.Batches.{Held, waiting_of};

    ghost Value = { Held };

    ghost view = { λ worker. record { kind = worker.kind; pending = option_map waiting_of worker.pending } };
}

impl Worker {
    /// A worker that holds nothing. It takes no memory.
    pub fn new(alloc: Global, kind: Kind) -> Worker
        ensures { result ≡ record { kind = kind; pending = None } }
    {
        Worker {
            alloc,
            kind,
            pending: None,
        }
    }

    /// Takes the entities of a reply that are of the type, with the mark up to which they are all. The batch takes the
    /// place of one that waits. It takes time linear in the size of the entities, and for each that is sealed in the
    /// number of the keys.
    pub fn take_updates(
        &mut self,
        bag: &KeyBag,
        entities: List<Entity>,
        mark: Mark,
    ) -> Result<Taken, NoMemory>
        ensures ready { (task : Letter) → result ≡ Ok (Taken.Ready task)
            → IsTaskOf bag.now (entries_of self.old.kind entities) mark.version task }
        ensures nothing_waits { (task : Letter) → result ≡ Ok (Taken.Ready task) → self.new ≡ holding_none self.old }
        ensures waits { result ≡ Ok Taken.Pending
            → Waits bag.now (entries_of self.old.kind entities) mark.version self.old self.new }
        ensures err { OnErr result (self.new ≡ self.old) }
    {
        let entries = entries_of(self.alloc, self.kind, entities)?;
        match opened_entries(self.alloc, bag, entries.as_slice()) {
            Ok(updates) => {
                self.pending = None;
                Ok(Taken::Ready(task_of(updates, mark.version)))
            }
            Err(BatchFault::Blocked(blocked)) => {
                self.pending = Some(Pending {
                    entries,
                    mark: mark.version,
                    blocked,
                });
                Ok(Taken::Pending)
            }
            Err(BatchFault::NoMemory) => Err(NoMemory),
        }
    }

    /// Tries the batch that waits again, as after a key was added. With a task the batch still waits, and `blocked`
    /// tells what it told before, until `drop_pending`. It takes time as `take_updates` does.
    pub fn keys_changed(&mut self, bag: &KeyBag) -> Result<Option<Task>, NoMemory>
        ensures mailable { (task : Letter) → result ≡ Ok (Some task) → IsMailable bag.now self.old.pending task }
        ensures kept { (task : Letter) → result ≡ Ok (Some task) → self.new ≡ self.old }
        ensures still_waits { result ≡ Ok None → StillWaits bag.now self.old.pending self.old self.new }
        ensures err { OnErr result (self.new ≡ self.old) }
    {
        let Some(pending) = &mut self.pending else {
            return Ok(None);
        };
        pending.try_again(self.alloc, bag)
    }

    /// Whether a batch waits and all of it opens now. It takes time as `take_updates` does.
    pub fn opens(&self, bag: &KeyBag) -> Result<bool, NoMemory>
        ensures { IfOk result (λ answer. IsTrue answer ↔ OpensNow bag.now self.now.pending) }
    {
        match &self.pending {
            None => Ok(false),
            Some(pending) => pending.opens(self.alloc, bag),
        }
    }

    /// Lets the batch that waits go, if there is one.
    pub fn drop_pending(&mut self)
        ensures { self.new ≡ holding_none self.old }
    {
        self.pending = None;
    }

    /// How many entries wait.
    pub fn pending_len(&self) -> u64
        ensures { result ≡ waiting_count self.now.pending }
    {
        match &self.pending {
            None => 0,
            Some(pending) => pending.entries.len() as u64,
        }
    }

    /// The first entry of the batch that waits which did not open when it was last tried; none where nothing waits.
    pub fn blocked(&self) -> Option<&Blocked>
        ensures { option_copied result ≡ option_map (λ waiting. waiting.blocked) self.now.pending }
    {
        match &self.pending {
            None => None,
            Some(pending) => Some(&pending.blocked),
        }
    }
}
