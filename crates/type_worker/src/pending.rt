//! A batch that waits for a key.
ghost use Rattle.std.specs.Prelude.{◌≡◌, ◌↔◌, IsTrue, Ok, None, Some, IfOk, OnErr};
ghost use Rattle.sync_model.specs.declared.message.Task.{Task as Letter};
ghost use Rattle.type_worker.specs.Batches.{AllOpen, IsTaskOf, IsRetried, task_of};

use crate::batch::{BatchFault, opened_entries};
use crate::blocked::Blocked;
use client_tags::TagHash;
use key_bag::KeyBag;
use std::alloc::Global;
use sync_model::{Batch, Task, Update};
use sync_specifics::Specifics;
use wire_fields::{List, NoMemory};

/// An entity of a type as it was sent; of what is deleted the specifics are the type alone.
#[derive(Debug, Drop)]
pub(crate) struct SentEntry {
    pub hash: TagHash,
    pub version: u64,
    pub specifics: Specifics,
}

/// A batch that waits: its entries, the mark up to which they are all, and the first entry that did not open when it
/// was last tried.
#[derive(Debug, Drop)]
pub(crate) struct Pending {
    pub entries: List<SentEntry>,
    pub mark: u64,
    pub blocked: Blocked,
}

impl Pending {
    // The batch's task, if all of it opens now. Else what is told of it is of this try.
    pub(crate) fn try_again(
        &mut self,
        alloc: Global,
        bag: &KeyBag,
    ) -> Result<Option<Task>, NoMemory>
        ensures task { (task : Letter) → result ≡ Ok (Some task)
            → IsTaskOf bag.now self.old.entries self.old.mark task }
        ensures kept { (task : Letter) → result ≡ Ok (Some task) → self.new ≡ self.old }
        ensures still_waits { result ≡ Ok None → IsRetried bag.now self.old self.new }
        ensures err { OnErr result (self.new ≡ self.old) }
    {
        match opened_entries(alloc, bag, self.entries.as_slice()) {
            Ok(updates) => Ok(Some(task_of(updates, self.mark))),
            Err(BatchFault::Blocked(blocked)) => {
                self.blocked = blocked;
                Ok(None)
            }
            Err(BatchFault::NoMemory) => Err(NoMemory),
        }
    }

    // All of the batch opens now.
    pub(crate) fn opens(&self, alloc: Global, bag: &KeyBag) -> Result<bool, NoMemory>
        ensures { IfOk result (λ answer. IsTrue answer ↔ AllOpen bag.now self.now.entries) }
    {
        match opened_entries(alloc, bag, self.entries.as_slice()) {
            Ok(_) => Ok(true),
            Err(BatchFault::Blocked(_)) => Ok(false),
            Err(BatchFault::NoMemory) => Err(NoMemory),
        }
    }
}

/// The task of a batch of these updates with this mark.
pub(crate) fn task_of(updates: List<Update>, mark: u64) -> Task
    ensures { result ≡ task_of updates mark }
{
    Task::Batch(Batch { updates, mark })
}
