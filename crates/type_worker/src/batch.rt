//! The entries of a batch as updates, once they open.
ghost use Rattle.std.specs.Prelude.{◌≡◌, IfOk, IsSome, option_copied};
ghost use Rattle.type_worker.specs.Opening.{sealed_in};
ghost use Rattle.type_worker.specs.Batches.{lock_of};
ghost use Rattle.type_worker.specs.Tries.{update_of, IsTold, IsEntryTry, IsBatchTry};

use crate::blocked::{BlockCause, Blocked};
use crate::open_fault::OpenFault;
use crate::opening::opened_specifics;
use crate::pending::SentEntry;
use key_bag::KeyBag;
use std::alloc::Global;
use sync_model::Update;
use sync_specifics::{Sealed, Specifics, Value};
use wire_fields::{List, NoMemory, Octets};

/// Why entries are not opened: the first one that does not open, or memory was wanting, which says nothing about them.
#[derive(Debug, Drop)]
pub(crate) enum BatchFault {
    Blocked(Blocked),
    NoMemory,
}

impl From<NoMemory> for BatchFault {
    ghost use Rattle.std.specs.Prelude.{◌≡◌};
    ghost use Rattle.type_worker.specs.declared.batch.BatchFault.TheVariants as faults;

    ghost from_gives = { λ _ fault. fault ≡ faults.NoMemory };

    fn from(_error: NoMemory) -> BatchFault {
        BatchFault::NoMemory
    }
}

// The entries of a batch as updates, if each of them opens. The first that does not is told.
pub(crate) fn opened_entries(
    alloc: Global,
    bag: &KeyBag,
    entries: &[SentEntry],
) -> Result<List<Update>, BatchFault>
    ensures { IsBatchTry bag.now entries.now result }
{
    let mut updates = List::new(alloc);
    for entry in entries {
        updates.push(opened_entry(alloc, bag, entry)?)?;
    }
    Ok(updates)
}

// An entry as an update, if it opens.
fn opened_entry(alloc: Global, bag: &KeyBag, entry: &SentEntry) -> Result<Update, BatchFault>
    ensures { IsEntryTry bag.now entry.now result }
{
    match opened_specifics(alloc, bag, &entry.specifics) {
        Ok(value) => Ok(update_of(entry, value)?),
        Err(OpenFault::Shut(cause)) => Err(BatchFault::Blocked(blocked_of(entry, cause)?)),
        Err(OpenFault::NoMemory) => Err(BatchFault::NoMemory),
    }
}

// An entry as an update of this value.
fn update_of(entry: &SentEntry, value: Value) -> Result<Update, NoMemory>
    ensures { IfOk result (λ update. update ≡ update_of entry.now value) }
{
    Ok(Update {
        hash: entry.hash,
        version: entry.version,
        value,
        lock: lock_of(&entry.specifics)?,
    })
}

// What is told of an entry that does not open for this cause.
fn blocked_of(entry: &SentEntry, cause: BlockCause) -> Result<Blocked, NoMemory>
    requires { IsSome (sealed_in entry.now.specifics) }
    ensures { IfOk result (λ blocked. IsTold entry.now cause blocked) }
{
    let Some(sealed) = sealed_in(&entry.specifics) else {
        unreachable!()
    };
    Ok(Blocked {
        hash: entry.hash,
        sealed: sealed.copy()?,
        cause,
    })
}

// The name that the sealed text of specifics bears, if they have one.
fn lock_of(specifics: &Specifics) -> Result<Option<Octets>, NoMemory>
    ensures { IfOk result (λ lock. lock ≡ lock_of specifics.now) }
{
    match sealed_in(specifics) {
        None => Ok(None),
        Some(sealed) => Ok(Some(sealed.key_name.copy()?)),
    }
}

// The sealed text of specifics, if they have one.
fn sealed_in(specifics: &Specifics) -> Option<&Sealed>
    ensures { option_copied result ≡ sealed_in specifics.now }
{
    match specifics {
        Specifics::EmptyOf(_) => None,
        Specifics::Preference(_) => None,
        Specifics::SealedPreference(sealed) => Some(sealed),
        Specifics::Password(sealed) => Some(sealed),
        Specifics::Nigori(content) => Some(&content.bag),
    }
}
