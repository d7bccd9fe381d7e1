//! Going over the trackers of a type: copies, and counts of them.
ghost use Rattle.std.specs.Prelude.{◌≡◌, ◌+◌, ◌<◌, ◌≤◌, ◌^◌, ◌-◌, if◌then◌else◌, length, map, IfOk};
ghost use Rattle.std.specs.Option.{option_copied};
ghost use Rattle.sync_model.specs.Offers.{reseal_count as reseal_count_of};
ghost use Rattle.sync_model.specs.Sides.{due_count as due_count_of};
ghost use Rattle.type_processor.specs.Keyed.{key_of};

use crate::trackers::Trackers;
use entity_tracker::Tracker;
use std::alloc::Global;
use wire_fields::{List, NoMemory, Octets};

/// Copies of trackers by ascending hash.
pub(crate) fn copied_trackers(alloc: Global, trackers: &Trackers) -> Result<List<Tracker>, NoMemory>
    ensures { IfOk result (λ list. map key_of list ≡ trackers.now) }
{
    let mut list = List::new(alloc);
    let mut keys = trackers.iter();
    'keys: while let Some(tracker) = keys.next() {
        list.push(tracker.copy()?)?;
    }
    Ok(list)
}

// A count with one more, if that counts.
fn counted(count: usize, counts: bool) -> usize
    requires { count < 2 ^ 64 - 1 }
    ensures { result ≡ count + (if counts then 1 else 0) }
{
    if counts { count + 1 } else { count }
}

/// How many keys have an edit that the server lacks.
pub(crate) fn due_count(trackers: &Trackers) -> usize
    ensures { result ≡ due_count_of trackers.now }
{
    let total = trackers.len();
    let mut count = 0;
    let mut keys = trackers.iter();
    'keys: while let Some(tracker) = keys.next() {
        count = counted(count, tracker.is_due());
    }
    let _ = total;
    count
}

/// How many keys are to be sealed anew under the key of the name that is wanted.
pub(crate) fn reseal_count(trackers: &Trackers, wanted: Option<&Octets>) -> usize
    ensures { result ≡ reseal_count_of (option_copied wanted.entry) trackers.now }
{
    let total = trackers.len();
    let mut count = 0;
    let mut keys = trackers.iter();
    'keys: while let Some(tracker) = keys.next() {
        count = counted(count, tracker.needs_seal(wanted));
    }
    let _ = total;
    count
}
