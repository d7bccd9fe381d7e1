//! Keeping which values were offered.
ghost use Rattle.std.specs.Prelude.{◌≡◌, OnOk, OnErr};
ghost use Rattle.std.specs.List.{AllByRecursion};
ghost use Rattle.sync_model.specs.Sides.{States, after_offer, after_offers};
ghost use Rattle.type_processor.specs.Fits.{IsOwnOffer};
ghost use Rattle.type_processor.specs.Journals.{LeadsBack};

use crate::journal::{Change, put_changed, take_all_back};
use crate::trackers::Trackers;
use std::alloc::Global;
use std::collections::VecDeque;
use sync_model::Offer;
use wire_fields::NoMemory;

// Keeps that an own value was offered.
fn note_offer(
    alloc: Global,
    trackers: &mut Trackers,
    changes: &mut VecDeque<Change>,
    offer: &Offer,
) -> Result<(), NoMemory>
    requires { IsOwnOffer trackers.old offer.now }
    ensures states { OnOk result (trackers.new ≡ after_offer trackers.old offer.now) }
    ensures leads { (first : States) → LeadsBack changes.old.items first trackers.old
        → LeadsBack changes.new.items first trackers.new }
{
    let mut tracker = trackers.current(alloc, &offer.hash)?;
    tracker.note_offered()?;
    put_changed(trackers, changes, tracker)?;
    Ok(())
}

// Keeps that some own values were offered, one after another, up to the first one for which memory is wanting.
#[tactic(auto, unfolding(sync_model::specs::Sides::after_offers))]
fn note_each(
    alloc: Global,
    trackers: &mut Trackers,
    changes: &mut VecDeque<Change>,
    offers: &[Offer],
) -> Result<(), NoMemory>
    requires { AllByRecursion (IsOwnOffer trackers.old) offers.now }
    ensures states { OnOk result (trackers.new ≡ after_offers trackers.old offers.now) }
    ensures leads { (first : States) → LeadsBack changes.old.items first trackers.old
        → LeadsBack changes.new.items first trackers.new }
{
    for offer in offers {
        note_offer(alloc, trackers, changes, offer)?;
    }
    Ok(())
}

/// Keeps that some own values were offered, all of them or none.
pub(crate) fn note_offers(
    alloc: Global,
    trackers: &mut Trackers,
    offers: &[Offer],
) -> Result<(), NoMemory>
    requires { AllByRecursion (IsOwnOffer trackers.old) offers.now }
    ensures states { OnOk result (trackers.new ≡ after_offers trackers.old offers.now) }
    ensures err { OnErr result (trackers.new ≡ trackers.old) }
{
    let mut changes = VecDeque::new(alloc);
    match note_each(alloc, trackers, &mut changes, offers) {
        Ok(()) => Ok(()),
        Err(NoMemory) => {
            take_all_back(trackers, changes);
            Err(NoMemory)
        }
    }
}
