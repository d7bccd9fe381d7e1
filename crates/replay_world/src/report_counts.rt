//! The lines of a report that count the events, the requests and the deliveries.
ghost use Rattle.std.specs.Prelude.{◌≡◌, ◌++◌, count_by, reverse, OnOk, List};
ghost use Rattle.sync_model.specs.declared.message.Content.{Content as ContentOf};
ghost use Rattle.sync_model.specs.declared.message.Entry.{Entry as EntryOf};
ghost use Rattle.sync_model.specs.Report.{events_line, totals_line};
ghost use Rattle.replay_world.specs.Outcomes.{outcomes_of};
ghost use Rattle.replay_world.specs.Reports.{was_void, was_request, was_delivery};

use crate::happened::Happened;
use report_lines::{write_events_line, write_totals_line};
use wire_fields::NoMemory;

fn was_void(happened: &Happened) -> bool
    ensures { result ≡ was_void happened.now }
{
    match happened {
        Happened::Void => true,
        _ => false,
    }
}

fn was_request(happened: &Happened) -> bool
    ensures { result ≡ was_request happened.now }
{
    match happened {
        Happened::Requested { .. } => true,
        _ => false,
    }
}

fn was_delivery(happened: &Happened) -> bool
    ensures { result ≡ was_delivery happened.now }
{
    match happened {
        Happened::Delivered { .. } => true,
        _ => false,
    }
}

fn count_void(happened: &[Happened]) -> usize
    ensures { result ≡ count_by was_void happened.now }
{
    happened.iter().filter(|item| was_void(*item)).count()
}

fn count_requests(happened: &[Happened]) -> usize
    ensures { result ≡ count_by was_request happened.now }
{
    happened.iter().filter(|item| was_request(*item)).count()
}

fn count_deliveries(happened: &[Happened]) -> usize
    ensures { result ≡ count_by was_delivery happened.now }
{
    happened.iter().filter(|item| was_delivery(*item)).count()
}

/// How many events there were, and how many of them were void.
#[tactic(auto, using(crate::proofs::CountLemmas::voids_kept, crate::proofs::CountLemmas::events_kept))]
pub(crate) fn write_events(out: &mut Vec<u8>, happened: &[Happened]) -> Result<(), NoMemory>
    ensures { (history : List (EntryOf ContentOf)) → OnOk result (out.new.items ≡ out.old.items ++ events_line (outcomes_of history (reverse happened.now))) }
{
    write_events_line(out, happened.len() as u64, count_void(happened) as u64)
}

/// How many requests there were, and how many deliveries.
#[tactic(auto, using(crate::proofs::CountLemmas::requests_kept, crate::proofs::CountLemmas::deliveries_kept))]
pub(crate) fn write_totals(out: &mut Vec<u8>, happened: &[Happened]) -> Result<(), NoMemory>
    ensures { (history : List (EntryOf ContentOf)) → OnOk result (out.new.items ≡ out.old.items ++ totals_line (outcomes_of history (reverse happened.now))) }
{
    write_totals_line(
        out,
        count_requests(happened) as u64,
        count_deliveries(happened) as u64,
    )
}
