//! The lines of a report that tell of a client.
ghost use Rattle.std.specs.Prelude.{◌≡◌, ◌++◌, [], length, reverse, OnOk, List};
ghost use Rattle.sync_model.specs.declared.message.Content.{Content as ContentOf};
ghost use Rattle.sync_model.specs.declared.message.Entry.{Entry as EntryOf};
ghost use Rattle.sync_model.specs.Clients.{side_of, wanted_name};
ghost use Rattle.sync_model.specs.Offers.{reseal_count};
ghost use Rattle.sync_model.specs.Report.{pass_number, client_line, side_line, value_lines, for_each_kind};
ghost use Rattle.sync_model.specs.Sides.{due_count, pending_count};
ghost use Rattle.run_setting.specs.Hashed.{hashed};
ghost use Rattle.replay_world.specs.Outcomes.{outcomes_of};
ghost use Rattle.replay_world.specs.Reports.{fates_text};

use crate::happened::Happened;
use crate::report_fates::write_fates;
use client_tags::Kind;
use replay_client::{Client, TrackersIter};
use report_lines::{SideCounts, write_client_line, write_side_line, write_value_line};
use std::alloc::Global;
use sync_model::Settlement;
use wire_fields::NoMemory;

/// Whether a client has all that a server of this version has, and nothing waits.
pub(crate) fn write_caught_up(
    out: &mut Vec<u8>,
    version: u64,
    number: u32,
    client: &Client,
) -> Result<(), NoMemory>
    ensures { OnOk result (out.new.items ≡ out.old.items ++ client_line version number client.now) }
{
    write_client_line(out, number, client.is_caught_up(version))
}

fn counts_of(client: &Client, kind: Kind) -> SideCounts
    ensures { result ≡ record {
      mark = (side_of client.now kind).mark;
      due = due_count (side_of client.now kind).states;
      reseal = reseal_count (wanted_name hashed client.now kind) (side_of client.now kind).states;
      pending = pending_count (side_of client.now kind).pending;
      mailbox = length (side_of client.now kind).mailbox;
    } }
{
    SideCounts {
        mark: client.mark(kind),
        due: client.due_count(kind),
        reseal: client.reseal_count(kind),
        pending: client.pending_count(kind),
        mailbox: client.mailbox_len(kind),
    }
}

fn write_side(out: &mut Vec<u8>, number: u32, kind: Kind, client: &Client) -> Result<(), NoMemory>
    ensures { OnOk result (out.new.items ≡ out.old.items ++ side_line number kind (wanted_name hashed client.now kind) (side_of client.now kind)) }
{
    write_side_line(out, number, kind, counts_of(client, kind))
}

/// What the sides of a client count.
pub(crate) fn write_sides(out: &mut Vec<u8>, number: u32, client: &Client) -> Result<(), NoMemory>
    ensures { OnOk result (out.new.items ≡ out.old.items ++ for_each_kind (λ kind. side_line number kind
        (wanted_name hashed client.now kind) (side_of client.now kind))) }
{
    write_side(out, number, Kind::Nigori, client)?;
    write_side(out, number, Kind::Preference, client)?;
    write_side(out, number, Kind::Password, client)
}

fn write_values(
    out: &mut Vec<u8>,
    number: u32,
    kind: Kind,
    mut states: TrackersIter<'_>,
) -> Result<(), NoMemory>
    ensures { OnOk result (out.new.items ≡ out.old.items ++ value_lines hashed (pass_number hashed []) number kind states.entry) }
{
    'keys: while let Some(tracker) = states.next() {
        write_value_line(
            out,
            number,
            kind,
            &tracker.hash(),
            tracker.known(),
            tracker.own(),
        )?;
    }
    Ok(())
}

/// What a client has of each key, by type and then by hash.
pub(crate) fn write_all_values(
    out: &mut Vec<u8>,
    number: u32,
    client: &Client,
) -> Result<(), NoMemory>
    ensures { OnOk result (out.new.items ≡ out.old.items ++ for_each_kind (λ kind. value_lines hashed (pass_number hashed []) number kind
        (side_of client.now kind).states)) }
{
    write_values(out, number, Kind::Nigori, client.states(Kind::Nigori))?;
    write_values(
        out,
        number,
        Kind::Preference,
        client.states(Kind::Preference),
    )?;
    write_values(out, number, Kind::Password, client.states(Kind::Password))
}

/// The fates of a client's edits, by type and then by number.
pub(crate) fn write_all_fates(
    out: &mut Vec<u8>,
    alloc: Global,
    happened: &[Happened],
    settlements: &[Settlement],
    client: u32,
) -> Result<(), NoMemory>
    ensures { (history : List (EntryOf ContentOf)) → OnOk result (out.new.items
        ≡ out.old.items ++ for_each_kind (fates_text (outcomes_of history (reverse happened.now)) settlements.now client)) }
{
    write_fates(out, alloc, happened, settlements, client, Kind::Nigori)?;
    write_fates(out, alloc, happened, settlements, client, Kind::Preference)?;
    write_fates(out, alloc, happened, settlements, client, Kind::Password)
}
