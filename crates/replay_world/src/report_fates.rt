//! The lines of a report that tell the fates of edits.
ghost use Rattle.std.specs.Prelude.{◌≡◌, ℕ, ◌&&◌, ◌==◌, ◌++◌, if◌then◌else◌, reverse, Some, IfOk, OnOk, List};
ghost use Rattle.std.specs.List.{flat_map};
ghost use Rattle.std.specs.Option.{option_to_list};
ghost use Rattle.sync_model.specs.declared.message.Content.{Content as ContentOf};
ghost use Rattle.sync_model.specs.declared.message.Entry.{Entry as EntryOf};
ghost use Rattle.sync_model.specs.Fates.{is_of_edit};
ghost use Rattle.sync_model.specs.Values.{same_kind};
ghost use Rattle.replay_world.specs.Outcomes.{outcomes_of};
ghost use Rattle.replay_world.specs.Reports.{edit_kept, fate_at, HasFates, kept_fate, fates_text};

use crate::happened::Happened;
use client_tags::Kind;
use report_lines::write_fate_line;
use std::alloc::Global;
use std::collections::BTreeMap;
use sync_model::{Fate, Settlement};
use wire_fields::NoMemory;

/// The fates of the edits of one client and type, by the numbers of the edits.
type Fates = BTreeMap<u64, Fate>;

fn is_same(first: Kind, second: Kind) -> bool
    ensures { result ≡ same_kind first second }
{
    first == second
}

// An edit of this client and type.
fn is_own(editor: u32, edited: Kind, client: u32, kind: Kind) -> bool
    ensures { result ≡ (editor == client && same_kind edited kind) }
{
    editor == client && is_same(edited, kind)
}

// Puts a settlement that is earlier than those of the table into the table, if it is of the client and the type.
fn put_fate(
    fates: &mut Fates,
    client: u32,
    kind: Kind,
    settlement: &Settlement,
) -> Result<(), NoMemory>
    ensures { OnOk result ((number : ℕ) → fate_at fates.new.entries number
        ≡ (if is_of_edit client kind number settlement.now then Some settlement.now.fate else fate_at fates.old.entries number)) }
{
    if !is_own(settlement.client, settlement.kind, client, kind) {
        return Ok(());
    }
    fates.insert(settlement.number, settlement.fate)?;
    Ok(())
}

// A table of the fates of the edits of a client and a type. It takes the settlements from the last to the first, so that
// the first one of an edit stands.
fn fates_of(
    alloc: Global,
    settlements: &[Settlement],
    client: u32,
    kind: Kind,
) -> Result<Fates, NoMemory>
    ensures { IfOk result (λ fates. HasFates fates.entries settlements.now client kind) }
{
    let mut fates = BTreeMap::new(alloc);
    for place in (0..settlements.len()).rev() {
        put_fate(&mut fates, client, kind, &settlements[place])?;
    }
    Ok(fates)
}

// The number of the edit of a client and a type that is kept of an event, if one is.
fn edit_in(happened: &Happened, client: u32, kind: Kind) -> Option<u64>
    ensures { option_to_list result ≡ edit_kept client kind happened.now }
{
    let Happened::Edited {
        client: editor,
        kind: edited,
        number,
    } = happened
    else {
        return None;
    };
    if is_own(*editor, *edited, client, kind) {
        Some(*number)
    } else {
        None
    }
}

#[tactic(auto, unfolding(crate::specs::Reports::kept_fate))]
fn write_fate(
    out: &mut Vec<u8>,
    fates: &Fates,
    client: u32,
    kind: Kind,
    happened: &Happened,
) -> Result<(), NoMemory>
    ensures { OnOk result (out.new.items ≡ out.old.items ++ kept_fate fates.now.entries client kind happened.now) }
{
    let Some(number) = edit_in(happened, client, kind) else {
        return Ok(());
    };
    write_fate_line(out, client, kind, number, fates.get(&number).copied())
}

fn write_fates_by(
    out: &mut Vec<u8>,
    fates: &Fates,
    client: u32,
    kind: Kind,
    happened: &[Happened],
) -> Result<(), NoMemory>
    ensures { OnOk result (out.new.items ≡ out.old.items ++ flat_map (kept_fate fates.now.entries client kind) happened.now) }
{
    for item in happened {
        write_fate(out, fates, client, kind, item)?;
    }
    Ok(())
}

/// The fates of a client's edits of a type, by their numbers. It goes once over the settlements and once over the
/// events.
pub(crate) fn write_fates(
    out: &mut Vec<u8>,
    alloc: Global,
    happened: &[Happened],
    settlements: &[Settlement],
    client: u32,
    kind: Kind,
) -> Result<(), NoMemory>
    ensures { (history : List (EntryOf ContentOf)) → OnOk result (out.new.items
        ≡ out.old.items ++ fates_text (outcomes_of history (reverse happened.now)) settlements.now client kind) }
{
    let fates = fates_of(alloc, settlements, client, kind)?;
    write_fates_by(out, &fates, client, kind, happened)
}
