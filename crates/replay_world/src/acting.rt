//! The events of a client that send nothing.
ghost use Rattle.std.specs.Prelude.{◌≡◌, List, length, IfOk, OnErr};
ghost use Rattle.client_tags.specs.declared.Kind.TheVariants.{Preference as preference_kind};
ghost use Rattle.sync_model.specs.declared.event.EventOutcome.{EventOutcome as OutcomeOf};
ghost use Rattle.sync_model.specs.declared.message.Content.{Content as ContentOf};
ghost use Rattle.sync_model.specs.declared.message.Entry.{Entry as EntryOf};
ghost use Rattle.sync_specifics.specs.Extras.{IsCanonicalEdit};
ghost use Rattle.sync_model.specs.Changes.{change_effect};
ghost use Rattle.sync_model.specs.Edits.{edit_kind};
ghost use Rattle.sync_model.specs.Receiving.{turn_effect, post_effect};
ghost use Rattle.sync_model.specs.Sending.{gather_effect};
ghost use Rattle.run_setting.specs.Hashed.{hashed};
ghost use Rattle.replay_world.specs.Asked.{IsQuietOutcome};
ghost use Rattle.replay_world.specs.Events.{IsNumber};
ghost use Rattle.replay_world.specs.Outcomes.{IsQuiet, outcome_of};
ghost use Rattle.replay_world.specs.Steps.{Acts, ActsAlone};

use crate::happened::Happened;
use replay_client::Client;
use sync_model::{Edit, EventOutcome, Kind, Settlement};
use wire_fields::NoMemory;

/// What came of an event that made no message, as it is kept.
pub(crate) fn quiet(outcome: EventOutcome) -> Happened
    requires { IsQuietOutcome outcome }
    ensures quiet { IsQuiet result }
    ensures same { (history : List (EntryOf ContentOf)) (earlier : List OutcomeOf) → outcome_of history earlier result ≡ outcome }
{
    match outcome {
        EventOutcome::Void => Happened::Void,
        EventOutcome::Done => Happened::Done,
        EventOutcome::Edited {
            client,
            kind,
            number,
        } => Happened::Edited {
            client,
            kind,
            number,
        },
        EventOutcome::Requested { .. } | EventOutcome::Delivered { .. } => unreachable!(),
    }
}

/// The user of a client edits a preference.
pub(crate) fn edit(
    clients: &mut [Client],
    number: u32,
    edit: &Edit,
    settlements: &mut Vec<Settlement>,
) -> Result<Happened, NoMemory>
    requires number { IsNumber (length clients.old) number }
    requires preference { edit_kind edit.now ≡ preference_kind }
    requires canonical { IsCanonicalEdit edit.now }
    ensures acts { IfOk result (Acts number (change_effect hashed number edit.now) clients.old clients.new settlements.old.items settlements.new.items) }
    ensures clients { OnErr result (clients.new ≡ clients.old) }
    ensures settlements { OnErr result (settlements.new.items ≡ settlements.old.items) }
{
    let outcome = clients[number as usize - 1].edit(number, edit, settlements)?;
    Ok(quiet(outcome))
}

/// A client's processor of a type applies the first task of its mailbox.
pub(crate) fn turn(
    clients: &mut [Client],
    number: u32,
    kind: Kind,
    settlements: &mut Vec<Settlement>,
) -> Result<Happened, NoMemory>
    requires number { IsNumber (length clients.old) number }
    ensures acts { IfOk result (Acts number (turn_effect hashed kind) clients.old clients.new settlements.old.items settlements.new.items) }
    ensures clients { OnErr result (clients.new ≡ clients.old) }
    ensures settlements { OnErr result (settlements.new.items ≡ settlements.old.items) }
{
    let outcome = clients[number as usize - 1].turn(number, kind, settlements)?;
    Ok(quiet(outcome))
}

/// A client takes what is to be sent of a type into its next commit.
pub(crate) fn gather(clients: &mut [Client], number: u32, kind: Kind) -> Result<Happened, NoMemory>
    requires number { IsNumber (length clients.old) number }
    ensures acts { IfOk result (ActsAlone number (gather_effect hashed number kind) clients.old clients.new) }
    ensures clients { OnErr result (clients.new ≡ clients.old) }
{
    let outcome = clients[number as usize - 1].gather(kind)?;
    Ok(quiet(outcome))
}

/// A client hands a type what the last reply says of it.
pub(crate) fn post(clients: &mut [Client], number: u32, kind: Kind) -> Result<Happened, NoMemory>
    requires number { IsNumber (length clients.old) number }
    ensures acts { IfOk result (ActsAlone number (post_effect hashed kind) clients.old clients.new) }
    ensures clients { OnErr result (clients.new ≡ clients.old) }
{
    let outcome = clients[number as usize - 1].post(kind)?;
    Ok(quiet(outcome))
}
