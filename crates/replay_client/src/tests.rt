// The story of a preference on two clients, its numbers worked out by hand from what a commit and a get-updates say and from
// the conflict table.
ghost use Rattle.std.specs.Prelude.{◌≡◌, [], IfOk};
ghost use Rattle.client_tags.specs.declared.Kind.TheVariants.{Preference as preference_kind};
ghost use Rattle.sync_messages.specs.Laws.{HasCanonicalReply};
ghost use Rattle.sync_model.specs.Edits.{edit_kind};
ghost use Rattle.sync_specifics.specs.Extras.{IsCanonicalEdit};
ghost use Rattle.replay_client.specs.Happenings.{IsPlainOutcome};

use crate::*;
use client_tags::tag_hash;
use progress_marker::Mark;
use std::alloc::Global;
use std::test::Fail;
use sync_messages::{Entity, EntryAnswer, Marker, Outcome, Reply, Updates};
use sync_model::{Fate, Row, Value};
use sync_specifics::Specifics;
use sync_values::Preference;
use wire_fields::{List, NoMemory, Octets};

fn preference(alloc: Global, value: &[u8]) -> Result<Preference, NoMemory>
    ensures { IfOk result (λ preference. preference.extra ≡ []) }
{
    Ok(Preference {
        name: Octets::from_slice(alloc, b"a")?,
        value: Octets::from_slice(alloc, value)?,
        extra: Octets::new(alloc),
    })
}

fn edit_to(alloc: Global, value: &[u8]) -> Result<Edit, NoMemory>
    ensures kind { IfOk result (λ edit. edit_kind edit ≡ preference_kind) }
    ensures canonical { IfOk result IsCanonicalEdit }
{
    Ok(Edit::SetPreference(preference(alloc, value)?))
}

// A reply that stores the one entry of a commit as the write of this version.
fn stored(alloc: Global, version: i64) -> Result<FromServer, NoMemory>
    ensures { IfOk result (λ message. HasCanonicalReply message.reply) }
{
    let mut answers = List::new(alloc);
    answers.push(EntryAnswer {
        outcome: Outcome::Success,
        id: Octets::new(alloc),
        version,
    })?;
    Ok(FromServer {
        birthday: Some(Octets::from_slice(alloc, b"store")?),
        reply: Reply::Committed(answers),
    })
}

// A reply that tells one write of the preference, and that it is the last one.
#[tactic(auto, using(replay_messages::proofs::NoExtra::no_extra))]
fn told(alloc: Global, version: i64, mark: u64, value: &[u8]) -> Result<FromServer, NoMemory>
    ensures { IfOk result (λ message. HasCanonicalReply message.reply) }
{
    let mut entries = List::new(alloc);
    entries.push(Entity {
        id: Octets::new(alloc),
        version,
        deleted: false,
        specifics: Some(Specifics::Preference(preference(alloc, value)?)),
        hash: Some(tag_hash(Kind::Preference, b"a")),
    })?;
    let mut marks = List::new(alloc);
    marks.push(Marker {
        kind: Kind::Preference,
        mark: Mark { version: mark },
    })?;
    Ok(FromServer {
        birthday: None,
        reply: Reply::Updates(Updates {
            entries,
            remaining: 0,
            marks,
        }),
    })
}

fn edited(
    client: &mut Client,
    alloc: Global,
    value: &[u8],
    settlements: &mut Vec<Settlement>,
) -> Result<(), NoMemory> {
    let edit = edit_to(alloc, value)?;
    let _ = client.edit(1, &edit, settlements);
    Ok(())
}

// A message reaches the client as the reply to what this event requested.
fn answered(client: &mut Client, made: &EventOutcome, message: &FromServer) -> bool
    requires made { IsPlainOutcome made.now }
    requires canonical { HasCanonicalReply message.now.reply }
{
    match made {
        EventOutcome::Requested { request, .. } => client.answer(request, message).is_ok(),
        _ => false,
    }
}

// The client commits what is due, and this is the reply.
fn commits(client: &mut Client, message: &FromServer) -> Result<bool, NoMemory>
    requires { HasCanonicalReply message.now.reply }
{
    client.gather(Kind::Preference)?;
    let made = client.offer(1, 5)?;
    Ok(answered(client, &made, message))
}

// The client asks for updates, and this is the reply.
fn asks(client: &mut Client, message: &FromServer) -> Result<bool, NoMemory>
    requires { HasCanonicalReply message.now.reply }
{
    let made = client.ask(1, 6)?;
    Ok(answered(client, &made, message))
}

// What the reply says is posted, and its turn comes.
fn applied(client: &mut Client, settlements: &mut Vec<Settlement>) -> Result<(), NoMemory> {
    client.post(Kind::Preference)?;
    client.turn(1, Kind::Preference, settlements)?;
    Ok(())
}

// The version and the first byte that are known and shown of the first preference.
fn shown(client: &Client) -> Option<(u64, u8)> {
    let tracker = client.states(Kind::Preference).next()?;
    match tracker.own() {
        Value::Preference(preference) => {
            let first = preference.value.as_slice().first()?;
            Some((tracker.known(), *first))
        }
        _ => None,
    }
}

// The mark, what is due and to be sealed anew, and what waits.
fn counts(client: &Client) -> (u64, u64, u64, u64, u64) {
    let kind = Kind::Preference;
    (
        client.mark(kind),
        client.due_count(kind),
        client.reseal_count(kind),
        client.pending_count(kind),
        client.mailbox_len(kind),
    )
}

fn last_fate(settlements: &[Settlement]) -> Option<(u64, Fate)> {
    let settlement = settlements.last()?;
    Some((settlement.number, settlement.fate))
}

#[test]
fn an_edit_is_committed(rt: HostRuntime) -> Result<(), Fail> {
    let alloc = rt.alloc();
    let message = stored(alloc, 1)?;
    let mut client = Client::new(alloc);
    let mut settlements = Vec::new(alloc);
    assert!(rt; client.is_caught_up(0));
    assert!(rt; edited(&mut client, alloc, b"1", &mut settlements).is_ok());
    assert_eq!(rt; counts(&client), (0, 1, 0, 0, 0));
    assert!(rt; !client.is_side_caught_up(Kind::Preference, 0));
    assert!(rt; matches!(commits(&mut client, &message), Ok(true)));
    assert!(rt; applied(&mut client, &mut settlements).is_ok());
    assert_eq!(rt; counts(&client), (0, 0, 0, 0, 0));
    assert_eq!(rt; shown(&client), Some((1, b'1')));
    assert_eq!(rt; last_fate(&settlements), Some((1, Fate::Committed(1))));
    Ok(())
}

#[test]
fn an_edit_gives_way_to_another_value(rt: HostRuntime) -> Result<(), Fail> {
    let alloc = rt.alloc();
    let message = told(alloc, 4, 7, b"3")?;
    let mut client = Client::new(alloc);
    let mut settlements = Vec::new(alloc);
    assert!(rt; edited(&mut client, alloc, b"2", &mut settlements).is_ok());
    assert!(rt; matches!(asks(&mut client, &message), Ok(true)));
    assert!(rt; applied(&mut client, &mut settlements).is_ok());
    assert_eq!(rt; counts(&client), (7, 0, 0, 0, 0));
    assert_eq!(rt; shown(&client), Some((4, b'3')));
    let fate = Fate::Taken {
        version: 4,
        row: Row::C6,
    };
    assert_eq!(rt; last_fate(&settlements), Some((1, fate)));
    assert!(rt; client.is_side_caught_up(Kind::Preference, 7));
    assert!(rt; !client.is_caught_up(7));
    every_reply_is_taken();
    Ok(())
}
