// The story of a login in two values, its fates worked out by hand from the conflict table, and the limits. Its hash was
// computed with Python's hashlib.
ghost use Rattle.std.specs.Prelude.{◌≡◌, ◌≤◌, [], true, None, IsTrue, IfOk};
ghost use Rattle.client_tags.specs.declared.Kind.TheVariants.{Nigori as nigori_kind, Preference as preference_kind, Password as password_kind};
ghost use Rattle.sync_values.specs.declared.value.Value.TheVariants.{Password as login_value};
ghost use Rattle.sync_model.specs.Edits.{edit_kind};
ghost use Rattle.type_processor.specs.Fits.{LAST_VERSION, IsUpdateOf, IsAckOf};

use crate::*;
use std::alloc::Global;
use std::test::Fail;
use sync_model::Row;
use sync_values::{NigoriValue, PassKind, Password, Preference};
use wire_fields::{List, NoMemory, Octets};

// The hash of the login whose texts are all empty.
const HASH: &[u8; 28] = b"UczXQr7uvsFbYJHfx4Wvc2SjRaU=";

fn login(alloc: Global, created: i64) -> Password {
    Password {
        origin: Octets::new(alloc),
        user_element: Octets::new(alloc),
        user_value: Octets::new(alloc),
        pass_element: Octets::new(alloc),
        realm: Octets::new(alloc),
        secret: Octets::new(alloc),
        created,
        extra: Octets::new(alloc),
    }
}

fn login_edit(alloc: Global, created: i64) -> Edit
    ensures { edit_kind result ≡ password_kind }
{
    Edit::SetPassword(login(alloc, created))
}

// When a login was made, and 0 for other values.
fn made(value: &Value) -> i64 {
    match value {
        Value::Password(login) => login.created,
        _ => 0,
    }
}

fn update(alloc: Global, hash: TagHash, version: u64, created: i64) -> Update
    requires { version ≤ LAST_VERSION }
    ensures { IsUpdateOf password_kind result }
{
    Update {
        hash,
        version,
        value: Value::Password(login(alloc, created)),
        lock: None,
    }
}

fn ack(alloc: Global, hash: TagHash, version: u64, number: u64) -> Ack
    requires { version ≤ LAST_VERSION }
    ensures { IsAckOf password_kind result }
{
    Ack {
        hash,
        version,
        value: Value::Password(login(alloc, 1)),
        number,
        lock: None,
    }
}

// The login's hash.
fn login_hash() -> TagHash {
    match TagHash::from_text(HASH) {
        Some(hash) => hash,
        None => TagHash::from_bytes([0; 20]),
    }
}

fn post_update(
    processor: &mut Processor<Passwords>,
    alloc: Global,
    version: u64,
    created: i64,
) -> Result<(), NoMemory>
    requires kind { processor.old.kind ≡ password_kind }
    requires version { version ≤ LAST_VERSION }
    ensures { processor.new.kind ≡ password_kind }
{
    let update = update(alloc, login_hash(), version, created);
    let mut updates = List::new(alloc);
    updates.push(update)?;
    let mark = version;
    processor.post(Task::Batch(Batch { updates, mark }))
}

fn post_ack(
    processor: &mut Processor<Passwords>,
    alloc: Global,
    version: u64,
    number: u64,
) -> Result<(), NoMemory>
    requires kind { processor.old.kind ≡ password_kind }
    requires version { version ≤ LAST_VERSION }
    ensures { processor.new.kind ≡ password_kind }
{
    let ack = ack(alloc, login_hash(), version, number);
    let mut acks = List::new(alloc);
    acks.push(ack)?;
    processor.post(Task::Acks(acks))
}

// The numbers of an edit of the login, if it is taken.
fn edit(
    processor: &mut Processor<Passwords>,
    alloc: Global,
    created: i64,
) -> Option<(u64, Option<u64>)>
    requires { processor.old.kind ≡ password_kind }
    ensures { processor.new.kind ≡ password_kind }
{
    match processor.edit(login_edit(alloc, created)) {
        Ok(edited) => Some((edited.number, edited.followed)),
        Err(_) => None,
    }
}

// How many edits a turn settles, and the first one's fate.
fn turn<R: TypeRules>(processor: &mut Processor<R>) -> Option<(usize, Option<Note>)>
    ensures { processor.new.kind ≡ processor.old.kind }
{
    match processor.turn() {
        Ok(Turn::Turned(notes)) => Some((notes.len(), notes.as_slice().first().copied())),
        _ => None,
    }
}

// The known version, when the own value was made, and the number of the first offer.
fn first_offer<R: TypeRules>(processor: &mut Processor<R>) -> Option<(u64, i64, u64)>
    ensures { processor.new.kind ≡ processor.old.kind }
{
    match processor.offers(None, 25) {
        Ok(offers) => match offers.as_slice().first() {
            Some(offer) => Some((offer.known, made(&offer.value), offer.number)),
            None => None,
        },
        Err(NoMemory) => None,
    }
}

#[test]
fn two_edits_follow_each_other(rt: HostRuntime) {
    let mut processor = Processor::new(rt.alloc(), Kind::Password, Passwords);
    assert_eq!(rt; edit(&mut processor, rt.alloc(), 1), Some((1, None)));
    assert_eq!(rt; edit(&mut processor, rt.alloc(), 2), Some((2, Some(1))));
    assert_eq!(rt; first_offer(&mut processor), Some((0, 2, 2)));
    assert_eq!(rt; processor.due_count(), 1);
    assert_eq!(rt; processor.last_edit(), 2);
}

#[test]
fn an_acknowledgement_ends_the_edit_that_was_sent(rt: HostRuntime) -> Result<(), Fail> {
    let mut processor = Processor::new(rt.alloc(), Kind::Password, Passwords);
    assert_eq!(rt; edit(&mut processor, rt.alloc(), 1), Some((1, None)));
    post_ack(&mut processor, rt.alloc(), 5, 1)?;
    assert_eq!(rt; processor.mailbox_len(), 1);
    let note = Note {
        number: 1,
        fate: Fate::Committed(5),
    };
    assert_eq!(rt; turn(&mut processor), Some((1, Some(note))));
    assert_eq!(rt; turn(&mut processor), None);
    assert_eq!(rt; first_offer(&mut processor), None);
    Ok(())
}

#[test]
fn a_write_meets_an_edit(rt: HostRuntime) -> Result<(), Fail> {
    let mut processor = Processor::new(rt.alloc(), Kind::Password, Passwords);
    assert_eq!(rt; edit(&mut processor, rt.alloc(), 2), Some((1, None)));
    post_update(&mut processor, rt.alloc(), 7, 9)?;
    let note = Note {
        number: 1,
        fate: Fate::Taken {
            version: 7,
            row: Row::C6,
        },
    };
    assert_eq!(rt; turn(&mut processor), Some((1, Some(note))));
    assert_eq!(rt; processor.mark(), 7);
    assert_eq!(rt; processor.due_count(), 0);
    Ok(())
}

#[test]
fn an_old_write_changes_nothing(rt: HostRuntime) -> Result<(), Fail> {
    let mut processor = Processor::new(rt.alloc(), Kind::Password, Passwords);
    post_update(&mut processor, rt.alloc(), 7, 9)?;
    post_update(&mut processor, rt.alloc(), 3, 4)?;
    assert_eq!(rt; turn(&mut processor), Some((0, None)));
    assert_eq!(rt; turn(&mut processor), Some((0, None)));
    assert_eq!(rt; processor.mark(), 7);
    Ok(())
}

// When the own value of the login was made.
fn own_made(processor: &Processor<Passwords>) -> Option<i64> {
    match processor.value(&login_hash()) {
        Ok(Some(value)) => Some(made(&value)),
        _ => None,
    }
}

#[test]
fn trackers_are_shown(rt: HostRuntime) {
    let mut processor = Processor::new(rt.alloc(), Kind::Password, Passwords);
    assert_eq!(rt; edit(&mut processor, rt.alloc(), 4), Some((1, None)));
    assert_eq!(rt; own_made(&processor), Some(4));
    assert!(rt; processor.trackers().next().is_some());
    assert!(rt; processor.tracker(&login_hash()).is_some());
    assert!(rt; processor.kind() == Kind::Password);
}

// How many trackers a list has.
fn listed<R: TypeRules>(processor: &Processor<R>) -> Option<usize> {
    match processor.list() {
        Ok(list) => Some(list.len()),
        Err(NoMemory) => None,
    }
}

fn keys(alloc: Global) -> Edit
    ensures { edit_kind result ≡ nigori_kind }
{
    Edit::SetNigori(NigoriValue {
        lock: Octets::new(alloc),
        keys: List::new(alloc),
        pass_kind: PassKind::Custom,
    })
}

#[test]
fn a_profile_has_its_keys(rt: HostRuntime) {
    let mut processor = Processor::new(rt.alloc(), Kind::Nigori, NigoriRules);
    let edited = processor.edit(keys(rt.alloc()));
    let first = Edited {
        number: 1,
        followed: None,
    };
    assert_eq!(rt; edited, Ok(first));
    assert_eq!(rt; listed(&processor), Some(1));
    assert_eq!(rt; processor.reseal_count(None), 0);
    assert_eq!(rt; turn(&mut processor), None);
}

// The edit of a preference without a name whose value has so many bytes.
fn long_edit(alloc: Global, len: usize) -> Result<Edit, NoMemory>
    ensures { IfOk result (λ edit. edit_kind edit ≡ preference_kind) }
{
    let bytes = Vec::from_elem(alloc, 7, len)?;
    Ok(Edit::SetPreference(Preference {
        name: Octets::new(alloc),
        value: Octets::from_vec(bytes),
        extra: Octets::new(alloc),
    }))
}

#[test]
fn texts_have_16384_bytes(rt: HostRuntime) -> Result<(), Fail> {
    let mut processor = Processor::new(rt.alloc(), Kind::Preference, Preferences);
    let edit = long_edit(rt.alloc(), 16_384)?;
    assert_eq!(rt; processor.may_edit(&edit), Ok(()));
    assert!(rt; processor.edit(edit).is_ok());
    Ok(())
}

#[test]
fn texts_have_no_more(rt: HostRuntime) -> Result<(), Fail> {
    let mut processor = Processor::new(rt.alloc(), Kind::Preference, Preferences);
    let edit = long_edit(rt.alloc(), 16_385)?;
    let fault = EditFault::TooLong { len: 16_385 };
    assert_eq!(rt; processor.may_edit(&edit), Err(fault));
    assert_eq!(rt; processor.edit(edit), Err(fault));
    assert_eq!(rt; processor.last_edit(), 0);
    Ok(())
}

#[test]
fn an_earlier_offer_comes_back(rt: HostRuntime) -> Result<(), Fail> {
    let mut processor = Processor::new(rt.alloc(), Kind::Password, Passwords);
    assert_eq!(rt; edit(&mut processor, rt.alloc(), 9), Some((1, None)));
    assert_eq!(rt; first_offer(&mut processor), Some((0, 9, 1)));
    assert_eq!(rt; edit(&mut processor, rt.alloc(), 3), Some((2, Some(1))));
    assert_eq!(rt; first_offer(&mut processor), Some((0, 3, 2)));
    post_update(&mut processor, rt.alloc(), 1, 9)?;
    assert_eq!(rt; turn(&mut processor), Some((0, None)));
    assert_eq!(rt; first_offer(&mut processor), Some((1, 3, 2)));
    Ok(())
}

#[test]
fn an_acknowledgement_of_an_unknown_key_is_kept(rt: HostRuntime) -> Result<(), Fail> {
    let mut processor = Processor::new(rt.alloc(), Kind::Password, Passwords);
    post_ack(&mut processor, rt.alloc(), 5, 1)?;
    assert_eq!(rt; turn(&mut processor), Some((0, None)));
    assert_eq!(rt; listed(&processor), Some(0));
    post_ack(&mut processor, rt.alloc(), 5, 0)?;
    assert_eq!(rt; turn(&mut processor), Some((0, None)));
    assert_eq!(rt; listed(&processor), Some(1));
    Ok(())
}

fn preference(alloc: Global, extra: Octets) -> Preference {
    Preference {
        name: Octets::new(alloc),
        value: Octets::new(alloc),
        extra,
    }
}

// An edit of a preference is taken.
fn takes(processor: &mut Processor<Preferences>, edit: Edit) -> bool
    requires kind { processor.old.kind ≡ preference_kind }
    requires edit { edit_kind edit ≡ preference_kind }
    ensures { processor.new.kind ≡ preference_kind }
{
    match processor.edit(edit) {
        Ok(_) => true,
        Err(_) => false,
    }
}

// How many bytes of unknown fields the first key's own value has.
fn own_extra(processor: &Processor<Preferences>) -> Option<usize> {
    match processor.trackers().next() {
        Some(tracker) => match tracker.own() {
            Value::Preference(preference) => Some(preference.extra.len()),
            _ => None,
        },
        None => None,
    }
}

#[test]
fn a_set_edit_keeps_what_a_newer_client_knows(rt: HostRuntime) -> Result<(), Fail> {
    let extra = Octets::from_slice(rt.alloc(), b"\x18\x07")?;
    let mut processor = Processor::new(rt.alloc(), Kind::Preference, Preferences);
    let newer = Edit::NewerPreference(preference(rt.alloc(), extra));
    assert!(rt; takes(&mut processor, newer));
    let set = Edit::SetPreference(preference(rt.alloc(), Octets::new(rt.alloc())));
    assert!(rt; takes(&mut processor, set));
    assert_eq!(rt; own_extra(&processor), Some(2));
    let bare = Edit::NewerPreference(preference(rt.alloc(), Octets::new(rt.alloc())));
    assert!(rt; takes(&mut processor, bare));
    assert_eq!(rt; own_extra(&processor), Some(0));
    Ok(())
}
