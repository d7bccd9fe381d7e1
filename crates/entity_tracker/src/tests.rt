// The story of a key, its states worked out by hand. The values are logins that differ in when they were made.
ghost use Rattle.std.specs.Prelude.{◌≡◌, []};
ghost use Rattle.sync_values.specs.declared.value.Value.TheVariants.{Password as login_value};

use crate::*;
use std::alloc::Global;
use sync_values::{Password, Value};
use wire_fields::Octets;

fn the_hash() -> TagHash {
    TagHash::from_bytes([7; 20])
}

fn login(alloc: Global, created: i64) -> Value
    ensures { result ≡ login_value (record { origin = []; user_element = []; user_value = []; pass_element = []; realm = []; secret = []; created = created; extra = [] }) }
{
    Value::Password(Password {
        origin: Octets::new(alloc),
        user_element: Octets::new(alloc),
        user_value: Octets::new(alloc),
        pass_element: Octets::new(alloc),
        realm: Octets::new(alloc),
        secret: Octets::new(alloc),
        created,
        extra: Octets::new(alloc),
    })
}

// When a login was made, and 0 for other values.
fn made(value: &Value) -> i64 {
    match value {
        Value::Password(login) => login.created,
        _ => 0,
    }
}

// What is known, when the base and the own value were made, and what is due.
fn state(tracker: &Tracker) -> (u64, i64, i64, Option<u64>) {
    (
        tracker.known(),
        made(tracker.base()),
        made(tracker.own()),
        tracker.due(),
    )
}

// What an offer says: how long the hash is, what is known, when the value was made, and the number.
fn offered(tracker: &Tracker) -> Option<(usize, u64, i64, u64)> {
    match tracker.offer() {
        Ok(offer) => Some((
            offer.hash.as_bytes().len(),
            offer.known,
            made(&offer.value),
            offer.number,
        )),
        Err(_) => None,
    }
}

fn update(alloc: Global, version: u64, value: Value) -> Update
    ensures version { result.version ≡ version }
    ensures value { result.value ≡ value }
{
    Update {
        hash: the_hash(),
        version,
        value,
        lock: None,
    }
}

fn ack(alloc: Global, version: u64, value: Value, number: u64) -> Ack
    ensures version { result.version ≡ version }
    ensures value { result.value ≡ value }
    ensures number { result.number ≡ number }
{
    Ack {
        hash: the_hash(),
        version,
        value,
        number,
        lock: Some(Octets::new(alloc)),
    }
}

#[test]
fn a_new_key_has_nothing(rt: HostRuntime) {
    let tracker = Tracker::fresh(rt.alloc(), the_hash());
    assert_eq!(rt; tracker.hash(), the_hash());
    assert_eq!(rt; tracker.sequence(), 0);
    assert_eq!(rt; tracker.acked(), 0);
    assert_eq!(rt; state(&tracker), (0, 0, 0, None));
    assert!(rt; tracker.lock().is_none());
}

#[test]
fn an_edit_is_sent_and_acknowledged(rt: HostRuntime) {
    let alloc = rt.alloc();
    let mut tracker = Tracker::fresh(alloc, the_hash());
    tracker.local_change(login(alloc, 1), 1);
    assert_eq!(rt; offered(&tracker), Some((20, 0, 1, 1)));
    tracker.local_change(login(alloc, 2), 3);
    assert_eq!(rt; state(&tracker), (0, 0, 2, Some(3)));
    let first = tracker.acknowledge(ack(alloc, 5, login(alloc, 1), 1), login(alloc, 1));
    assert_eq!(rt; first, Acked::Applied);
    assert_eq!(rt; state(&tracker), (5, 1, 2, Some(3)));
    assert!(rt; tracker.sequence() == 3);
    let again = tracker.acknowledge(ack(alloc, 5, login(alloc, 1), 1), login(alloc, 1));
    assert_eq!(rt; again, Acked::Old { known: 5 });
    assert!(rt; tracker.sequence() == 3);
    assert!(rt; tracker.acked() == 1);
    let second = tracker.acknowledge(ack(alloc, 6, login(alloc, 2), 3), login(alloc, 2));
    assert_eq!(rt; second, Acked::Applied);
    assert_eq!(rt; state(&tracker), (6, 2, 2, None));
}

#[test]
fn an_edit_meets_writes_of_its_key(rt: HostRuntime) {
    let alloc = rt.alloc();
    let mut tracker = Tracker::fresh(alloc, the_hash());
    tracker.local_change(login(alloc, 1), 1);
    tracker.keep_local(update(alloc, 2, Value::Absent));
    assert_eq!(rt; state(&tracker), (2, 0, 1, Some(1)));
    assert_eq!(rt; offered(&tracker), Some((20, 2, 1, 1)));
    tracker.accept_merged(update(alloc, 4, login(alloc, 7)), login(alloc, 8));
    assert_eq!(rt; state(&tracker), (4, 7, 8, Some(1)));
    tracker.accept_remote(update(alloc, 9, login(alloc, 3)), login(alloc, 3));
    assert_eq!(rt; state(&tracker), (9, 3, 3, None));
}

#[test]
fn a_value_under_another_key_is_sealed_anew(rt: HostRuntime) {
    let alloc = rt.alloc();
    let name = Octets::new(alloc);
    let mut tracker = Tracker::fresh(alloc, the_hash());
    tracker.accept_remote(update(alloc, 4, login(alloc, 3)), login(alloc, 3));
    assert!(rt; tracker.needs_seal(Some(&name)));
    assert!(rt; !tracker.needs_seal(None));
    tracker.local_change(login(alloc, 1), 1);
    assert!(rt; !tracker.needs_seal(Some(&name)));
    let _ = tracker.acknowledge(ack(alloc, 5, login(alloc, 1), 1), login(alloc, 1));
    assert!(rt; tracker.lock().is_some());
    assert!(rt; !tracker.needs_seal(Some(&name)));
    assert!(rt; tracker.copy().is_ok());
}

// Keeps that the own value was offered, and tells whether that was done.
#[tactic(auto, unfolding(sync_model::specs::KeyStates::noted))]
fn noted(tracker: &mut Tracker) -> bool
    ensures known { tracker.new.state.known ≡ tracker.old.state.known }
    ensures due { tracker.new.state.due ≡ tracker.old.state.due }
    ensures last { tracker.new.state.last_edit ≡ tracker.old.state.last_edit }
{
    match tracker.note_offered() {
        Ok(()) => true,
        Err(_) => false,
    }
}

// How many values are kept as offered, and the least number.
fn offers_kept(tracker: &Tracker) -> (usize, u64) {
    let pairs = tracker.offered();
    match pairs.first() {
        Some(pair) => (pairs.len(), pair.number),
        None => (0, 0),
    }
}

#[test]
fn an_offered_value_comes_back(rt: HostRuntime) {
    let alloc = rt.alloc();
    let one = login(alloc, 1);
    let two = login(alloc, 2);
    let mut tracker = Tracker::fresh(alloc, the_hash());
    tracker.local_change(login(alloc, 1), 1);
    assert!(rt; noted(&mut tracker));
    assert!(rt; !tracker.is_echo(&one));
    tracker.local_change(login(alloc, 2), 2);
    assert!(rt; noted(&mut tracker));
    assert!(rt; noted(&mut tracker));
    assert_eq!(rt; offers_kept(&tracker), (2, 1));
    assert!(rt; tracker.is_echo(&one));
    assert!(rt; !tracker.is_echo(&two));
    tracker.keep_local(update(alloc, 1, login(alloc, 1)));
    assert_eq!(rt; offers_kept(&tracker), (0, 0));
    assert!(rt; !tracker.is_echo(&one));
}

#[test]
fn eight_offered_values_are_kept(rt: HostRuntime) {
    let alloc = rt.alloc();
    let mut tracker = Tracker::fresh(alloc, the_hash());
    for number in 1..10 {
        if number > tracker.sequence() {
            tracker.local_change(login(alloc, 5), number);
        }
        assert!(rt; noted(&mut tracker));
    }
    assert_eq!(rt; offers_kept(&tracker), (8, 2));
}
