// The table's rows worked out by hand, and a rule that merges.
ghost use Rattle.std.specs.Prelude.{true};
ghost use Rattle.sync_model.specs.declared.conflict.Decision.TheVariants.{Merged};

use crate::*;
use std::alloc::Global;
use std::test::Fail;
use sync_values::{NigoriValue, PassKind, Password, Preference, Value};
use wire_fields::{List, NoMemory, Octets};

fn preference(alloc: Global, value: Octets) -> Value {
    known_by_newer(alloc, value, Octets::new(alloc))
}

// A preference with fields that only a newer client knows.
fn known_by_newer(alloc: Global, value: Octets, extra: Octets) -> Value {
    Value::Preference(Preference {
        name: Octets::new(alloc),
        value,
        extra,
    })
}

fn login(alloc: Global, secret: Octets, created: i64) -> Value {
    Value::Password(Password {
        origin: Octets::new(alloc),
        user_element: Octets::new(alloc),
        user_value: Octets::new(alloc),
        pass_element: Octets::new(alloc),
        realm: Octets::new(alloc),
        secret,
        created,
        extra: Octets::new(alloc),
    })
}

fn keys(alloc: Global, pass_kind: PassKind) -> Value {
    Value::Nigori(NigoriValue {
        lock: Octets::new(alloc),
        keys: List::new(alloc),
        pass_kind,
    })
}

// A rule under which the client's value stands for both.
struct OwnForBoth;

impl TypeRules for OwnForBoth {
    ghost use Rattle.std.proofs.Common.{rules};

    ghost decided = { λ _ local remote. Merged local };

    ghost wants_memory = { λ _. true };

    ghost keeps_type = { Prim.search rules };

    fn decide(&self, local: &Value, _remote: &Value) -> Result<Decision, NoMemory> {
        Ok(Decision::Merged(local.copy()?))
    }
}

// The row that fits is this one, and does what the word says, where the server's value was not offered.
fn settles<R: TypeRules>(
    rules: &R,
    values: (&Value, &Value, &Value),
    row: Row,
    done: &str,
) -> bool {
    settles_echo(rules, false, values, row, done)
}

// The same where the server's value was offered, if it was.
fn settles_echo<R: TypeRules>(
    rules: &R,
    echo: bool,
    values: (&Value, &Value, &Value),
    row: Row,
    done: &str,
) -> bool {
    match resolve(rules, echo, values.0, values.1, values.2) {
        Ok(resolution) => resolution.row == row && word(resolution.choice) == done,
        Err(NoMemory) => false,
    }
}

fn word(choice: Choice) -> &'static str {
    match choice {
        Choice::Same => "same",
        Choice::Remote => "remote",
        Choice::Local => "local",
        Choice::Merged(_) => "merged",
    }
}

#[test]
fn settles_values_by_the_first_row_that_fits(rt: HostRuntime) -> Result<(), Fail> {
    let rules = Preferences;
    let text = Octets::from_slice(rt.alloc(), b"2")?;
    let other_text = Octets::from_slice(rt.alloc(), b"9")?;
    let none = Value::Absent;
    let one = preference(rt.alloc(), Octets::new(rt.alloc()));
    let two = preference(rt.alloc(), text);
    let nine = preference(rt.alloc(), other_text);
    assert!(rt; settles(&rules, (&one, &two, &two), Row::C1, "same"));
    assert!(rt; settles(&rules, (&one, &none, &none), Row::C1, "same"));
    assert!(rt; settles(&rules, (&one, &none, &two), Row::C2, "remote"));
    assert!(rt; settles(&rules, (&none, &none, &two), Row::C2, "remote"));
    assert!(rt; settles(&rules, (&one, &one, &two), Row::C3, "remote"));
    assert!(rt; settles(&rules, (&one, &one, &none), Row::C3, "remote"));
    assert!(rt; settles(&rules, (&one, &two, &one), Row::C4, "local"));
    assert!(rt; settles(&rules, (&none, &two, &none), Row::C4, "local"));
    assert!(rt; settles(&rules, (&one, &two, &none), Row::C5, "local"));
    assert!(rt; settles(&rules, (&one, &two, &nine), Row::C6, "remote"));
    Ok(())
}

#[test]
fn keeps_the_own_value_where_an_earlier_one_comes_back(rt: HostRuntime) -> Result<(), Fail> {
    let rules = Preferences;
    let text = Octets::from_slice(rt.alloc(), b"2")?;
    let none = Value::Absent;
    let one = preference(rt.alloc(), Octets::new(rt.alloc()));
    let two = preference(rt.alloc(), text);
    assert!(rt; settles_echo(&rules, true, (&none, &two, &one), Row::C0, "local"));
    assert!(rt; settles_echo(&rules, true, (&none, &none, &one), Row::C0, "local"));
    assert!(rt; settles_echo(&rules, true, (&none, &two, &two), Row::C1, "same"));
    Ok(())
}

#[test]
fn compares_what_only_a_newer_client_knows(rt: HostRuntime) -> Result<(), Fail> {
    let extra = Octets::from_slice(rt.alloc(), b"\x18\x07")?;
    let none = Value::Absent;
    let own = preference(rt.alloc(), Octets::new(rt.alloc()));
    let newer = known_by_newer(rt.alloc(), Octets::new(rt.alloc()), extra);
    assert!(rt; settles(&Preferences, (&none, &own, &newer), Row::C6, "remote"));
    assert!(rt; settles(&Preferences, (&newer, &own, &newer), Row::C4, "local"));
    Ok(())
}

#[test]
fn takes_the_login_that_was_made_later(rt: HostRuntime) -> Result<(), Fail> {
    let secret = Octets::from_slice(rt.alloc(), b"remote")?;
    let none = Value::Absent;
    let own = login(rt.alloc(), Octets::new(rt.alloc()), 5);
    let later = login(rt.alloc(), Octets::new(rt.alloc()), 6);
    let remote = login(rt.alloc(), secret, 5);
    assert!(rt; settles(&Passwords, (&none, &own, &remote), Row::C6, "remote"));
    assert!(rt; settles(&Passwords, (&none, &later, &remote), Row::C6, "local"));
    assert!(rt; settles(&Passwords, (&none, &own, &later), Row::C6, "remote"));
    Ok(())
}

#[test]
fn takes_the_keys_of_the_server(rt: HostRuntime) {
    let none = Value::Absent;
    let own = keys(rt.alloc(), PassKind::Custom);
    let remote = keys(rt.alloc(), PassKind::Keystore);
    assert!(rt; settles(&NigoriRules, (&none, &own, &remote), Row::C6, "remote"));
    assert!(rt; settles(&NigoriRules, (&none, &own, &own), Row::C1, "same"));
    assert!(rt; settles(&NigoriRules, (&own, &none, &remote), Row::C2, "remote"));
    assert!(rt; settles(&NigoriRules, (&remote, &own, &none), Row::C5, "local"));
}

#[test]
fn merges_where_the_rule_does(rt: HostRuntime) {
    let one = login(rt.alloc(), Octets::new(rt.alloc()), 1);
    let two = login(rt.alloc(), Octets::new(rt.alloc()), 2);
    let nine = login(rt.alloc(), Octets::new(rt.alloc()), 9);
    assert!(rt; settles(&OwnForBoth, (&one, &two, &nine), Row::C6, "merged"));
    assert!(rt; settles(&OwnForBoth, (&one, &two, &one), Row::C4, "local"));
    assert!(rt; settles(&OwnForBoth, (&one, &one, &nine), Row::C3, "remote"));
}
