// The first steps of an independent model's schedules.
use super::*;
use std::test::Fail;
use sync_model::{Edit, Event};

#[test]
fn a_login_is_set(rt: HostRuntime) -> Result<(), Fail> {
    let schedule = generate(rt.alloc(), 4, 1, 7)?;
    assert_eq!(rt; schedule.clients, 4);
    assert_eq!(rt; schedule.seed, 7);
    match schedule.events.as_slice() {
        [
            Event::Edit {
                client,
                edit: Edit::SetPassword(login),
            },
        ] => {
            assert_eq!(rt; *client, 2);
            assert_eq!(rt; login.origin.as_slice(), b"https://s16.example/".as_slice());
            assert_eq!(rt; login.realm.as_slice(), b"https://s16.example/".as_slice());
            assert_eq!(rt; login.secret.as_slice(), b"w72".as_slice());
            assert_eq!(rt; login.created, 9);
        }
        _ => assert!(rt; false),
    }
    Ok(())
}

#[test]
fn no_steps_give_two_passphrases(rt: HostRuntime) -> Result<(), Fail> {
    let schedule = generate(rt.alloc(), 1, 0, 0)?;
    assert_eq!(rt; schedule.events.len(), 0);
    match schedule.passes.as_slice() {
        [first, second] => {
            assert_eq!(rt; first.as_slice(), b"first".as_slice());
            assert_eq!(rt; second.as_slice(), b"second".as_slice());
        }
        _ => assert!(rt; false),
    }
    Ok(())
}

#[test]
fn a_round_is_one_step(rt: HostRuntime) -> Result<(), Fail> {
    let schedule = generate(rt.alloc(), 3, 1, 0)?;
    assert_eq!(rt; schedule.events.len(), 21);
    assert!(rt; matches!(schedule.events.as_slice()[2], Event::Answer { event: 2 }));
    assert!(rt; matches!(schedule.events.as_slice()[14], Event::Answer { event: 14 }));
    Ok(())
}
