use super::*;

#[test]
fn a_repeated_commit_is_a_conflict(rt: HostRuntime) -> Result<(), Fail> {
    let alloc = rt.alloc();
    let mut server = server(alloc)?;
    let answer = commit(alloc, &mut server, preference(alloc, 0, 0)?)?;
    assert!(rt; is_answer(&answer, Outcome::Success, NAME, 1));
    let answer = commit(alloc, &mut server, preference(alloc, 0, 0)?)?;
    assert!(rt; is_answer(&answer, Outcome::Conflict, b"", 0));
    assert_eq!(rt; server.counter(), 1);
    Ok(())
}

#[test]
fn a_commit_needs_the_last_version(rt: HostRuntime) -> Result<(), Fail> {
    let alloc = rt.alloc();
    let mut server = server(alloc)?;
    commit(alloc, &mut server, preference(alloc, 0, 0)?)?;
    let answer = commit(alloc, &mut server, preference(alloc, 0, 1)?)?;
    assert!(rt; is_answer(&answer, Outcome::Success, NAME, 2));
    for version in [0, 1, 3, -1, i64::MIN, i64::MAX] {
        let answer = commit(alloc, &mut server, preference(alloc, 0, version)?)?;
        assert!(rt;
            is_answer(&answer, Outcome::Conflict, b"", 0),
            "at {version}"
        );
    }
    assert_eq!(rt; server.counter(), 2);
    Ok(())
}

#[test]
fn an_entity_without_hash_is_invalid(rt: HostRuntime) -> Result<(), Fail> {
    let alloc = rt.alloc();
    let mut server = server(alloc)?;
    let mut entity = preference(alloc, 0, 0)?;
    entity.hash = None;
    let answer = commit(alloc, &mut server, entity)?;
    assert!(rt; is_answer(&answer, Outcome::Invalid, b"", 0));
    let mut entity = preference(alloc, 0, 0)?;
    entity.specifics = None;
    let answer = commit(alloc, &mut server, entity)?;
    assert!(rt; is_answer(&answer, Outcome::Invalid, b"", 0));
    assert_eq!(rt; server.counter(), 0);
    Ok(())
}

#[test]
fn a_deleted_nigori_and_an_empty_entity_are_invalid(rt: HostRuntime) -> Result<(), Fail> {
    let alloc = rt.alloc();
    let mut server = server(alloc)?;
    let answer = commit(alloc, &mut server, deletion(alloc, Kind::Nigori, 0, 0))?;
    assert!(rt; is_answer(&answer, Outcome::Invalid, b"", 0));
    let empty = entity(alloc, Specifics::EmptyOf(Kind::Preference), 0, 0, false);
    let answer = commit(alloc, &mut server, empty)?;
    assert!(rt; is_answer(&answer, Outcome::Invalid, b"", 0));
    assert_eq!(rt; server.counter(), 0);
    Ok(())
}

#[test]
fn another_birthday_is_refused(rt: HostRuntime) -> Result<(), Fail> {
    let alloc = rt.alloc();
    let mut server = server(alloc)?;
    let mut message = commit_of(alloc, preference(alloc, 0, 0)?)?;
    message.birthday = Some(Octets::from_slice(alloc, b"there")?);
    let answer = server.handle(&message)?;
    assert!(rt; matches!(&answer.reply, Reply::Refused(2)));
    assert!(rt; answer.birthday == Some(Octets::from_slice(alloc, b"here")?));
    assert_eq!(rt; server.counter(), 0);
    Ok(())
}

#[test]
fn writes_are_taken_back(rt: HostRuntime) -> Result<(), Fail> {
    let alloc = rt.alloc();
    let mut server = server(alloc)?;
    commit(alloc, &mut server, preference(alloc, 0, 0)?)?;
    commit(alloc, &mut server, preference(alloc, 0, 1)?)?;
    commit(alloc, &mut server, password(alloc, 1, 0)?)?;
    let last_two = (server.counter() as usize).min(2);
    server.take_back(last_two);
    assert_eq!(rt; server.counter(), 1);
    // The preference has version 1 again, and the password has none.
    let answer = commit(alloc, &mut server, preference(alloc, 0, 1)?)?;
    assert!(rt; is_answer(&answer, Outcome::Success, NAME, 2));
    let entities = server.entities()?;
    let listed = versions(alloc, entities.as_slice())?;
    assert_eq!(rt; listed.as_slice(), [2].as_slice());
    Ok(())
}
