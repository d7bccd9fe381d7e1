use super::*;

// One entity is told: the deletion of the preference whose hash is zero, of version 2.
fn is_deletion(entities: &[Entity]) -> bool {
    match entities {
        [entity] => {
            entity.id.as_slice() == NAME
                && entity.version == 2
                && entity.deleted
                && matches!(
                    &entity.specifics,
                    Some(Specifics::EmptyOf(Kind::Preference))
                )
                && entity.hash == Some(TagHash::from_bytes([0; 20]))
        }
        _ => false,
    }
}

#[test]
fn a_deletion_is_told(rt: HostRuntime) -> Result<(), Fail> {
    let alloc = rt.alloc();
    let mut server = server(alloc)?;
    commit(alloc, &mut server, preference(alloc, 0, 0)?)?;
    commit(alloc, &mut server, deletion(alloc, Kind::Preference, 0, 1))?;
    let told = updates_above(alloc, &mut server, &[(Kind::Preference, 0)])?;
    assert!(rt; is_deletion(told.entries.as_slice()));
    Ok(())
}

#[test]
fn each_type_has_its_mark(rt: HostRuntime) -> Result<(), Fail> {
    let alloc = rt.alloc();
    let mut server = server(alloc)?;
    for number in 0..3 {
        commit(alloc, &mut server, preference(alloc, number, 0)?)?;
        commit(alloc, &mut server, password(alloc, number, 0)?)?;
    }
    let asked = [(Kind::Password, 3), (Kind::Preference, 1)];
    let told = updates_above(alloc, &mut server, &asked)?;
    let entries = versions(alloc, told.entries.as_slice())?;
    assert_eq!(rt; entries.as_slice(), [3, 4, 5, 6].as_slice());
    assert_eq!(rt; told.remaining, 0);
    let new_marks = marks(alloc, told.marks.as_slice())?;
    let wanted = [(Kind::Preference, 6), (Kind::Password, 6)];
    assert_eq!(rt; new_marks.as_slice(), wanted.as_slice());
    Ok(())
}

#[test]
fn the_last_mark_of_a_type_counts(rt: HostRuntime) -> Result<(), Fail> {
    let alloc = rt.alloc();
    let mut server = server(alloc)?;
    for number in 0..3 {
        commit(alloc, &mut server, preference(alloc, number, 0)?)?;
    }
    let asked = [(Kind::Preference, 0), (Kind::Preference, 2)];
    let told = updates_above(alloc, &mut server, &asked)?;
    let entries = versions(alloc, told.entries.as_slice())?;
    assert_eq!(rt; entries.as_slice(), [3].as_slice());
    let new_marks = marks(alloc, told.marks.as_slice())?;
    assert_eq!(rt; new_marks.as_slice(), [(Kind::Preference, 3)].as_slice());
    Ok(())
}

// Stores the entity of an odd version as a preference, and that of an even one as a password.
fn store_next(alloc: Global, server: &mut Server, version: u16) -> Result<(), NoMemory> {
    let mut entity = if version % 2 == 1 {
        preference(alloc, 0, 0)?
    } else {
        password(alloc, 0, 0)?
    };
    let mut bytes = [0; 20];
    let [high, low] = version.to_be_bytes();
    bytes[0] = high;
    bytes[1] = low;
    entity.hash = Some(TagHash::from_bytes(bytes));
    commit(alloc, server, entity)?;
    Ok(())
}

#[test]
fn a_reply_has_five_hundred_entities(rt: HostRuntime) -> Result<(), Fail> {
    let alloc = rt.alloc();
    let mut server = server(alloc)?;
    for version in 1..701 {
        store_next(alloc, &mut server, version)?;
    }
    assert_eq!(rt; server.counter(), 700);
    // Preferences 7, 9, .. 699 and passwords 102, 104, .. 700: 647 of them. The first 48 are preferences up to 101,
    // and 452 more end with version 553.
    let asked = [(Kind::Preference, 5), (Kind::Password, 100)];
    let told = updates_above(alloc, &mut server, &asked)?;
    let entries = versions(alloc, told.entries.as_slice())?;
    assert_eq!(rt; entries.len(), 500);
    assert_eq!(rt; entries.get(499).copied(), Some(553));
    assert_eq!(rt; told.remaining, 147);
    let new_marks = marks(alloc, told.marks.as_slice())?;
    let wanted = [(Kind::Preference, 553), (Kind::Password, 553)];
    assert_eq!(rt; new_marks.as_slice(), wanted.as_slice());
    Ok(())
}

#[test]
fn the_last_writes_are_listed(rt: HostRuntime) -> Result<(), Fail> {
    let alloc = rt.alloc();
    let mut server = server(alloc)?;
    commit(alloc, &mut server, preference(alloc, 0, 0)?)?;
    commit(alloc, &mut server, password(alloc, 0, 0)?)?;
    commit(alloc, &mut server, deletion(alloc, Kind::Preference, 0, 1))?;
    let entities = server.entities()?;
    let listed = versions(alloc, entities.as_slice())?;
    assert_eq!(rt; listed.as_slice(), [2, 3].as_slice());
    Ok(())
}
