// Rows in files of SQLite.
use super::*;
use std::fs;

// Changes the rows of a store, and hands its keeper back.
fn change_store(place: &mut SqlitePlace, name: &str, change: &Change) -> bool {
    let Ok(mut keeper) = place.keeper(name) else {
        return false;
    };
    let is_made = keeper.apply(change) == Ok(());
    place.back(name, keeper);
    is_made
}

// Whether a store has just these rows.
fn store_holds(place: &mut SqlitePlace, name: &str, wanted: &[(u8, &[u8], &[u8])]) -> bool {
    let Ok(mut keeper) = place.keeper(name) else {
        return false;
    };
    let is_held = holds(&mut keeper, wanted);
    place.back(name, keeper);
    is_held
}

// Whether the outside fails to give the store's keeper.
fn is_refused(place: &mut SqlitePlace, name: &str) -> bool {
    match place.keeper(name) {
        Ok(_) => false,
        Err(fault) => fault == LoadFault::Failed,
    }
}

#[test]
fn what_is_kept_stays_after_a_new_start(rt: HostRuntime) -> Result<(), Fail> {
    let (first, second) = (first_change(&rt)?, second_change(&rt)?);
    let mut place = SqlitePlace::new(rt);
    assert!(rt; store_holds(&mut place, "kept", &[]));
    assert!(rt; change_store(&mut place, "kept", &first));
    let mut later = SqlitePlace::new(rt);
    assert!(rt; store_holds(&mut later, "kept", &FIRST));
    assert!(rt; change_store(&mut later, "kept", &second));
    assert!(rt; store_holds(&mut later, "kept", &SECOND));
    Ok(())
}

#[test]
fn a_file_that_is_no_database_is_a_fault(rt: HostRuntime) -> Result<(), Fail> {
    fs::write(&rt, "text.db", "no database\n")?;
    let mut place = SqlitePlace::new(rt);
    assert!(rt; is_refused(&mut place, "text"));
    let bytes = fs::read(&rt, "text.db")?;
    assert_eq!(rt; bytes.as_slice(), b"no database\n".as_slice());
    Ok(())
}

// Whether a store whose keeper is out is refused, and that keeper still makes the change.
fn is_locked_while_open(place: &mut SqlitePlace, name: &str, change: &Change) -> bool {
    let Ok(mut keeper) = place.keeper(name) else {
        return false;
    };
    let is_refused = is_refused(place, name);
    let is_made = keeper.apply(change) == Ok(());
    place.back(name, keeper);
    is_refused && is_made
}

#[test]
fn a_store_that_is_open_is_locked(rt: HostRuntime) -> Result<(), Fail> {
    let change = first_change(&rt)?;
    let mut place = SqlitePlace::new(rt);
    assert!(rt; is_locked_while_open(&mut place, "locked", &change));
    assert!(rt; store_holds(&mut place, "locked", &FIRST));
    Ok(())
}
