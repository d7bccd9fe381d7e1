// Each public call once with ample memory, and the faults that a keeper tells.
use super::*;
use std::test::Fail;
use wire_fields::{List, Octets};

mod files;

// Whether a keeper gives just these rows, in this order.
fn holds<K: Keeper>(keeper: &mut K, wanted: &[(u8, &[u8], &[u8])]) -> bool {
    let Ok(rows) = keeper.load() else {
        return false;
    };
    let rows = rows.as_slice();
    if rows.len() != wanted.len() {
        return false;
    }
    for (row, (table, key, value)) in rows.iter().zip(wanted) {
        let is_row = row.table == *table;
        if !is_row || row.key.as_slice() != *key || row.value.as_slice() != *value {
            return false;
        }
    }
    true
}

// The changes of the tests: three rows; then one is set anew, one is taken out, and one is taken out and set in one change.
fn first_change(rt: &HostRuntime) -> Result<Change, NoMemory> {
    let mut change = Change::new(rt.alloc());
    change.put(1, b"b", b"two")?;
    change.put(0, b"format", &[1])?;
    change.put(1, b"a", b"one")?;
    Ok(change)
}

fn second_change(rt: &HostRuntime) -> Result<Change, NoMemory> {
    let mut change = Change::new(rt.alloc());
    change.put(1, b"a", b"uno")?;
    change.remove(1, b"b")?;
    change.remove(0, b"format")?;
    change.put(0, b"format", &[2])?;
    change.put(3, b"gone", b"")?;
    change.remove(3, b"gone")?;
    change.remove(9, b"never there")?;
    Ok(change)
}

const FIRST: [(u8, &[u8], &[u8]); 3] = [(0, b"format", &[1]), (1, b"a", b"one"), (1, b"b", b"two")];

const SECOND: [(u8, &[u8], &[u8]); 2] = [(0, b"format", &[2]), (1, b"a", b"uno")];

// The numbers of the calls that fail.
fn numbers(rt: &HostRuntime, failing: &[u64]) -> Result<List<u64>, Fail> {
    Ok(List::from_vec(failing.to_vec(rt.alloc())?))
}

#[test]
fn later_entries_win(rt: HostRuntime) -> Result<(), Fail> {
    let mut keeper = MemoryKeeper::new(rt.alloc(), numbers(&rt, &[])?);
    assert!(rt; holds(&mut keeper, &[]));
    assert_eq!(rt; keeper.apply(&first_change(&rt)?), Ok(()));
    assert!(rt; holds(&mut keeper, &FIRST));
    assert_eq!(rt; keeper.apply(&second_change(&rt)?), Ok(()));
    assert!(rt; holds(&mut keeper, &SECOND));
    Ok(())
}

#[test]
fn the_second_call_fails_and_changes_nothing(rt: HostRuntime) -> Result<(), Fail> {
    let mut keeper = MemoryKeeper::new(rt.alloc(), numbers(&rt, &[2])?);
    assert!(rt; holds(&mut keeper, &[]));
    assert_eq!(rt; keeper.apply(&first_change(&rt)?), Err(ApplyFault::Failed));
    assert!(rt; holds(&mut keeper, &[]));
    assert_eq!(rt; keeper.apply(&first_change(&rt)?), Ok(()));
    assert!(rt; holds(&mut keeper, &FIRST));
    Ok(())
}

#[test]
fn a_place_keeps_what_comes_back(rt: HostRuntime) -> Result<(), Fail> {
    let mut place = MemoryPlace::new(rt.alloc(), numbers(&rt, &[1])?);
    assert!(rt; place.keeper("a-server").err() == Some(LoadFault::Failed));
    let mut keeper = place.keeper("a-server")?;
    assert!(rt; holds(&mut keeper, &[]));
    assert_eq!(rt; keeper.apply(&first_change(&rt)?), Ok(()));
    place.back("a-server", keeper);
    let mut again = place.keeper("a-server")?;
    assert!(rt; holds(&mut again, &FIRST));
    Ok(())
}

#[test]
fn shows_each_fault(rt: HostRuntime) -> Result<(), Fail> {
    let alloc = rt.alloc();
    let load = format!(in alloc; "{}", LoadFault::Failed)?;
    assert_eq!(rt; load.as_str(), "what keeps the rows failed");
    let apply = format!(in alloc; "{}", ApplyFault::NoMemory)?;
    assert_eq!(rt; apply.as_str(), "memory ran out");
    let fault = RestoreFault::BadStore {
        table: 1,
        key: Octets::new(alloc),
        reason: StoreReason::Numbers,
    };
    let bad = Unrestored { fault, kept: () };
    let text = format!(in alloc; "{}", bad.fault)?;
    assert_eq!(rt; text.as_str(), "bad store: table 1, numbers");
    Ok(())
}
