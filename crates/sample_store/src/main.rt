//! Writes a small store into the current folder, so that the stock `sqlite3` shell can be seen to read it: first three
//! rows, and then a change that sets one anew, takes one out, and takes one out and sets it.
#![tactic(auto)]

use client_keeper::{Change, Keeper, Place, SqlitePlace};
use std::process::ExitCode;
use wire_fields::NoMemory;

fn main(rt: HostRuntime) -> ExitCode {
    let (Ok(first), Ok(second)) = (first_change(&rt), second_change(&rt)) else {
        return ExitCode::FAILURE;
    };
    let mut place = SqlitePlace::new(rt);
    if make_change(&mut place, &first) && make_change(&mut place, &second) {
        ExitCode::SUCCESS
    } else {
        ExitCode::FAILURE
    }
}

fn first_change(rt: &HostRuntime) -> Result<Change, NoMemory> {
    let mut change = Change::new(rt.alloc());
    change.put(1, b"b", b"two")?;
    change.put(0, b"format", &[1])?;
    change.put(1, b"a", b"one")?;
    Ok(change)
}

fn second_change(rt: &HostRuntime) -> Result<Change, NoMemory> {
    let mut change = Change::new(rt.alloc());
    change.put(1, b"a", b"uno")?;
    change.remove(1, b"b")?;
    change.remove(0, b"format")?;
    change.put(0, b"format", &[2])?;
    Ok(change)
}

// Makes a change in the store `sample`, whose keeper is opened and handed back for it.
fn make_change(place: &mut SqlitePlace, change: &Change) -> bool {
    let Ok(mut keeper) = place.keeper("sample") else {
        return false;
    };
    let is_made = keeper.apply(change) == Ok(());
    place.back("sample", keeper);
    is_made
}
