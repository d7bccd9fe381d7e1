//! Rows in an ordered map, in which a key may stand without a row.
//!
//! A change first gives a slot to each of its keys, which may want memory, and then sets what stands in them, which
//! does not. A key whose slot is empty has no row.
ghost use Rattle.std.specs.Prelude.{◌≡◌, ◌∷◌, ◌++◌, [], IfOk, OnOk, OnErr};
ghost use Rattle.std.specs.BTreeMap.{insert_entry};
ghost use Rattle.client_keeper.specs.Rows.{by_key, with_value, changed, rows_of, AreInOrder};
ghost use Rattle.client_keeper.specs.Slots.{shown, values_in, HasSlot, HaveSlots};
ghost use Rattle.client_keeper.specs.declared.rows.RowKey.{RowKey as Key};

use crate::{Entry, KeptRow, NoMemory, RowKey};
use std::alloc::Global;
use std::collections::{BTreeMap, VecDeque};
use wire_fields::{List, Octets};

pub(crate) type Slots = BTreeMap<RowKey, Option<Octets>>;

// Gives the key a slot, an empty one where it has none.
fn reserve_slot(slots: &mut Slots, key: &RowKey) -> Result<(), NoMemory>
    ensures rows { shown slots.new.entries ≡ shown slots.old.entries }
    ensures has { OnOk result (HasSlot slots.new.entries key.now) }
    ensures kept { (other : Key) → HasSlot slots.old.entries other → HasSlot slots.new.entries other }
{
    if slots.contains_key(key) {
        return Ok(());
    }
    slots.insert(key.copy()?, None)?;
    Ok(())
}

// A second owner of a value, where there is one.
fn copy_value(value: &Option<Octets>) -> Result<Option<Octets>, NoMemory>
    ensures { IfOk result (λ copy. copy ≡ value.now) }
{
    match value {
        Some(bytes) => Ok(Some(bytes.copy()?)),
        None => Ok(None),
    }
}

// Gives a slot to the key of each entry, and copies what is to stand in them.
fn reserve_all(
    alloc: Global,
    slots: &mut Slots,
    entries: &[Entry],
) -> Result<VecDeque<Option<Octets>>, NoMemory>
    ensures rows { shown slots.new.entries ≡ shown slots.old.entries }
    ensures has { OnOk result (HaveSlots slots.new.entries entries.now) }
    ensures values { IfOk result (λ values. values.items ≡ values_in entries.now) }
{
    let mut values = VecDeque::new(alloc);
    for entry in entries {
        reserve_slot(slots, &entry.key)?;
        values.push_back(copy_value(&entry.value)?)?;
    }
    Ok(values)
}

// Sets what stands in the key's slot.
fn set_slot(slots: &mut Slots, key: &RowKey, value: Option<Octets>)
    requires { HasSlot slots.old.entries key.now }
    ensures rows { shown slots.new.entries ≡ with_value (shown slots.old.entries) key.now value }
    ensures kept { (other : Key) → HasSlot slots.old.entries other → HasSlot slots.new.entries other }
{
    let Some(slot) = slots.get_mut(key) else {
        return;
    };
    *slot = value;
}

// Sets the values of the entries, one after another.
fn set_all(slots: &mut Slots, entries: &[Entry], mut values: VecDeque<Option<Octets>>)
    requires has { HaveSlots slots.old.entries entries.now }
    requires values { values.items ≡ values_in entries.now }
    ensures { shown slots.new.entries ≡ changed (shown slots.old.entries) entries.now }
{
    for entry in entries {
        let Some(value) = values.pop_front() else {
            return;
        };
        set_slot(slots, &entry.key, value);
    }
}

// Takes the key's slot out where it is empty.
fn drop_slot(slots: &mut Slots, key: &RowKey)
    ensures { shown slots.new.entries ≡ shown slots.old.entries }
{
    if let Some(None) = slots.get(key) {
        let _emptied = slots.remove(key);
    }
}

// Takes the slots of the entries' keys out that are empty.
fn drop_empty(slots: &mut Slots, entries: &[Entry])
    ensures { shown slots.new.entries ≡ shown slots.old.entries }
{
    for entry in entries {
        drop_slot(slots, &entry.key);
    }
}

fn set_entries(alloc: Global, slots: &mut Slots, entries: &[Entry]) -> Result<(), NoMemory>
    ensures ok { OnOk result (shown slots.new.entries ≡ changed (shown slots.old.entries) entries.now) }
    ensures err { OnErr result (shown slots.new.entries ≡ shown slots.old.entries) }
{
    let values = reserve_all(alloc, slots, entries)?;
    set_all(slots, entries, values);
    Ok(())
}

/// Makes the whole change, in time linear in what it holds, times the logarithm of the number of rows.
pub(crate) fn change_rows(
    alloc: Global,
    slots: &mut Slots,
    entries: &[Entry],
) -> Result<(), NoMemory>
    ensures ok { OnOk result (shown slots.new.entries ≡ changed (shown slots.old.entries) entries.now) }
    ensures err { OnErr result (shown slots.new.entries ≡ shown slots.old.entries) }
{
    let outcome = set_entries(alloc, slots, entries);
    drop_empty(slots, entries);
    outcome
}

// Adds the row of a slot, where there is one.
fn push_row(rows: &mut List<KeptRow>, key: &RowKey, value: &Option<Octets>) -> Result<(), NoMemory>
    ensures ok { OnOk result (rows_of rows.new ≡ rows_of rows.old ++ shown ((key.now, value.now) ∷ [])) }
{
    let Some(value) = value else {
        return Ok(());
    };
    let row = KeptRow {
        table: key.table,
        key: key.key.copy()?,
        value: value.copy()?,
    };
    rows.push(row)?;
    Ok(())
}

/// Copies of all the rows, in order. It is one pass over them.
pub(crate) fn copy_rows(alloc: Global, slots: &Slots) -> Result<List<KeptRow>, NoMemory>
    ensures all { IfOk result (λ rows. rows_of rows ≡ shown slots.now.entries) }
    ensures in_order { AreInOrder (shown slots.now.entries) }
{
    let mut rows = List::new(alloc);
    for (key, value) in slots.iter() {
        push_row(&mut rows, key, value)?;
    }
    Ok(rows)
}

// Puts copies of a key and of its slot in.
fn put_copy(copies: &mut Slots, key: &RowKey, value: &Option<Octets>) -> Result<(), NoMemory>
    ensures { OnOk result (copies.new.entries ≡ insert_entry by_key copies.old.entries key.now value.now) }
{
    copies.insert(key.copy()?, copy_value(value)?)?;
    Ok(())
}

/// A second owner of the same slots, in time linear in what they hold, times the logarithm of their number.
pub(crate) fn copy_slots(alloc: Global, slots: &Slots) -> Result<Slots, NoMemory>
    ensures { IfOk result (λ copies. copies.entries ≡ slots.now.entries) }
{
    let mut copies = BTreeMap::new(alloc);
    for (key, value) in slots.iter() {
        put_copy(&mut copies, key, value)?;
    }
    Ok(copies)
}
