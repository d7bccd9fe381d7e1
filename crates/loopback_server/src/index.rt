//! The versions of the last writes by their keys.
ghost use Rattle.std.specs.Prelude.{◌≡◌, true, is_some, if◌then◌else◌, Some, OnOk};
ghost use Rattle.loopback_server.specs.declared.write.EntityKey.{EntityKey as Key};
ghost use Rattle.loopback_server.specs.Indexes.{indexed, is_key, version_at, HasPlace};

use crate::write::EntityKey;
use std::collections::BTreeMap;
use wire_fields::NoMemory;

/// The version of each key's last write; 0 where a key has a place and no write yet.
pub(crate) type Index = BTreeMap<EntityKey, u64>;

/// The version of a key's last write, 0 where it has none.
pub(crate) fn version_at(index: &Index, key: &EntityKey) -> u64
    ensures { result ≡ version_at index.now.entries key.now }
{
    index.get(key).copied().unwrap_or(0)
}

/// Gives a key its place, if it has none.
pub(crate) fn make_place(index: &mut Index, key: EntityKey) -> Result<(), NoMemory>
    ensures has_place { OnOk result (HasPlace index.new.entries key) }
    ensures same { (other : Key) → version_at index.new.entries other ≡ version_at index.old.entries other }
    ensures kept { (other : Key) → HasPlace index.old.entries other → HasPlace index.new.entries other }
{
    if !index.contains_key(&key) {
        index.insert(key, 0)?;
    }
    Ok(())
}

/// Sets the version of a key that has its place, which takes no memory.
pub(crate) fn set_version(index: &mut Index, key: EntityKey, version: u64)
    requires { HasPlace index.old.entries key }
    ensures { (other : Key) → indexed index.new.entries other
        ≡ (if is_key key other then Some version else indexed index.old.entries other) }
{
    let Ok(_) = index.insert(key, version) else {
        return;
    };
}
