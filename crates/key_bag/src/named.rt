//! Keys with their names.
ghost use Rattle.std.specs.Prelude.{◌≡◌, ◌∷◌, ◌++◌, [], map, IfOk, OnOk, OnErr};
ghost use Rattle.aes_cbc.specs.Laws.{IsBlock};
ghost use Rattle.key_bag.specs.Bags.{key_named, named_by_itself, HasBlocks};

use key_derivation::NigoriKey;
use nigori::key_name;
use std::alloc::Global;
use wire_fields::{List, NoMemory, Octets};

/// A key and its name, which is computed from it.
#[derive(Debug, Drop)]
pub(crate) struct NamedKey {
    pub name: Octets,
    pub key: NigoriKey,
}

// The first key of a name.
pub(crate) fn key_named(keys: &[NamedKey], name: &[u8]) -> Option<NigoriKey>
    ensures { result ≡ key_named keys.now name.now }
{
    for named in keys {
        if named.name.as_slice() == name {
            return Some(named.key);
        }
    }
    None
}

// One more key at the end.
pub(crate) fn append(keys: &mut Vec<NamedKey>, named: NamedKey) -> Result<(), NoMemory>
    ensures ok { OnOk result (keys.new.items ≡ keys.old.items ++ named ∷ []) }
    ensures err { OnErr result (keys.new.items ≡ keys.old.items) }
{
    keys.push(named)?;
    Ok(())
}

// The names of some keys.
pub(crate) fn names(alloc: Global, keys: &[NamedKey]) -> Result<List<Octets>, NoMemory>
    ensures { IfOk result (λ names. names ≡ map (λ named. named.name) keys.now) }
{
    let mut names = Vec::new(alloc);
    for named in keys {
        names.push(named.name.copy()?)?;
    }
    Ok(List::from_vec(names))
}

// Some keys without their names.
pub(crate) fn unnamed(alloc: Global, keys: &[NamedKey]) -> Result<List<NigoriKey>, NoMemory>
    ensures { IfOk result (λ unnamed. unnamed ≡ map (λ named. named.key) keys.now) }
{
    let mut unnamed = Vec::new(alloc);
    for named in keys {
        unnamed.push(named.key)?;
    }
    Ok(List::from_vec(unnamed))
}

// A key under its own name.
pub(crate) fn named_by_itself(alloc: Global, key: &NigoriKey) -> Result<NamedKey, NoMemory>
    ensures named { IfOk result (λ named. named ≡ named_by_itself key.now) }
    ensures parts { HasBlocks key.now }
{
    let user = block(&key.user);
    let enc = block(&key.enc);
    let mac = block(&key.mac);
    Ok(NamedKey {
        name: key_name(alloc, key)?,
        key: NigoriKey { user, enc, mac },
    })
}

// A copy of a part of a key.
fn block(part: &[u8; 16]) -> [u8; 16]
    ensures same { result ≡ part.now }
    ensures is_block { IsBlock part.now }
{
    let mut copy = [0; 16];
    copy.copy_from_slice(part);
    copy
}
