//! The answer to a get-updates: the first of the wanted writes, and how many others there are.
ghost use Rattle.std.specs.Prelude.{◌≡◌, ◌==◌, ◌+◌, ◌<◌, ◌≤◌, ◌^◌, ◌∷◌, ◌++◌, [], List as Sequence, Option as Maybe, map, max, if◌then◌else◌, length, IfOk, OnOk};
ghost use Rattle.std.specs.List.{AllByRecursion};
ghost use Rattle.sync_specifics.specs.declared.specifics.Specifics.{Specifics as AnySpecifics};
ghost use Rattle.sync_messages.specs.Laws.{FitsTypes, IsMarker};
ghost use Rattle.sync_model.specs.declared.message.Entry.{Entry as AnyEntry};
ghost use Rattle.sync_model.specs.Servers.{as_given, new_marker};
ghost use Rattle.replay_messages.specs.Replies.{told_entity, told_marker};
ghost use Rattle.loopback_server.specs.Pages.{next_mark, markers_after, IsPage};
ghost use Rattle.loopback_server.specs.Stores.{entry_of};

use crate::asked::Asked;
use crate::candidate::{copied, is_empty};
use crate::write::Write;
use client_tags::Kind;
use progress_marker::Mark;
use replay_messages::id_of;
use std::alloc::Global;
use sync_messages::{Entity, Marker};
use wire_fields::{List, NoMemory};

/// How many entities a reply may have.
const MAX_UPDATES: usize = 500;

/// The first of the wanted writes, how many others there are, and the version of the last that is told.
#[derive(Drop)]
pub(crate) struct Page {
    pub(crate) entries: Vec<Entity>,
    pub(crate) remaining: u64,
    pub(crate) last: u64,
}

// A write of this version as an entity.
fn told_entity(alloc: Global, write: &Write, version: u64) -> Result<Entity, NoMemory>
    ensures entity { IfOk result (λ entity. entity ≡ told_entity (as_given version (entry_of write.now))) }
    ensures typed { IfOk result FitsTypes }
{
    let hash = write.key.hash;
    // It is known to have twenty bytes.
    let _bytes = hash.as_bytes();
    Ok(Entity {
        id: id_of(alloc, &write.key.named())?,
        version: version.cast_signed(),
        deleted: is_empty(&write.specifics),
        specifics: Some(copied(&write.specifics)?),
        hash: Some(hash),
    })
}

/// Adds a write of this version as an entity.
pub(crate) fn push_entity(
    entities: &mut Vec<Entity>,
    write: &Write,
    version: u64,
) -> Result<(), NoMemory>
    ensures { OnOk result (entities.new.items
        ≡ entities.old.items ++ map told_entity (as_given version (entry_of write.now) ∷ [])) }
{
    let entity = told_entity(*entities.allocator(), write, version)?;
    entities.push(entity)?;
    Ok(())
}

impl Page {
    /// Nothing is wanted yet.
    pub(crate) fn new(alloc: Global) -> Page
        ensures page { IsPage result [] }
        ensures remaining { result.remaining ≡ 0 }
        ensures none { result.entries.items ≡ [] }
    {
        Page {
            entries: Vec::new(alloc),
            remaining: 0,
            last: 0,
        }
    }

    /// One more write is wanted, of this version.
    pub(crate) fn add(&mut self, alloc: Global, write: &Write, version: u64) -> Result<(), NoMemory>
        requires fits { self.old.remaining + 1 < 2 ^ 64 }
        ensures page { OnOk result ((wanted : Sequence (AnyEntry (Maybe AnySpecifics))) → IsPage self.old wanted
            → IsPage self.new (wanted ++ as_given version (entry_of write.now) ∷ [])) }
        ensures few { OnOk result (self.new.remaining ≤ self.old.remaining + 1) }
        ensures typed { OnOk result (AllByRecursion FitsTypes self.old.entries.items → AllByRecursion FitsTypes self.new.entries.items) }
    {
        if self.entries.as_slice().len() < MAX_UPDATES {
            self.entries.push(told_entity(alloc, write, version)?)?;
            self.last = version;
        } else {
            self.remaining += 1;
        }
        Ok(())
    }

    // The new mark of a type with this mark, where the server has come to this version.
    fn next_mark(&self, version: u64, mark: u64) -> u64
        ensures { result ≡ next_mark version self.now.remaining self.now.last mark }
    {
        if self.remaining == 0 {
            version
        } else {
            mark.max(self.last)
        }
    }

    // Adds the new mark of a type, if it was asked for.
    fn push_new_mark(
        &self,
        marks: &mut Vec<Marker>,
        kind: Kind,
        mark: Option<u64>,
        version: u64,
    ) -> Result<(), NoMemory>
        ensures marks { OnOk result (marks.new.items ≡ marks.old.items
            ++ map told_marker (new_marker kind mark (next_mark version self.now.remaining self.now.last))) }
        ensures sayable { OnOk result (AllByRecursion IsMarker marks.old.items → AllByRecursion IsMarker marks.new.items) }
    {
        if let Some(mark) = mark {
            marks.push(Marker {
                kind,
                mark: Mark {
                    version: self.next_mark(version, mark),
                },
            })?;
        }
        Ok(())
    }

    /// The new marks of the types that were asked for, where the server has come to this version.
    pub(crate) fn new_marks(
        &self,
        alloc: Global,
        asked: &Asked,
        version: u64,
    ) -> Result<List<Marker>, NoMemory>
        ensures marks { IfOk result (λ marks. marks
            ≡ map told_marker (markers_after asked.now (next_mark version self.now.remaining self.now.last))) }
        ensures sayable { IfOk result (λ marks. AllByRecursion IsMarker marks) }
    {
        let mut marks = Vec::new(alloc);
        self.push_new_mark(&mut marks, Kind::Nigori, asked.nigori, version)?;
        self.push_new_mark(&mut marks, Kind::Preference, asked.preference, version)?;
        self.push_new_mark(&mut marks, Kind::Password, asked.password, version)?;
        Ok(List::from_vec(marks))
    }
}
