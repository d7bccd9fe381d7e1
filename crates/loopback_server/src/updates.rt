//! What a store tells to a get-updates.
ghost use Rattle.std.specs.Prelude.{◌≡◌, ◌==◌, ◌&&◌, ◌||◌, ◌<◌, ◌≤◌, ◌+◌, ◌^◌, ℕ, List as Sequence, Option as Maybe, ◌++◌, map, IfOk, OnOk, IfSome, IfNone, None, Some};
ghost use Rattle.std.specs.BTreeSet.{contains, IsOrdered};
ghost use Rattle.std.specs.List.{AllByRecursion};
ghost use Rattle.std.specs.Ordering.{nat_cmp};
ghost use Rattle.sync_specifics.specs.declared.specifics.Specifics.{Specifics as AnySpecifics};
ghost use Rattle.sync_messages.specs.Laws.{FitsTypes, IsEntity, IsMarker};
ghost use Rattle.sync_model.specs.declared.message.Entry.{Entry as AnyEntry};
ghost use Rattle.sync_model.specs.declared.message.Marker.{Marker as AnyMarker};
ghost use Rattle.sync_model.specs.History.{write_at};
ghost use Rattle.sync_model.specs.Servers.{wanted_writes, updates_of};
ghost use Rattle.loopback_server.specs.Extras.{HoldCanonicalExtras};
ghost use Rattle.replay_messages.specs.Replies.{marker_in, told_entity, told_updates};
ghost use Rattle.loopback_server.specs.Pages.{asked_of, given_at, last_writes, wanted_versions, IsPage};
ghost use Rattle.loopback_server.specs.Stores.{entry_of, history_of, IsIndexed};

use crate::asked::{Asked, is_above};
use crate::page::{Page, push_entity};
use crate::store::Store;
use crate::write::Write;
use std::collections::BTreeSet;
use sync_messages::{Entity, Marker, Updates};
use wire_fields::{List, NoMemory};

// One more version, if it is wanted.
fn insert_if(versions: &mut BTreeSet<u64>, is_wanted: bool, version: u64) -> Result<(), NoMemory>
    ensures has { OnOk result ((other : ℕ) → contains nat_cmp versions.new other
        ≡ ((is_wanted && other == version) || contains nat_cmp versions.old other)) }
    ensures ordered { OnOk result (IsOrdered nat_cmp versions.old → IsOrdered nat_cmp versions.new) }
{
    if is_wanted {
        versions.insert(version)?;
    }
    Ok(())
}

impl Store {
    // The write of a version, if there is one.
    fn write(&self, version: u64) -> Option<&Write>
        ensures some { IfSome result (λ write. write_at (history_of self.now) version ≡ Some (entry_of write.now)) }
        ensures none { IfNone result (write_at (history_of self.now) version ≡ None) }
    {
        if version == 0 {
            return None;
        }
        self.writes.as_slice().get((version - 1) as usize)
    }

    // The versions of the last writes of the types that are asked for, above their marks, in one pass over the keys.
    fn wanted_versions(&self, asked: &Asked) -> Result<BTreeSet<u64>, NoMemory>
        requires { IsIndexed self.now }
        ensures { (marks : Sequence AnyMarker) → asked.now ≡ asked_of marks
            → IfOk result (λ versions. versions.keys ≡ wanted_versions marks (history_of self.now)) }
    {
        let mut versions = BTreeSet::new(self.alloc());
        for (key, version) in &self.index {
            let is_wanted = is_above(asked.mark(key.kind), *version);
            insert_if(&mut versions, is_wanted, *version)?;
        }
        Ok(versions)
    }

    // Adds the write of a version to a page.
    fn add_version(&self, page: &mut Page, version: u64) -> Result<(), NoMemory>
        requires fits { page.old.remaining + 1 < 2 ^ 64 }
        ensures page { OnOk result ((wanted : Sequence (AnyEntry (Maybe AnySpecifics))) → IsPage page.old wanted
            → IsPage page.new (wanted ++ given_at (history_of self.now) version)) }
        ensures few { OnOk result (page.new.remaining ≤ page.old.remaining + 1) }
        ensures typed { OnOk result (AllByRecursion FitsTypes page.old.entries.items → AllByRecursion FitsTypes page.new.entries.items) }
    {
        match self.write(version) {
            None => Ok(()),
            Some(write) => page.add(self.alloc(), write, version),
        }
    }

    // The first of the writes of some versions.
    fn page(&self, versions: &BTreeSet<u64>) -> Result<Page, NoMemory>
        ensures page { (marks : Sequence AnyMarker) → versions.now.keys ≡ wanted_versions marks (history_of self.now)
            → IfOk result (λ page. IsPage page (wanted_writes marks (history_of self.now) (history_of self.now))) }
        ensures few { IfOk result (λ page. page.remaining < 2 ^ 63) }
        ensures typed { IfOk result (λ page. AllByRecursion FitsTypes page.entries.items) }
    {
        let mut page = Page::new(self.alloc());
        for version in versions {
            self.add_version(&mut page, *version)?;
        }
        Ok(page)
    }

    /// What a get-updates is told. It takes one pass over the keys, and time that grows with the bytes of what is told
    /// and, for each key that is wanted, with the logarithm of their number.
    pub(crate) fn updates(&self, marks: &[Marker]) -> Result<Updates, NoMemory>
        requires indexed { IsIndexed self.now }
        requires canonical { HoldCanonicalExtras (history_of self.now) }
        ensures told { IfOk result (λ updates. updates ≡ told_updates (updates_of (history_of self.now) (map marker_in marks.now)
            (wanted_writes (map marker_in marks.now) (history_of self.now) (history_of self.now)))) }
        ensures few { IfOk result (λ updates. updates.remaining < 2 ^ 63) }
        ensures entities { IfOk result (λ updates. AllByRecursion IsEntity updates.entries) }
        ensures markers { IfOk result (λ updates. AllByRecursion IsMarker updates.marks) }
    {
        let asked = Asked::of(marks);
        let page = self.page(&self.wanted_versions(&asked)?)?;
        let marks = page.new_marks(self.alloc(), &asked, self.version())?;
        Ok(Updates {
            remaining: page.remaining,
            entries: List::from_vec(page.entries),
            marks,
        })
    }

    // Adds the write of a version as an entity.
    fn push_version(&self, entities: &mut Vec<Entity>, version: u64) -> Result<(), NoMemory>
        ensures { OnOk result (entities.new.items ≡ entities.old.items ++ map told_entity (given_at (history_of self.now) version)) }
    {
        match self.write(version) {
            None => Ok(()),
            Some(write) => push_entity(entities, write, version),
        }
    }

    /// The last writes of all keys by ascending version, in time that grows with their bytes and, for each, with the
    /// logarithm of the number of keys.
    pub(crate) fn entities(&self) -> Result<List<Entity>, NoMemory>
        requires { IsIndexed self.now }
        ensures { IfOk result (λ entities. entities ≡ map told_entity (last_writes (history_of self.now))) }
    {
        let versions = self.wanted_versions(&Asked::everything())?;
        let mut entities = Vec::new(self.alloc());
        for version in &versions {
            self.push_version(&mut entities, *version)?;
        }
        Ok(List::from_vec(entities))
    }
}
