//! The writes of a server, and their index.
ghost use Rattle.std.specs.Prelude.{◌≡◌, ◌+◌, ◌<◌, ◌≤◌, ◌++◌, ◌∷◌, ◌||◌, ◌&&◌, ◌==◌, [], nat_le, if◌then◌else◌, length, map, vec_len, vec_capacity, IfOk, OnOk, OnErr};
ghost use Rattle.std.specs.List.{AllByRecursion};
ghost use Rattle.sync_messages.specs.Laws.{IsAnswer};
ghost use Rattle.sync_model.specs.History.{last_version, answer_to, history_with, committed, answers_to};
ghost use Rattle.loopback_server.specs.declared.write.EntityKey.{EntityKey as AnyKey};
ghost use Rattle.loopback_server.specs.Candidates.{entry_read, HasId, HasItsPlace, HaveIds, HavePlaces};
ghost use Rattle.replay_messages.specs.Entries.{entry_in, is_invalid};
ghost use Rattle.loopback_server.specs.Indexes.{key_of, version_at as version_in, HasPlace};
ghost use Rattle.replay_messages.specs.Replies.{told_with, told_answer, told_refusal, answers_told};
ghost use Rattle.loopback_server.specs.Stores.{entry_of, history_of, IsIndexed};

use crate::candidate::{Candidate, candidates_of};
use crate::index::{Index, make_place, set_version, version_at};
use crate::write::Write;
use std::alloc::Global;
use std::collections::{BTreeMap, VecDeque};
use sync_messages::{Entity, EntryAnswer, Outcome};
use sync_model::Answer;
use wire_fields::{List, NoMemory, Octets};

/// How many keys the server has room for.
const MAX_KEYS: u64 = 100_000;

/// The last version that there is.
const LAST_VERSION: u64 = (1 << 63) - 1;

/// The writes of a server, the oldest first.
#[derive(Drop)]
pub(crate) struct Store {
    pub(crate) writes: Vec<Write>,
    pub(crate) index: Index,
    /// How many keys have a write.
    pub(crate) keys: u64,
}

// How many keys have a write after one of a key whose last version was this.
fn keys_with(keys: u64, last: u64) -> u64
    requires { last ≡ 0 → keys < MAX_KEYS }
    ensures { result ≡ (if last == 0 then keys + 1 else keys) }
{
    if last == 0 { keys + 1 } else { keys }
}

// An entry of this version is based on the last write of its key, whose version this is.
fn is_based(base: u64, last: u64) -> bool
    ensures { result ≡ (base == last) }
{
    base == last
}

// Gives each key its place in the index.
fn make_places(index: &mut Index, candidates: &[Option<Candidate>]) -> Result<(), NoMemory>
    ensures have_places { OnOk result (HavePlaces index.new.entries candidates.now) }
    ensures same { (key : AnyKey) → version_in index.new.entries key ≡ version_in index.old.entries key }
{
    for candidate in candidates {
        make_its_place(index, candidate)?;
    }
    Ok(())
}

// Gives the key of a write its place in the index.
fn make_its_place(index: &mut Index, candidate: &Option<Candidate>) -> Result<(), NoMemory>
    ensures has_place { OnOk result (HasItsPlace index.new.entries candidate.now) }
    ensures same { (key : AnyKey) → version_in index.new.entries key ≡ version_in index.old.entries key }
    ensures kept { (key : AnyKey) → HasPlace index.old.entries key → HasPlace index.new.entries key }
{
    match candidate {
        None => Ok(()),
        Some(candidate) => make_place(index, candidate.write.key),
    }
}

// What is told of an entry that was not stored.
fn refusal(alloc: Global, outcome: Outcome) -> EntryAnswer
    ensures told { result ≡ told_refusal outcome }
    ensures sayable { IsAnswer result }
{
    EntryAnswer {
        outcome,
        id: Octets::new(alloc),
        version: 0,
    }
}

// What is told of an entry of this name.
fn told(alloc: Global, id: Octets, answer: Answer) -> EntryAnswer
    ensures told { result ≡ told_with id answer }
    ensures sayable { IsAnswer result }
{
    match answer {
        Answer::Success(version) => EntryAnswer {
            outcome: Outcome::Success,
            id,
            version: version.cast_signed(),
        },
        Answer::Conflict => refusal(alloc, Outcome::Conflict),
        Answer::Invalid => refusal(alloc, Outcome::Invalid),
        Answer::OverQuota => refusal(alloc, Outcome::OverQuota),
    }
}

impl Store {
    /// No writes. It takes no memory.
    pub(crate) fn new(alloc: Global) -> Store
        ensures history { history_of result ≡ [] }
        ensures indexed { IsIndexed result }
    {
        Store {
            writes: Vec::new(alloc),
            index: BTreeMap::new(alloc),
            keys: 0,
        }
    }

    pub(crate) fn alloc(&self) -> Global {
        *self.writes.allocator()
    }

    /// The version of the last write, 0 without one.
    pub(crate) fn version(&self) -> u64
        ensures { result ≡ length (history_of self.now) }
    {
        self.writes.as_slice().len() as u64
    }

    // There is no room for an entry of this version.
    fn is_over_quota(&self, version: u64) -> bool
        ensures { result
            ≡ ((version == 0 && nat_le MAX_KEYS self.now.keys) || nat_le LAST_VERSION (length (history_of self.now))) }
    {
        (version == 0 && self.keys >= MAX_KEYS) || self.version() >= LAST_VERSION
    }

    // Stores a write as the next one of its key, whose last version was this.
    fn store(&mut self, write: Write, last: u64)
        requires indexed { IsIndexed self.old }
        requires place { HasPlace self.old.index.entries write.key }
        requires last { last ≡ last_version (history_of self.old) (key_of write.key) }
        requires few_keys { last ≡ 0 → self.old.keys < MAX_KEYS }
        requires room { vec_len self.old.writes < vec_capacity self.old.writes }
        ensures history { history_of self.new ≡ entry_of write ∷ history_of self.old }
        ensures indexed { IsIndexed self.new }
        ensures kept { (key : AnyKey) → HasPlace self.old.index.entries key → HasPlace self.new.index.entries key }
        ensures room { vec_capacity self.new.writes ≡ vec_capacity self.old.writes }
        ensures longer { vec_len self.new.writes ≡ vec_len self.old.writes + 1 }
    {
        let version = self.version() + 1;
        set_version(&mut self.index, write.key, version);
        self.keys = keys_with(self.keys, last);
        self.writes.push_reserved(write);
    }

    // Answers one write, whose key has its place in the index.
    fn answer(&mut self, write: Write) -> Answer
        requires indexed { IsIndexed self.old }
        requires place { HasPlace self.old.index.entries write.key }
        requires room { vec_len self.old.writes < vec_capacity self.old.writes }
        ensures answer { result ≡ answer_to is_invalid (history_of self.old) (entry_of write) }
        ensures history { history_of self.new ≡ history_with (history_of self.old) (entry_of write) result }
        ensures indexed { IsIndexed self.new }
        ensures kept { (key : AnyKey) → HasPlace self.old.index.entries key → HasPlace self.new.index.entries key }
        ensures room { vec_capacity self.new.writes ≡ vec_capacity self.old.writes }
        ensures longer { vec_len self.new.writes ≤ vec_len self.old.writes + 1 }
    {
        let last = version_at(&self.index, &write.key);
        if !is_based(write.base, last) {
            return Answer::Conflict;
        }
        if self.is_over_quota(write.base) {
            return Answer::OverQuota;
        }
        let version = self.version() + 1;
        self.store(write, last);
        Answer::Success(version)
    }

    // Answers what was read of an entity.
    fn answer_read(&mut self, candidate: Option<Candidate>) -> EntryAnswer
        requires indexed { IsIndexed self.old }
        requires id { HasId candidate }
        requires place { HasItsPlace self.old.index.entries candidate }
        requires room { vec_len self.old.writes < vec_capacity self.old.writes }
        ensures answer { result
            ≡ told_answer (entry_read candidate) (answer_to is_invalid (history_of self.old) (entry_read candidate)) }
        ensures history { history_of self.new ≡ history_with (history_of self.old) (entry_read candidate)
            (answer_to is_invalid (history_of self.old) (entry_read candidate)) }
        ensures indexed { IsIndexed self.new }
        ensures kept { (key : AnyKey) → HasPlace self.old.index.entries key → HasPlace self.new.index.entries key }
        ensures room { vec_capacity self.new.writes ≡ vec_capacity self.old.writes }
        ensures longer { vec_len self.new.writes ≤ vec_len self.old.writes + 1 }
        ensures sayable { IsAnswer result }
    {
        let alloc = self.alloc();
        let Some(candidate) = candidate else {
            return refusal(alloc, Outcome::Invalid);
        };
        let answer = self.answer(candidate.write);
        told(alloc, candidate.id, answer)
    }

    // Makes all the room that a commit may need.
    fn make_room(&mut self, candidates: &[Option<Candidate>]) -> Result<(), NoMemory>
        requires indexed { IsIndexed self.old }
        ensures writes { self.new.writes.items ≡ self.old.writes.items }
        ensures indexed { IsIndexed self.new }
        ensures have_places { OnOk result (HavePlaces self.new.index.entries candidates.now) }
        ensures room { OnOk result (vec_len self.new.writes + length candidates.now ≤ vec_capacity self.new.writes) }
    {
        self.writes.reserve(candidates.len())?;
        make_places(&mut self.index, candidates)
    }

    // Answers one after another, for which there is all the room that they may need.
    fn answer_all(
        &mut self,
        mut candidates: VecDeque<Option<Candidate>>,
        answers: &mut Vec<EntryAnswer>,
    )
        requires indexed { IsIndexed self.old }
        requires ids { HaveIds candidates.items }
        requires have_places { HavePlaces self.old.index.entries candidates.items }
        requires room { vec_len self.old.writes + length candidates.items ≤ vec_capacity self.old.writes }
        requires answers_room { vec_len answers.old + length candidates.items ≤ vec_capacity answers.old }
        ensures answers { answers.new.items ≡ answers.old.items
            ++ answers_told (history_of self.old) (map entry_read candidates.items) }
        ensures history { history_of self.new
            ≡ committed is_invalid (history_of self.old) (map entry_read candidates.items) }
        ensures indexed { IsIndexed self.new }
        ensures sayable { AllByRecursion IsAnswer answers.old.items → AllByRecursion IsAnswer answers.new.items }
    {
        'candidates: while let Some(candidate) = candidates.pop_front() {
            answers.push_reserved(self.answer_read(candidate));
        }
    }

    /// Takes a commit, in time that grows with its bytes and, for each entity, with the logarithm of the number of
    /// keys.
    pub(crate) fn commit(&mut self, entities: &[Entity]) -> Result<List<EntryAnswer>, NoMemory>
        requires indexed { IsIndexed self.old }
        ensures answers { IfOk result (λ answers. answers
            ≡ answers_told (history_of self.old) (map entry_in entities.now)) }
        ensures history { OnOk result (history_of self.new
            ≡ committed is_invalid (history_of self.old) (map entry_in entities.now)) }
        ensures err { OnErr result (history_of self.new ≡ history_of self.old) }
        ensures indexed { IsIndexed self.new }
        ensures sayable { IfOk result (λ answers. AllByRecursion IsAnswer answers) }
    {
        let candidates = candidates_of(self.alloc(), entities)?;
        self.make_room(&candidates)?;
        let mut answers = Vec::with_capacity(self.alloc(), entities.len())?;
        self.answer_all(VecDeque::from_vec(candidates), &mut answers);
        Ok(List::from_vec(answers))
    }
}
