//! Copies of the entries of a commit.
ghost use Rattle.std.specs.Prelude.{◌≡◌, ◌<◌, ◌≤◌, ◌+◌, ◌++◌, ◌∷◌, [], if◌then◌else◌, length, vec_len, vec_capacity, IfOk};
ghost use Rattle.replay_world.specs.Copies.{entries_of, answers_of, is_success, stored_by};

use std::alloc::Global;
use std::collections::VecDeque;
use sync_messages::{EntryAnswer, Outcome, Reply};
use sync_model::{Call, Content, Entry};
use wire_fields::{NoMemory, Octets};

fn copied_octets(octets: &Option<Octets>) -> Result<Option<Octets>, NoMemory>
    ensures { IfOk result (λ copy. copy ≡ octets.now) }
{
    match octets {
        Some(octets) => Ok(Some(octets.copy()?)),
        None => Ok(None),
    }
}

fn copied_entry(entry: &Entry<Content>) -> Result<Entry<Content>, NoMemory>
    ensures { IfOk result (λ copy. copy ≡ entry.now) }
{
    Ok(Entry {
        key: entry.key,
        version: entry.version,
        content: Content {
            value: entry.content.value.copy()?,
            number: entry.content.number,
            lock: copied_octets(&entry.content.lock)?,
            draw: entry.content.draw,
        },
    })
}

fn copied_list(
    alloc: Global,
    entries: &[Entry<Content>],
) -> Result<VecDeque<Entry<Content>>, NoMemory>
    ensures { IfOk result (λ copies. copies.items ≡ entries.now) }
{
    let mut copies = VecDeque::with_capacity(alloc, entries.len())?;
    for entry in entries {
        copies.push_back(copied_entry(entry)?)?;
    }
    Ok(copies)
}

/// Copies of the entries that a call asks to store.
pub(crate) fn copied_entries(
    alloc: Global,
    call: &Call<Content>,
) -> Result<VecDeque<Entry<Content>>, NoMemory>
    ensures { IfOk result (λ copies. copies.items ≡ entries_of call.now) }
{
    match call {
        Call::Commit(entries) => copied_list(alloc, entries.as_slice()),
        Call::Updates(_) => Ok(VecDeque::new(alloc)),
    }
}

/// The answers to the entries of a commit.
pub(crate) fn answers_of(reply: &Reply) -> &[EntryAnswer]
    ensures { result.now ≡ answers_of reply.now }
{
    match reply {
        Reply::Committed(answers) => answers.as_slice(),
        _ => &[],
    }
}

fn is_stored(answer: &EntryAnswer) -> bool
    ensures { result ≡ is_success answer.now.outcome }
{
    match answer.outcome {
        Outcome::Success => true,
        _ => false,
    }
}

// Puts an entry to the writes if it was stored.
fn keep_if(writes: &mut Vec<Entry<Content>>, entry: Entry<Content>, is_stored: bool)
    requires { vec_len writes.old < vec_capacity writes.old }
    ensures writes { writes.new.items ≡ writes.old.items ++ (if is_stored then entry ∷ [] else []) }
    ensures room { vec_capacity writes.new ≡ vec_capacity writes.old }
    ensures longer { vec_len writes.new ≤ vec_len writes.old + 1 }
{
    if is_stored {
        writes.push_reserved(entry);
    }
}

/// Puts the entries that were stored to the writes, for which there is room.
pub(crate) fn keep_stored(
    writes: &mut Vec<Entry<Content>>,
    mut entries: VecDeque<Entry<Content>>,
    answers: &[EntryAnswer],
)
    requires { vec_len writes.old + length entries.items ≤ vec_capacity writes.old }
    ensures { writes.new.items ≡ writes.old.items ++ stored_by entries.items answers.now }
{
    for answer in answers {
        let Some(entry) = entries.pop_front() else {
            return;
        };
        keep_if(writes, entry, is_stored(answer));
    }
}
