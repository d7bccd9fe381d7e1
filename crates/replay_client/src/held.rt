//! What is held for the next commit.
ghost use Rattle.std.specs.Prelude.{◌≡◌, ◌+◌, ◌-◌, ◌≤◌, ◌++◌, length, vec_len, vec_capacity, None};
ghost use Rattle.client_tags.specs.declared.Kind.TheVariants.{Preference as preference_kind};
ghost use Rattle.sync_model.specs.Sending.{holds_kind, entry_of, sealed};
ghost use Rattle.replay_client.specs.Draws.{no_draws};

use client_tags::Kind;
use std::collections::VecDeque;
use sync_model::{Content, Entry, Key, Offer};

/// How many entries a commit may have.
const MAX_ENTRIES: usize = 25;

/// How many entries may join those that are held.
pub(crate) fn room_beside(held: &[Entry<Content>]) -> usize
    ensures { result ≡ MAX_ENTRIES - length held.now }
{
    MAX_ENTRIES.saturating_sub(held.len())
}

/// Entries of a type are held.
pub(crate) fn holds(kind: Kind, held: &[Entry<Content>]) -> bool
    ensures { result ≡ holds_kind kind held.now }
{
    held.iter().any(|entry| entry.key.kind == kind)
}

// An offer of a preference, which nothing seals, as an entry.
fn entry_of(offer: Offer) -> Entry<Content>
    ensures { result ≡ entry_of no_draws preference_kind None 0 offer }
{
    Entry {
        key: Key {
            kind: Kind::Preference,
            hash: offer.hash,
        },
        version: offer.known,
        content: Content {
            value: offer.value,
            number: offer.number,
            lock: None,
            draw: None,
        },
    }
}

/// Puts offers of preferences to what is held, for which there is room.
pub(crate) fn hold(held: &mut Vec<Entry<Content>>, offers: Vec<Offer>)
    requires { vec_len held.old + vec_len offers ≤ vec_capacity held.old }
    ensures { held.new.items ≡ held.old.items ++ sealed no_draws preference_kind None 0 offers.items }
{
    let mut offers = VecDeque::from_vec(offers);
    'offers: while let Some(offer) = offers.pop_front() {
        held.push_reserved(entry_of(offer));
    }
}
