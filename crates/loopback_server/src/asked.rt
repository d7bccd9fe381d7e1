//! The marks of the types that a get-updates asks for.
ghost use Rattle.std.specs.Prelude.{◌≡◌, map};
ghost use Rattle.sync_model.specs.Servers.{mark_of, is_above};
ghost use Rattle.replay_messages.specs.Replies.{marker_in};
ghost use Rattle.loopback_server.specs.Pages.{asked_of, from_the_start, mark_in};

use client_tags::Kind;
use sync_messages::Marker;

/// The marks of the types that are asked for.
#[derive(Clone, Copy, Debug, PartialEq, Eq)]
pub(crate) struct Asked {
    pub(crate) nigori: Option<u64>,
    pub(crate) preference: Option<u64>,
    pub(crate) password: Option<u64>,
}

// The last of the marks that are given for a type.
fn mark_of(kind: Kind, markers: &[Marker]) -> Option<u64>
    ensures { result ≡ mark_of kind (map marker_in markers.now) }
{
    let mut mark = None;
    for marker in markers {
        if marker.kind == kind {
            mark = Some(marker.mark.version);
        }
    }
    mark
}

/// A version is above a mark, if there is one.
pub(crate) fn is_above(mark: Option<u64>, version: u64) -> bool
    ensures { result ≡ is_above mark version }
{
    match mark {
        None => false,
        Some(mark) => mark < version,
    }
}

impl Asked {
    /// What some markers ask for, in time linear in their number.
    pub(crate) fn of(markers: &[Marker]) -> Asked
        ensures { result ≡ asked_of (map marker_in markers.now) }
    {
        Asked {
            nigori: mark_of(Kind::Nigori, markers),
            preference: mark_of(Kind::Preference, markers),
            password: mark_of(Kind::Password, markers),
        }
    }

    /// All types, from the start.
    pub(crate) fn everything() -> Asked
        ensures { result ≡ asked_of from_the_start }
    {
        Asked {
            nigori: Some(0),
            preference: Some(0),
            password: Some(0),
        }
    }

    /// The mark of a type, if it is asked for.
    pub(crate) fn mark(&self, kind: Kind) -> Option<u64>
        ensures { result ≡ mark_in self.now kind }
    {
        match kind {
            Kind::Nigori => self.nigori,
            Kind::Preference => self.preference,
            Kind::Password => self.password,
        }
    }
}
