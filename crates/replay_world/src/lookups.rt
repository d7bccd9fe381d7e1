//! What is kept of earlier events, as later ones look for it.
ghost use Rattle.std.specs.Prelude.{◌≡◌, reverse, Some, MatchOption};
ghost use Rattle.std.specs.Option.{option_copied};
ghost use Rattle.replay_world.specs.declared.happened.Happened.TheVariants as kept;
ghost use Rattle.replay_world.specs.Asked.{IsNoRequest, IsNoDelivery};
ghost use Rattle.replay_world.specs.Outcomes.{kept_at};

use crate::happened::Happened;
use sync_model::{Content, Request};
use wire_fields::Octets;

// What came of an event, if it has come.
fn happened_at(happened: &[Happened], event: u32) -> Option<&Happened>
    ensures { option_copied result ≡ kept_at (reverse happened.now) event }
{
    if event == 0 {
        return None;
    }
    if event as usize > happened.len() {
        return None;
    }
    Some(&happened[event as usize - 1])
}

/// A request: the number of the client that made it, and its bytes.
#[derive(Clone, Copy)]
pub(crate) struct Asked<'a> {
    pub(crate) client: u32,
    pub(crate) request: &'a Request<Content>,
    pub(crate) bytes: &'a Octets,
}

/// The request that an event made, if it made one.
pub(crate) fn request_made(happened: &[Happened], event: u32) -> Option<Asked<'_>>
    ensures { MatchOption result (IsNoRequest (kept_at (reverse happened.now) event))
        (λ asked. kept_at (reverse happened.now) event ≡ Some (kept.Requested asked.client asked.request.now asked.bytes.now)) }
{
    match happened_at(happened, event) {
        Some(
            Happened::Requested {
                client,
                request,
                bytes,
            },
        ) => Some(Asked {
            client: *client,
            request,
            bytes,
        }),
        _ => None,
    }
}

/// A delivery: the event of the request that the server handled, how many writes there were before, and the bytes of
/// the reply.
#[derive(Clone, Copy)]
pub(crate) struct Delivery<'a> {
    pub(crate) request: u32,
    pub(crate) before: u64,
    pub(crate) bytes: &'a Octets,
}

/// The delivery that an event made, if it made one.
pub(crate) fn delivery_made(happened: &[Happened], event: u32) -> Option<Delivery<'_>>
    ensures { MatchOption result (IsNoDelivery (kept_at (reverse happened.now) event))
        (λ delivery. kept_at (reverse happened.now) event ≡ Some (kept.Delivered delivery.request delivery.before delivery.bytes.now)) }
{
    match happened_at(happened, event) {
        Some(
            Happened::Delivered {
                request,
                before,
                bytes,
            },
        ) => Some(Delivery {
            request: *request,
            before: *before,
            bytes,
        }),
        _ => None,
    }
}
