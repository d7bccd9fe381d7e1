//! The server's side: a request is read, and a reply written.
ghost use Rattle.std.specs.Prelude.{◌≡◌, ◌+◌, ◌↔◌, IsTrue, IfErr, OnOk};
ghost use Rattle.outer_edge.specs.Faults.{NeverFalls};
ghost use Rattle.outer_edge.specs.Source.{GaveUpTo, Grew};
ghost use Rattle.http_edge.specs.Faults.{HasCause, IfAnswered, IsOutside};
ghost use Rattle.http_edge.specs.Heads.{longest_head};
ghost use Rattle.http_edge.specs.Fields.{longest_body};
ghost use Rattle.http_edge.specs.Requests.{RequestSays};
ghost use Rattle.http_edge.specs.Messages.{Answers};
ghost use Rattle.http_edge.specs.Written.{IsReplyWith, reply_bytes, TookFront};
ghost use Rattle.http_edge.specs.declared.fault.EdgeFault.TheVariants.{NoMemory as OutOfMemory};

use crate::EdgeFault;
use crate::heads::Request;
use crate::message::read_message;
use crate::outgoing::{status_line, write_message};
use outer_edge::{Sink, Source};
use std::alloc::Global;
use wire_fields::Octets;

/// Reads a request, and gives its body. What it answers follows from the bytes that the link gives before its end,
/// however the link cuts them, and no byte past the body is read.
///
/// Of several faults the first is told: the link's, a head that does not come or is none, its method, its path, a coded
/// body, its length, a body that does not come. Header names are compared without regard to case, a `Content-Length`
/// that is stated twice has to be the same text. The cost is one pass over the bytes; the head takes a call of the link
/// for each of its bytes, the body one for every 4,096.
pub fn read_request<L: Source>(alloc: Global, link: &mut L) -> Result<Octets, EdgeFault>
    ensures answer { IfAnswered result (Answers RequestSays (L.left link.old) (L.left link.new) result) }
    ensures cause { IfErr result (λ fault. HasCause fault (L.faults link.old) (L.faults link.new)) }
    ensures no_fault { OnOk result (L.faults link.new ≡ L.faults link.old) }

    // In every case, that of wanting memory too.
    ensures gave_some { GaveUpTo L.left L.came link.old link.new (longest_head + longest_body) }
    ensures never_falls { NeverFalls (L.faults link.old) (L.faults link.new) }
    ensures sink_kept { L.as_sink link.new ≡ L.as_sink link.old }
{
    read_message::<Request, L>(alloc, link)
}

/// Whether a reply may have this status code and this body: the code is 200, or it is one of 400, 404, 405, 411, 413 and
/// 415 and the body is empty.
pub fn is_reply(status: u16, body: &[u8]) -> bool
    ensures { IsTrue result ↔ IsReplyWith status body.now }
{
    match status {
        200 => true,
        400 | 404 | 405 | 411 | 413 | 415 => body.is_empty(),
        _ => false,
    }
}

/// Writes a reply with this status code and this body; `is_reply` tells whether there is one. Only the link can fail.
///
/// The cost is one pass over the body; a short reply takes one call of the link, where the link takes it whole.
pub fn write_reply<L: Sink>(
    alloc: Global,
    link: &mut L,
    status: u16,
    body: &[u8],
) -> Result<(), EdgeFault>
    requires { IsReplyWith status body.now }

    ensures whole { OnOk result (Grew (L.taken link.old) (L.taken link.new) (reply_bytes status body.now)) }
    ensures no_fault { OnOk result (L.faults link.new ≡ L.faults link.old) }

    ensures fault { IfErr result IsOutside }
    ensures cause { IfErr result (λ fault. HasCause fault (L.faults link.old) (L.faults link.new)) }
    ensures unwritten { IfErr result (λ fault. fault ≡ OutOfMemory → L.taken link.new ≡ L.taken link.old) }

    // In every case.
    ensures took_front { TookFront (L.taken link.old) (L.taken link.new) (reply_bytes status body.now) }
    ensures never_falls { NeverFalls (L.faults link.old) (L.faults link.new) }
    ensures source_kept { L.as_source link.new ≡ L.as_source link.old }
{
    let line = status_line(alloc, status)?;
    write_message(alloc, link, &line, body)
}
