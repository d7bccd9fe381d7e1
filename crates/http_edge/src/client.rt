//! The client's side: a request is written, and its reply read.
ghost use Rattle.std.specs.Prelude.{◌≡◌, ◌+◌, IfErr, OnOk};
ghost use Rattle.outer_edge.specs.Faults.{NeverFalls};
ghost use Rattle.outer_edge.specs.Source.{GaveUpTo, Grew};
ghost use Rattle.http_edge.specs.Faults.{HasCause, HasLinkCause, IsOutside, IfAnswered};
ghost use Rattle.http_edge.specs.Heads.{longest_head};
ghost use Rattle.http_edge.specs.Fields.{longest_body};
ghost use Rattle.http_edge.specs.Replies.{ReplySays};
ghost use Rattle.http_edge.specs.Messages.{Answers};
ghost use Rattle.http_edge.specs.Written.{request_bytes, TookFront};

use crate::EdgeFault;
use crate::heads::Reply;
use crate::message::read_message;
use crate::outgoing::{request_line, write_message};
use outer_edge::Link;
use std::alloc::Global;
use wire_fields::Octets;

/// Writes a request with this body, reads the reply, and gives its body. A reply with another status code than 200 is
/// a fault.
///
/// What it answers follows from the bytes that the link gives before its end, however the link cuts them, by the rules
/// and the order of [`read_request`](crate::read_request), with the status code in place of method and path. The cost is
/// one pass over both messages.
pub fn exchange<L: Link>(alloc: Global, link: &mut L, body: &[u8]) -> Result<Octets, EdgeFault>
    ensures request { IfAnswered result (Grew (L.taken link.old) (L.taken link.new) (request_bytes body.now)) }
    ensures answer { IfAnswered result (Answers ReplySays (L.left link.old) (L.left link.new) result) }
    ensures cause { IfErr result (λ fault. HasLinkCause fault
        (L.Source.faults link.old) (L.Source.faults link.new) (L.Sink.faults link.old) (L.Sink.faults link.new)) }
    ensures no_read_fault { OnOk result (L.Source.faults link.new ≡ L.Source.faults link.old) }
    ensures no_write_fault { OnOk result (L.Sink.faults link.new ≡ L.Sink.faults link.old) }

    // In every case, that of wanting memory too.
    ensures took_front { TookFront (L.taken link.old) (L.taken link.new) (request_bytes body.now) }
    ensures gave_some { GaveUpTo L.left L.came link.old link.new (longest_head + longest_body) }
    ensures reads_never_fall { NeverFalls (L.Source.faults link.old) (L.Source.faults link.new) }
    ensures writes_never_fall { NeverFalls (L.Sink.faults link.old) (L.Sink.faults link.new) }
{
    send(alloc, link, body)?;
    receive(alloc, link)
}

// Writes the request. The link's source stays as it was.
fn send<L: Link>(alloc: Global, link: &mut L, body: &[u8]) -> Result<(), EdgeFault>
    ensures whole { OnOk result (Grew (L.taken link.old) (L.taken link.new) (request_bytes body.now)) }
    ensures no_fault { OnOk result (L.Sink.faults link.new ≡ L.Sink.faults link.old) }

    ensures fault { IfErr result IsOutside }
    ensures cause { IfErr result (λ fault. HasCause fault (L.Sink.faults link.old) (L.Sink.faults link.new)) }

    ensures took_front { TookFront (L.taken link.old) (L.taken link.new) (request_bytes body.now) }
    ensures never_falls { NeverFalls (L.Sink.faults link.old) (L.Sink.faults link.new) }
    ensures left_kept { L.left link.new ≡ L.left link.old }
    ensures came_kept { L.came link.new ≡ L.came link.old }
    ensures source_faults_kept { L.Source.faults link.new ≡ L.Source.faults link.old }
{
    write_message(alloc, link, request_line(), body)
}

// Reads the reply. The link's sink stays as it was.
fn receive<L: Link>(alloc: Global, link: &mut L) -> Result<Octets, EdgeFault>
    ensures answer { IfAnswered result (Answers ReplySays (L.left link.old) (L.left link.new) result) }
    ensures cause { IfErr result (λ fault. HasCause fault (L.Source.faults link.old) (L.Source.faults link.new)) }
    ensures no_fault { OnOk result (L.Source.faults link.new ≡ L.Source.faults link.old) }

    ensures gave_some { GaveUpTo L.left L.came link.old link.new (longest_head + longest_body) }
    ensures never_falls { NeverFalls (L.Source.faults link.old) (L.Source.faults link.new) }
    ensures taken_kept { L.taken link.new ≡ L.taken link.old }
    ensures sink_faults_kept { L.Sink.faults link.new ≡ L.Sink.faults link.old }
{
    read_message::<Reply, L>(alloc, link)
}
