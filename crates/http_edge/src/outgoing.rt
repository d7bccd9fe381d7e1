//! Messages that go out on a link.
ghost use Rattle.std.specs.Prelude.{◌≡◌, ◌++◌, string_bytes, IfOk, IfErr, OnOk, OnErr, true};
ghost use Rattle.outer_edge.specs.Faults.{NeverFalls, Rose};
ghost use Rattle.outer_edge.specs.Source.{Grew};
ghost use Rattle.http_edge.specs.Faults.{HasCause, IsOutside};
ghost use Rattle.http_edge.specs.Written.{header_lines, status_line, reason_phrase, is_reply_code, message, request_line, TookFront};
ghost use Rattle.http_edge.specs.declared.fault.EdgeFault.TheVariants.{LinkFault, NoMemory as OutOfMemory};

use crate::EdgeFault;
use outer_edge::{Sink, WriteFault, write_whole};
use std::alloc::Global;

// How many bytes of a body are sent along with the head, so that a short message goes out in one call.
const ALONG: usize = 4096;

// Writes a message of this first line, and maybe others, and this body.
pub(crate) fn write_message<L: Sink>(
    alloc: Global,
    link: &mut L,
    first: &str,
    body: &[u8],
) -> Result<(), EdgeFault>
    ensures whole { OnOk result (Grew (L.taken link.old) (L.taken link.new) (message first.now body.now)) }
    ensures no_fault { OnOk result (L.faults link.new ≡ L.faults link.old) }

    ensures fault { IfErr result (λ fault. IsOutside fault) }
    ensures cause { IfErr result (λ fault. HasCause fault (L.faults link.old) (L.faults link.new)) }
    ensures unwritten { IfErr result (λ fault. fault ≡ OutOfMemory → L.taken link.new ≡ L.taken link.old) }

    ensures took_front { TookFront (L.taken link.old) (L.taken link.new) (message first.now body.now) }
    ensures never_falls { NeverFalls (L.faults link.old) (L.faults link.new) }
    ensures source_kept { L.as_source link.new ≡ L.as_source link.old }
{
    let (along, rest) = body.split_at(body.len().min(ALONG));
    let front = message_front(alloc, first, body.len(), along)?;
    write_all(link, &front)?;
    write_all(link, rest)
}

// The head of a message whose body has this length, and the front of the body.
fn message_front(
    alloc: Global,
    first: &str,
    length: usize,
    along: &[u8],
) -> Result<Vec<u8>, EdgeFault>
    ensures front { IfOk result (λ front. front.items ≡ first.now ++ header_lines length ++ along.now) }
    ensures fault { IfErr result (λ fault. fault ≡ OutOfMemory) }
{
    let lines = header_lines(alloc, length)?;
    let mut front = Vec::from_slice(alloc, first.as_bytes())?;
    front.extend_from_slice(lines.as_bytes())?;
    front.extend_from_slice(along)?;
    Ok(front)
}

fn write_all<L: Sink>(link: &mut L, bytes: &[u8]) -> Result<(), EdgeFault>
    ensures whole { OnOk result (Grew (L.taken link.old) (L.taken link.new) bytes.now) }
    ensures no_fault { OnOk result (L.faults link.new ≡ L.faults link.old) }

    ensures fault { IfErr result (λ fault. fault ≡ LinkFault) }
    ensures failed { OnErr result (Rose (L.faults link.old) (L.faults link.new)) }

    ensures took_front { TookFront (L.taken link.old) (L.taken link.new) bytes.now }
    ensures never_falls { NeverFalls (L.faults link.old) (L.faults link.new) }
    ensures source_kept { L.as_source link.new ≡ L.as_source link.old }
{
    match write_whole(link, bytes) {
        Ok(()) => Ok(()),
        Err(WriteFault { .. }) => Err(EdgeFault::LinkFault),
    }
}

#[tactic(auto, unfolding(crate::specs::Written::header_lines))]
fn header_lines(alloc: Global, length: usize) -> Result<String, EdgeFault>
    ensures lines { IfOk result (λ lines. string_bytes lines ≡ header_lines length) }
    ensures fault { IfErr result (λ fault. fault ≡ OutOfMemory) }
{
    Ok(format!(in alloc;
        "Content-Type: application/octet-stream\r\nContent-Length: {length}\r\nConnection: close\r\n\r\n"
    )?)
}

#[tactic(auto, unfolding(crate::specs::Written::status_line))]
pub(crate) fn status_line(alloc: Global, code: u16) -> Result<String, EdgeFault>
    requires { is_reply_code code ≡ true }
    ensures line { IfOk result (λ line. string_bytes line ≡ status_line code) }
    ensures fault { IfErr result (λ fault. fault ≡ OutOfMemory) }
{
    let reason = reason_phrase(code);
    Ok(format!(in alloc; "HTTP/1.1 {code} {reason}\r\n")?)
}

#[tactic(auto, unfolding(crate::specs::Written::reason_phrase))]
fn reason_phrase(code: u16) -> &'static str
    ensures { result.now ≡ reason_phrase code }
{
    match code {
        200 => "OK",
        400 => "Bad Request",
        404 => "Not Found",
        405 => "Method Not Allowed",
        411 => "Length Required",
        413 => "Content Too Large",
        _ => "Unsupported Media Type",
    }
}

#[tactic(auto, unfolding(crate::specs::Written::request_line))]
pub(crate) fn request_line() -> &'static str
    ensures { result.now ≡ request_line }
{
    "POST /command/ HTTP/1.1\r\nHost: localhost\r\n"
}
