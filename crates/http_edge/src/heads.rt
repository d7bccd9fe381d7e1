//! What the bytes of a head say.
ghost use Rattle.std.specs.Prelude.{◌≡◌, length, MatchOption, IfSome, IfOk, IfErr, ◌≤◌};
ghost use Rattle.httparse.specs.Grammar.{RequestHead, ResponseHead};
ghost use Rattle.httparse.specs.Spans.{IsRequestWithin, IsRequestAt, IsResponseWithin, IsResponseAt};
ghost use Rattle.http_edge.specs.Faults.{IfLinkFault};
ghost use Rattle.http_edge.specs.Fields.{longest_body};
ghost use Rattle.http_edge.specs.Heads.{most_fields};
ghost use Rattle.http_edge.specs.Requests.{IsRequest, RequestSays, is_post, is_command_path};
ghost use Rattle.http_edge.specs.Replies.{IsReply, ReplySays};

use crate::EdgeFault;
use crate::fields::body_length;
use crate::message::MessageKind;
use httparse::Status;
use httparse::spans::{
    EMPTY_HEADER_SPAN, HeaderSpan, RequestSpans, ResponseSpans, parse_request, parse_response,
};

// The most header fields that a head may have.
const MOST_FIELDS: usize = 64;

// A request: its head says what the definition says of it, in time linear in its bytes.
pub(crate) struct Request;

impl MessageKind for Request {
    ghost says = { RequestSays };

    fn head_says(head: &[u8]) -> Result<u64, EdgeFault> {
        let mut fields = [EMPTY_HEADER_SPAN; MOST_FIELDS];
        let Some(request) = whole_request(head, &mut fields) else {
            return Err(EdgeFault::BadHead);
        };
        if !is_post(request.method.of(head)) {
            return Err(EdgeFault::BadMethod);
        }
        if !is_command_path(request.path.of(head)) {
            return Err(EdgeFault::BadPath);
        }
        body_length(head, &fields[..request.headers])
    }
}

// A reply: its head says what the definition says of it, in time linear in its bytes.
pub(crate) struct Reply;

impl MessageKind for Reply {
    ghost says = { ReplySays };

    fn head_says(head: &[u8]) -> Result<u64, EdgeFault> {
        let mut fields = [EMPTY_HEADER_SPAN; MOST_FIELDS];
        let Some(reply) = whole_reply(head, &mut fields) else {
            return Err(EdgeFault::BadHead);
        };
        if reply.code != 200 {
            return Err(EdgeFault::Status { code: reply.code });
        }
        body_length(head, &fields[..reply.headers])
    }
}

// Where the parts of a request's head are, where all of these bytes are one.
fn whole_request(head: &[u8], fields: &mut [HeaderSpan]) -> Option<RequestSpans>
    requires { length fields.old ≡ most_fields }
    ensures whole { MatchOption result ((whole : RequestHead) → ¬ (IsRequest head.now whole)) (λ spans.
        (whole : RequestHead) × IsRequest head.now whole × IsRequestAt head.now fields.new spans whole) }
    ensures within { IfSome result (IsRequestWithin head.now fields.new) }
{
    match parse_request(head, fields) {
        Ok(Status::Complete(request)) if request.len == head.len() => Some(request),
        _ => None,
    }
}

// Where the parts of a reply's head are, where all of these bytes are one.
fn whole_reply(head: &[u8], fields: &mut [HeaderSpan]) -> Option<ResponseSpans>
    requires { length fields.old ≡ most_fields }
    ensures whole { MatchOption result ((whole : ResponseHead) → ¬ (IsReply head.now whole)) (λ spans.
        (whole : ResponseHead) × IsReply head.now whole × IsResponseAt head.now fields.new spans whole) }
    ensures within { IfSome result (IsResponseWithin head.now fields.new) }
{
    match parse_response(head, fields) {
        Ok(Status::Complete(reply)) if reply.len == head.len() => Some(reply),
        _ => None,
    }
}

#[tactic(auto, unfolding(crate::specs::Requests::is_post))]
fn is_post(method: &[u8]) -> bool
    ensures { result ≡ is_post method.now }
{
    method == b"POST".as_slice()
}

#[tactic(auto, unfolding(crate::specs::Requests::is_command_path))]
fn is_command_path(target: &[u8]) -> bool
    ensures { result ≡ is_command_path target.now }
{
    target == b"/command/".as_slice() || target.starts_with(b"/command/?")
}
