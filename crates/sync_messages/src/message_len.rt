//! How long messages are, as they are written.
ghost use Rattle.std.specs.Int.{w64, cast_unsigned};
ghost use Rattle.wire_format.specs.Spellings.{varint_field};
ghost use Rattle.message_fields.specs.Written.{varint_unless_zero};
ghost use Rattle.sync_messages.specs.Answers.{outcome_number};
ghost use Rattle.sync_messages.specs.Lengths.{IsLength};
ghost use Rattle.sync_messages.specs.Spellings.{answer_bytes, answers_bytes, commit_bytes, from_bytes, marker_bytes, markers_bytes, reply_bytes, request_bytes, to_bytes, updates_bytes};

use crate::entity_len::entities_len;
use crate::field_len::{
    len_around, len_if_some, len_of_both, len_of_bytes, len_of_group, len_of_varint,
    len_unless_empty, len_unless_zero,
};
use crate::message::{Commit, EntryAnswer, FromServer, Marker, Reply, Request, ToServer, Updates};

/// How many bytes `encode_to` writes, or the greatest number of 64 bits where they are more. It takes no memory, and
/// time linear in the number of entries and marks.
pub fn encoded_len_to(message: &ToServer) -> u64
    ensures { IsLength result (to_bytes message.now) }
{
    let request = request_len(&message.request);
    len_of_both(request, len_if_some(7, &message.birthday))
}

/// How many bytes `encode_from` writes, or the greatest number of 64 bits where they are more. It takes no memory, and
/// time linear in the number of entries, answers and marks.
pub fn encoded_len_from(message: &FromServer) -> u64
    ensures { IsLength result (from_bytes message.now) }
{
    let reply = reply_len(&message.reply);
    len_of_both(reply, len_if_some(6, &message.birthday))
}

fn request_len(request: &Request) -> u64
    ensures { IsLength result (request_bytes request.now) }
{
    match request {
        Request::Commit(commit) => {
            len_of_both(len_of_varint(3, 1), len_around(4, commit_len(commit)))
        }
        Request::Updates(updates) => {
            let marks = markers_len(6, updates.marks.as_slice());
            len_of_both(len_of_varint(3, 2), len_around(5, marks))
        }
    }
}

fn commit_len(commit: &Commit) -> u64
    ensures { IsLength result (commit_bytes commit.now) }
{
    let entries = entities_len(1, commit.entries.as_slice());
    len_of_both(entries, len_unless_empty(2, &commit.guid))
}

// The length of the fields of some markers.
fn markers_len(number: u32, markers: &[Marker]) -> u64
    ensures { IsLength result (markers_bytes number markers.now) }
{
    let mut total = 0;
    for marker in markers {
        total = len_of_both(total, len_around(number, marker_len(marker)));
    }
    total
}

fn marker_len(marker: &Marker) -> u64
    ensures { IsLength result (marker_bytes marker.now) }
{
    let kind = len_of_varint(1, u64::from(marker.kind.number()));
    len_of_both(kind, len_of_bytes(2, &marker.mark.token()))
}

fn reply_len(reply: &Reply) -> u64
    ensures { IsLength result (reply_bytes reply.now) }
{
    match reply {
        Reply::Committed(answers) => len_around(1, answers_len(answers.as_slice())),
        Reply::Updates(updates) => len_around(2, updates_len(updates)),
        Reply::Refused(code) => len_unless_zero(4, u64::from(*code)),
    }
}

fn answers_len(answers: &[EntryAnswer]) -> u64
    ensures { IsLength result (answers_bytes answers.now) }
{
    let mut total = 0;
    for answer in answers {
        total = len_of_both(total, len_of_group(1, answer_len(answer)));
    }
    total
}

fn answer_len(answer: &EntryAnswer) -> u64
    ensures { IsLength result (answer_bytes answer.now) }
{
    let outcome = outcome_len(answer);
    let id = len_unless_empty(3, &answer.id);
    let version = version_len(answer);
    len_of_both(outcome, len_of_both(id, version))
}

fn outcome_len(answer: &EntryAnswer) -> u64
    ensures { IsLength result (varint_field 2 (outcome_number answer.now.outcome)) }
{
    len_of_varint(2, u64::from(answer.outcome.number()))
}

fn version_len(answer: &EntryAnswer) -> u64
    ensures { IsLength result (varint_unless_zero 6 (cast_unsigned w64 answer.now.version)) }
{
    len_unless_zero(6, answer.version.cast_unsigned())
}

fn updates_len(updates: &Updates) -> u64
    ensures { IsLength result (updates_bytes updates.now) }
{
    let entries = entities_len(1, updates.entries.as_slice());
    let remaining = len_unless_zero(4, updates.remaining);
    let marks = markers_len(5, updates.marks.as_slice());
    len_of_both(entries, len_of_both(remaining, marks))
}
