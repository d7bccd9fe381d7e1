//! Whole messages as they are shown.
ghost use Rattle.std.specs.Prelude.{◌≡◌, [], ◌∷◌, ◌++◌, codes, IfOk, OnOk};
ghost use Rattle.std.specs.List.{flat_map};
ghost use Rattle.std.specs.Fmt.{decimal};
ghost use Rattle.message_text.specs.Lines.{entity_line, mark_line, answer_line};
ghost use Rattle.message_text.specs.Texts.{commit_head, marks_head, request_text, answers_head, updates_head, reply_text, birthday_line, canonical_line, message_lines, shown_text, checked_text};

use crate::lines::{write_answer_line, write_entity_line, write_mark_line};
use crate::message::WireMessage;
use std::alloc::Global;
use sync_messages::{Commit, Entity, EntryAnswer, GetUpdates, Marker, Reply, Request, Updates};
use text_lines::{Piece, write_pieces, write_text};
use wire_fields::{NoMemory, Octets};

/// A message in lines, and whether its bytes were canonical. It takes time linear in the texts of the message.
pub fn shown_text(
    alloc: Global,
    message: &WireMessage,
    canonical: bool,
) -> Result<Vec<u8>, NoMemory>
    ensures { IfOk result (λ text. text.items ≡ shown_text message.now canonical) }
{
    let mut text = Vec::new(alloc);
    write_message(&mut text, message)?;
    write_text(&mut text, canonical_line(canonical))?;
    Ok(text)
}

/// Says that bytes are a message, and whether they are canonical.
#[tactic(auto, unfolding(crate::specs::Texts::checked_text))]
pub fn checked_text(canonical: bool) -> &'static [u8]
    ensures { result.now ≡ checked_text canonical }
{
    if canonical {
        b"ok canonical\n"
    } else {
        b"ok other\n"
    }
}

#[tactic(auto, unfolding(crate::specs::Texts::canonical_line))]
fn canonical_line(canonical: bool) -> &'static [u8]
    ensures { result.now ≡ canonical_line canonical }
{
    if canonical {
        b"canonical\n"
    } else {
        b"other\n"
    }
}

fn write_message(out: &mut Vec<u8>, message: &WireMessage) -> Result<(), NoMemory>
    ensures { OnOk result (out.new.items ≡ out.old.items ++ message_lines message.now) }
{
    match message {
        WireMessage::ToServer(message) => {
            write_request(out, &message.request)?;
            write_birthday(out, &message.birthday)
        }
        WireMessage::FromServer(message) => {
            write_reply(out, &message.reply)?;
            write_birthday(out, &message.birthday)
        }
    }
}

#[tactic(auto, unfolding(crate::specs::Texts::birthday_line))]
fn write_birthday(out: &mut Vec<u8>, birthday: &Option<Octets>) -> Result<(), NoMemory>
    ensures { OnOk result (out.new.items ≡ out.old.items ++ birthday_line birthday.now) }
{
    match birthday {
        None => write_text(out, b"no birthday\n"),
        Some(birthday) => write_pieces(
            out,
            &[
                Piece::Text(b"birthday "),
                Piece::Word(birthday.as_slice()),
                Piece::Text(b"\n"),
            ],
        ),
    }
}

#[tactic(auto, unfolding(crate::specs::Texts::request_text))]
fn write_request(out: &mut Vec<u8>, request: &Request) -> Result<(), NoMemory>
    ensures { OnOk result (out.new.items ≡ out.old.items ++ request_text request.now) }
{
    match request {
        Request::Commit(commit) => {
            write_commit_head(out, commit)?;
            write_entities(out, commit.entries.as_slice())
        }
        Request::Updates(updates) => {
            write_marks_head(out, updates)?;
            write_marks(out, updates.marks.as_slice())
        }
    }
}

#[tactic(auto, unfolding(crate::specs::Texts::commit_head))]
fn write_commit_head(out: &mut Vec<u8>, commit: &Commit) -> Result<(), NoMemory>
    ensures { OnOk result (out.new.items ≡ out.old.items ++ commit_head commit.now) }
{
    write_pieces(
        out,
        &[
            Piece::Text(b"commit "),
            Piece::Word(commit.guid.as_slice()),
            Piece::Text(b" entries "),
            Piece::Number(commit.entries.len() as u64),
            Piece::Text(b"\n"),
        ],
    )
}

#[tactic(auto, unfolding(crate::specs::Texts::marks_head))]
fn write_marks_head(out: &mut Vec<u8>, updates: &GetUpdates) -> Result<(), NoMemory>
    ensures { OnOk result (out.new.items ≡ out.old.items ++ marks_head updates.now) }
{
    write_pieces(
        out,
        &[
            Piece::Text(b"updates marks "),
            Piece::Number(updates.marks.len() as u64),
            Piece::Text(b"\n"),
        ],
    )
}

#[tactic(auto, unfolding(crate::specs::Texts::reply_text))]
fn write_reply(out: &mut Vec<u8>, reply: &Reply) -> Result<(), NoMemory>
    ensures { OnOk result (out.new.items ≡ out.old.items ++ reply_text reply.now) }
{
    match reply {
        Reply::Committed(answers) => {
            write_answers_head(out, answers.as_slice())?;
            write_answers(out, answers.as_slice())
        }
        Reply::Updates(updates) => {
            write_updates_head(out, updates)?;
            write_entities(out, updates.entries.as_slice())?;
            write_marks(out, updates.marks.as_slice())
        }
        Reply::Refused(code) => write_code(out, *code),
    }
}

#[tactic(auto, unfolding(crate::specs::Texts::answers_head))]
fn write_answers_head(out: &mut Vec<u8>, answers: &[EntryAnswer]) -> Result<(), NoMemory>
    ensures { OnOk result (out.new.items ≡ out.old.items ++ answers_head answers.now) }
{
    write_pieces(
        out,
        &[
            Piece::Text(b"committed "),
            Piece::Number(answers.len() as u64),
            Piece::Text(b"\n"),
        ],
    )
}

#[tactic(auto, unfolding(crate::specs::Texts::updates_head))]
fn write_updates_head(out: &mut Vec<u8>, updates: &Updates) -> Result<(), NoMemory>
    ensures { OnOk result (out.new.items ≡ out.old.items ++ updates_head updates.now) }
{
    write_pieces(
        out,
        &[
            Piece::Text(b"updates "),
            Piece::Number(updates.entries.len() as u64),
            Piece::Text(b" remaining "),
            Piece::Number(updates.remaining),
            Piece::Text(b"\n"),
        ],
    )
}

fn write_code(out: &mut Vec<u8>, code: u32) -> Result<(), NoMemory>
    ensures { OnOk result (out.new.items ≡ out.old.items ++ codes "error " ++ decimal code ++ 10 ∷ []) }
{
    write_pieces(
        out,
        &[
            Piece::Text(b"error "),
            Piece::Number(u64::from(code)),
            Piece::Text(b"\n"),
        ],
    )
}

fn write_entities(out: &mut Vec<u8>, entities: &[Entity]) -> Result<(), NoMemory>
    ensures { OnOk result (out.new.items ≡ out.old.items ++ flat_map entity_line entities.now) }
{
    for entity in entities {
        write_entity_line(out, entity)?;
    }
    Ok(())
}

fn write_marks(out: &mut Vec<u8>, markers: &[Marker]) -> Result<(), NoMemory>
    ensures { OnOk result (out.new.items ≡ out.old.items ++ flat_map mark_line markers.now) }
{
    for marker in markers {
        write_mark_line(out, marker)?;
    }
    Ok(())
}

fn write_answers(out: &mut Vec<u8>, answers: &[EntryAnswer]) -> Result<(), NoMemory>
    ensures { OnOk result (out.new.items ≡ out.old.items ++ flat_map answer_line answers.now) }
{
    for answer in answers {
        write_answer_line(out, answer)?;
    }
    Ok(())
}
