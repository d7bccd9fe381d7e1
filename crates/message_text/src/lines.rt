//! The lines of entities, marks and answers.
ghost use Rattle.std.specs.Prelude.{◌≡◌, ◌∷◌, ◌++◌, codes, OnOk};
ghost use Rattle.message_text.specs.Lines.{sealed_of_kind, nigori_text, specifics_text, hash_word, deleted_text, entity_head, entity_line, mark_line, answer_line};
ghost use Rattle.sync_model.specs.Text.{kind_word};
ghost use Rattle.sync_model.specs.Report.{preference_text};

use client_tags::{Kind, TagHash};
use sync_messages::{Entity, EntryAnswer, Marker};
use sync_specifics::{NigoriContent, Sealed, Specifics};
use sync_values::Preference;
use text_lines::{Piece, kind_name, write_pieces, write_text};
use wire_fields::NoMemory;

/// The line of an entity, in time linear in its texts.
#[tactic(auto, unfolding(crate::specs::Lines::entity_line))]
pub fn write_entity_line(out: &mut Vec<u8>, entity: &Entity) -> Result<(), NoMemory>
    ensures { OnOk result (out.new.items ≡ out.old.items ++ entity_line entity.now) }
{
    write_entity_head(out, entity)?;
    write_text(out, b" hash ")?;
    write_hash(out, &entity.hash)?;
    write_text(out, b" ")?;
    write_specifics(out, &entity.specifics)?;
    write_text(out, b"\n")
}

#[tactic(auto, unfolding(crate::specs::Lines::entity_head))]
fn write_entity_head(out: &mut Vec<u8>, entity: &Entity) -> Result<(), NoMemory>
    ensures { OnOk result (out.new.items ≡ out.old.items ++ entity_head entity.now) }
{
    write_pieces(
        out,
        &[
            Piece::Text(b"entity "),
            Piece::Word(entity.id.as_slice()),
            Piece::Text(b" version "),
            Piece::Signed(entity.version),
            Piece::Text(deleted_text(entity.deleted)),
        ],
    )
}

/// The line of a progress marker.
#[tactic(auto, unfolding(crate::specs::Lines::mark_line))]
pub fn write_mark_line(out: &mut Vec<u8>, marker: &Marker) -> Result<(), NoMemory>
    ensures { OnOk result (out.new.items ≡ out.old.items ++ mark_line marker.now) }
{
    write_pieces(
        out,
        &[
            Piece::Text(b"mark "),
            Piece::Text(kind_name(marker.kind)),
            Piece::Text(b" "),
            Piece::Number(marker.mark.version),
            Piece::Text(b"\n"),
        ],
    )
}

/// The line of a server's answer to an entry, in time linear in its id.
#[tactic(auto, unfolding(crate::specs::Lines::answer_line))]
pub fn write_answer_line(out: &mut Vec<u8>, answer: &EntryAnswer) -> Result<(), NoMemory>
    ensures { OnOk result (out.new.items ≡ out.old.items ++ answer_line answer.now) }
{
    write_pieces(
        out,
        &[
            Piece::Text(b"answer "),
            Piece::Number(u64::from(answer.outcome.number())),
            Piece::Text(b" "),
            Piece::Word(answer.id.as_slice()),
            Piece::Text(b" "),
            Piece::Signed(answer.version),
            Piece::Text(b"\n"),
        ],
    )
}

#[tactic(auto, unfolding(crate::specs::Lines::deleted_text))]
fn deleted_text(deleted: bool) -> &'static [u8]
    ensures { result.now ≡ deleted_text deleted }
{
    if deleted {
        b" deleted 1"
    } else {
        b" deleted 0"
    }
}

#[tactic(auto, unfolding(crate::specs::Lines::hash_word))]
fn write_hash(out: &mut Vec<u8>, hash: &Option<TagHash>) -> Result<(), NoMemory>
    ensures { OnOk result (out.new.items ≡ out.old.items ++ hash_word hash.now) }
{
    match hash {
        None => write_text(out, b"none"),
        Some(hash) => write_text(out, &hash.text()),
    }
}

// What an entity holds.
#[tactic(auto, unfolding(crate::specs::Lines::specifics_text))]
fn write_specifics(out: &mut Vec<u8>, specifics: &Option<Specifics>) -> Result<(), NoMemory>
    ensures { OnOk result (out.new.items ≡ out.old.items ++ specifics_text specifics.now) }
{
    match specifics {
        None => write_text(out, b"none"),
        Some(Specifics::EmptyOf(kind)) => write_empty(out, *kind),
        Some(Specifics::Preference(preference)) => write_preference(out, preference),
        Some(Specifics::SealedPreference(sealed)) => write_sealed(out, Kind::Preference, sealed),
        Some(Specifics::Password(sealed)) => write_sealed(out, Kind::Password, sealed),
        Some(Specifics::Nigori(content)) => write_nigori(out, content),
    }
}

fn write_empty(out: &mut Vec<u8>, kind: Kind) -> Result<(), NoMemory>
    ensures { OnOk result (out.new.items ≡ out.old.items ++ codes "empty " ++ kind_word kind) }
{
    write_pieces(out, &[Piece::Text(b"empty "), Piece::Text(kind_name(kind))])
}

fn write_preference(out: &mut Vec<u8>, preference: &Preference) -> Result<(), NoMemory>
    ensures { OnOk result (out.new.items ≡ out.old.items ++ codes "preference " ++ preference_text preference.now) }
{
    write_pieces(
        out,
        &[
            Piece::Text(b"preference "),
            Piece::Word(preference.name.as_slice()),
            Piece::Text(b" "),
            Piece::Word(preference.value.as_slice()),
        ],
    )
}

#[tactic(auto, unfolding(crate::specs::Lines::sealed_of_kind))]
fn write_sealed(out: &mut Vec<u8>, kind: Kind, sealed: &Sealed) -> Result<(), NoMemory>
    ensures { OnOk result (out.new.items ≡ out.old.items ++ sealed_of_kind kind sealed.now) }
{
    write_pieces(
        out,
        &[
            Piece::Text(b"sealed "),
            Piece::Text(kind_name(kind)),
            Piece::Text(b" "),
            Piece::Word(sealed.key_name.as_slice()),
            Piece::Text(b" "),
            Piece::Number(sealed.blob.len() as u64),
        ],
    )
}

#[tactic(auto, unfolding(crate::specs::Lines::nigori_text))]
fn write_nigori(out: &mut Vec<u8>, content: &NigoriContent) -> Result<(), NoMemory>
    ensures { OnOk result (out.new.items ≡ out.old.items ++ nigori_text content.now) }
{
    write_pieces(
        out,
        &[
            Piece::Text(b"nigori "),
            Piece::Word(content.bag.key_name.as_slice()),
            Piece::Text(b" "),
            Piece::Number(content.bag.blob.len() as u64),
            Piece::Text(b" "),
            Piece::Number(u64::from(content.pass_kind.number())),
        ],
    )
}
