ghost use Rattle.std.specs.Prelude.{◌≡◌, [], ◌∷◌, ◌++◌, OnOk, OnErr};
ghost use Rattle.std.specs.Fmt.{decimal};
ghost use Rattle.sync_model.specs.Text.{kind_word};
ghost use Rattle.sync_model.specs.declared.message.Entry.{Entry};
ghost use Rattle.sync_model.specs.declared.message.Content.{Content as AnyContent};
ghost use Rattle.run_setting.specs.Hashed.{hashed};
ghost use Rattle.sync_model.specs.Report.{pass_number, row_word, lock_text, value_text, events_text, server_text, entity_line, client_text, side_text, value_line_text, fate_text, fate_line, totals_text};
ghost use Rattle.text_lines.specs.Continued.{Continues};

use crate::values::{write_lock, write_value};
use client_tags::TagHash;
use sync_model::{Content, Fate, Kind, Row, Value};
use text_lines::{Piece, kind_name, write_pieces, write_text};
use wire_fields::NoMemory;

/// What the lines of a client's type begin with.
fn write_owner(out: &mut Vec<u8>, subject: &[u8], client: u32, kind: Kind) -> Result<(), NoMemory>
    ensures ok { OnOk result (out.new.items ≡
        out.old.items ++ subject.now ++ decimal client ++ 32 ∷ kind_word kind) }
    ensures err { OnErr result (Continues out.old.items out.new.items) }
{
    write_pieces(
        out,
        &[
            Piece::Text(subject),
            Piece::Number(u64::from(client)),
            Piece::Text(b" "),
            Piece::Text(kind_name(kind)),
        ],
    )
}

/// A value as the last words of a line, and the line's end.
#[tactic(auto, using(text_lines::proofs::Continuing::continues_after))]
fn write_last_value(out: &mut Vec<u8>, value: &Value) -> Result<(), NoMemory>
    ensures ok { OnOk result (out.new.items ≡ out.old.items ++ 32 ∷ value_text hashed (pass_number hashed []) value.now ++ 10 ∷ []) }
    ensures err { OnErr result (Continues out.old.items out.new.items) }
{
    write_text(out, b" ")?;
    write_value(out, value)?;
    write_text(out, b"\n")
}

/// How many events there were, and how many of them were void.
#[tactic(auto, unfolding(sync_model::specs::Report::events_text))]
pub fn write_events_line(out: &mut Vec<u8>, events: u64, void: u64) -> Result<(), NoMemory>
    ensures ok { OnOk result (out.new.items ≡ out.old.items ++ events_text events void) }
    ensures err { OnErr result (Continues out.old.items out.new.items) }
{
    write_pieces(
        out,
        &[
            Piece::Text(b"events "),
            Piece::Number(events),
            Piece::Text(b" void "),
            Piece::Number(void),
            Piece::Text(b"\n"),
        ],
    )
}

/// The server's version, and how many keys it has.
#[tactic(auto, unfolding(sync_model::specs::Report::server_text))]
pub fn write_server_line(out: &mut Vec<u8>, version: u64, keys: u64) -> Result<(), NoMemory>
    ensures ok { OnOk result (out.new.items ≡ out.old.items ++ server_text version keys) }
    ensures err { OnErr result (Continues out.old.items out.new.items) }
{
    write_pieces(
        out,
        &[
            Piece::Text(b"server version "),
            Piece::Number(version),
            Piece::Text(b" keys "),
            Piece::Number(keys),
            Piece::Text(b"\n"),
        ],
    )
}

/// A write of this version, of a key of this type and hash, in time linear in its texts.
#[tactic(auto, using(text_lines::proofs::Continuing::continues_after), unfolding(sync_model::specs::Report::entity_line, run_setting::specs::Hashed::hashed))]
pub fn write_entity_line(
    out: &mut Vec<u8>,
    version: u64,
    kind: Kind,
    hash: &TagHash,
    content: &Content,
) -> Result<(), NoMemory>
    ensures ok { (write : Entry AnyContent) → write.key ≡ record { kind = kind; hash = hash.now }
        → write.content ≡ content.now
        → OnOk result (out.new.items ≡ out.old.items ++ entity_line hashed (pass_number hashed []) version write) }
    ensures err { OnErr result (Continues out.old.items out.new.items) }
{
    write_pieces(
        out,
        &[
            Piece::Text(b"entity "),
            Piece::Number(version),
            Piece::Text(b" "),
            Piece::Text(kind_name(kind)),
            Piece::Text(b" "),
        ],
    )?;
    write_pieces(out, &[Piece::Text(&hash.text()), Piece::Text(b" ")])?;
    write_lock(out, &content.lock)?;
    write_last_value(out, &content.value)
}

/// Whether a client is caught up.
#[tactic(auto, unfolding(sync_model::specs::Report::client_text))]
pub fn write_client_line(out: &mut Vec<u8>, number: u32, caught_up: bool) -> Result<(), NoMemory>
    ensures ok { OnOk result (out.new.items ≡ out.old.items ++ client_text number caught_up) }
    ensures err { OnErr result (Continues out.old.items out.new.items) }
{
    let state: &[u8] = if caught_up { b" caught-up" } else { b" behind" };
    write_pieces(
        out,
        &[
            Piece::Text(b"client "),
            Piece::Number(u64::from(number)),
            Piece::Text(state),
            Piece::Text(b"\n"),
        ],
    )
}

/// What a client's side of a type counts.
#[derive(Clone, Copy, Debug, PartialEq, Eq)]
pub struct SideCounts {
    /// The version up to which it has all writes.
    pub mark: u64,
    /// How many keys are due.
    pub due: u64,
    /// How many keys are to be sealed anew.
    pub reseal: u64,
    /// How many updates wait for a key.
    pub pending: u64,
    /// How many tasks wait for a turn.
    pub mailbox: u64,
}

/// What a client's side of a type counts.
#[tactic(auto, using(text_lines::proofs::Continuing::continues_after), unfolding(sync_model::specs::Report::side_text))]
pub fn write_side_line(
    out: &mut Vec<u8>,
    number: u32,
    kind: Kind,
    counts: SideCounts,
) -> Result<(), NoMemory>
    ensures ok { OnOk result (out.new.items ≡ out.old.items
        ++ side_text number kind counts.mark counts.due counts.reseal counts.pending counts.mailbox) }
    ensures err { OnErr result (Continues out.old.items out.new.items) }
{
    write_owner(out, b"side ", number, kind)?;
    write_pieces(
        out,
        &[
            Piece::Text(b" mark "),
            Piece::Number(counts.mark),
            Piece::Text(b" due "),
            Piece::Number(counts.due),
            Piece::Text(b" reseal "),
            Piece::Number(counts.reseal),
        ],
    )?;
    write_pieces(
        out,
        &[
            Piece::Text(b" pending "),
            Piece::Number(counts.pending),
            Piece::Text(b" mailbox "),
            Piece::Number(counts.mailbox),
            Piece::Text(b"\n"),
        ],
    )
}

/// What a client has of a key: the version that it knows, and its value. It takes time linear in the
/// texts.
#[tactic(auto, using(text_lines::proofs::Continuing::continues_after), unfolding(sync_model::specs::Report::value_line_text, run_setting::specs::Hashed::hashed))]
pub fn write_value_line(
    out: &mut Vec<u8>,
    number: u32,
    kind: Kind,
    hash: &TagHash,
    known: u64,
    own: &Value,
) -> Result<(), NoMemory>
    ensures ok { OnOk result (out.new.items ≡
        out.old.items ++ value_line_text hashed (pass_number hashed []) number kind hash.now known own.now) }
    ensures err { OnErr result (Continues out.old.items out.new.items) }
{
    write_owner(out, b"value ", number, kind)?;
    write_pieces(
        out,
        &[
            Piece::Text(b" "),
            Piece::Text(&hash.text()),
            Piece::Text(b" known "),
            Piece::Number(known),
        ],
    )?;
    write_last_value(out, own)
}

// The name of a row of the conflict table.
#[tactic(auto, unfolding(sync_model::specs::Report::row_word))]
fn row_name(row: Row) -> &'static [u8]
    ensures { result.now ≡ row_word row }
{
    match row {
        Row::C0 => b"C0",
        Row::C1 => b"C1",
        Row::C2 => b"C2",
        Row::C3 => b"C3",
        Row::C4 => b"C4",
        Row::C5 => b"C5",
        Row::C6 => b"C6",
    }
}

// What became of an edit by a write of this version and a row of the conflict table.
fn write_settled(out: &mut Vec<u8>, verb: &[u8], version: u64, row: Row) -> Result<(), NoMemory>
    ensures ok { OnOk result (out.new.items ≡ out.old.items ++ verb.now ++ decimal version ++ 32 ∷ row_word row) }
    ensures err { OnErr result (Continues out.old.items out.new.items) }
{
    write_pieces(
        out,
        &[
            Piece::Text(verb),
            Piece::Number(version),
            Piece::Text(b" "),
            Piece::Text(row_name(row)),
        ],
    )
}

#[tactic(auto, unfolding(sync_model::specs::Report::fate_text))]
fn write_fate(out: &mut Vec<u8>, fate: Option<Fate>) -> Result<(), NoMemory>
    ensures ok { OnOk result (out.new.items ≡ out.old.items ++ fate_text fate) }
    ensures err { OnErr result (Continues out.old.items out.new.items) }
{
    match fate {
        None => write_text(out, b"stands"),
        Some(Fate::Followed(later)) => {
            write_pieces(out, &[Piece::Text(b"followed "), Piece::Number(later)])
        }
        Some(Fate::Committed(version)) => {
            write_pieces(out, &[Piece::Text(b"committed "), Piece::Number(version)])
        }
        Some(Fate::Matched(version)) => {
            write_pieces(out, &[Piece::Text(b"matched "), Piece::Number(version)])
        }
        Some(Fate::Taken { version, row }) => write_settled(out, b"taken ", version, row),
        Some(Fate::Merged { version, row }) => write_settled(out, b"merged ", version, row),
    }
}

/// What became of a client's edit, by the number that counts the client's edits of the type.
#[tactic(auto, using(text_lines::proofs::Continuing::continues_after), unfolding(sync_model::specs::Report::fate_line))]
pub fn write_fate_line(
    out: &mut Vec<u8>,
    client: u32,
    kind: Kind,
    edit: u64,
    fate: Option<Fate>,
) -> Result<(), NoMemory>
    ensures ok { OnOk result (out.new.items ≡ out.old.items ++ fate_line client kind edit fate) }
    ensures err { OnErr result (Continues out.old.items out.new.items) }
{
    write_owner(out, b"fate ", client, kind)?;
    write_pieces(
        out,
        &[Piece::Text(b" "), Piece::Number(edit), Piece::Text(b" ")],
    )?;
    write_fate(out, fate)?;
    write_text(out, b"\n")
}

/// How many requests were made, and how many deliveries.
#[tactic(auto, unfolding(sync_model::specs::Report::totals_text))]
pub fn write_totals_line(out: &mut Vec<u8>, requests: u64, deliveries: u64) -> Result<(), NoMemory>
    ensures ok { OnOk result (out.new.items ≡ out.old.items ++ totals_text requests deliveries) }
    ensures err { OnErr result (Continues out.old.items out.new.items) }
{
    write_pieces(
        out,
        &[
            Piece::Text(b"requests "),
            Piece::Number(requests),
            Piece::Text(b" deliveries "),
            Piece::Number(deliveries),
            Piece::Text(b"\n"),
        ],
    )
}
