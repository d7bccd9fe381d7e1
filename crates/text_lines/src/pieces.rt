ghost use Rattle.std.specs.Prelude.{◌≡◌, ◌++◌, OnOk, OnErr};
ghost use Rattle.std.specs.List.{flat_map};
ghost use Rattle.text_lines.specs.Continued.{Continues};
ghost use Rattle.text_lines.specs.Pieces.{piece_text};

use crate::words::{write_number, write_signed, write_text, write_word};
use wire_fields::NoMemory;

/// A part of a line.
#[derive(Clone, Copy)]
pub enum Piece<'a> {
    /// Bytes as they are.
    Text(&'a [u8]),
    /// Bytes as a word.
    Word(&'a [u8]),
    Number(u64),
    Signed(i64),
}

fn write_piece(out: &mut Vec<u8>, piece: Piece) -> Result<(), NoMemory>
    ensures ok { OnOk result (out.new.items ≡ out.old.items ++ piece_text piece.entry) }
    ensures err { OnErr result (Continues out.old.items out.new.items) }
{
    match piece {
        Piece::Text(text) => write_text(out, text),
        Piece::Word(text) => write_word(out, text),
        Piece::Number(number) => write_number(out, number),
        Piece::Signed(number) => write_signed(out, number),
    }
}

/// Pieces one after another, in time linear in the text that they make.
#[tactic(auto, using(crate::proofs::Continuing::continues_after))]
pub fn write_pieces(out: &mut Vec<u8>, pieces: &[Piece]) -> Result<(), NoMemory>
    ensures ok { OnOk result (out.new.items ≡ out.old.items ++ flat_map piece_text pieces.now) }
    ensures err { OnErr result (Continues out.old.items out.new.items) }
{
    for piece in pieces {
        write_piece(out, *piece)?;
    }
    Ok(())
}
