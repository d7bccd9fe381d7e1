//! The text of a script.

ghost use Rattle.std.specs.Prelude.{◌≡◌, ◌++◌, IfOk, OnOk, drop};
ghost use Rattle.std.specs.List.{flat_map, join_with_byte};
ghost use Rattle.schedule_text.specs.declared.script.ScriptLine.TheVariants.{Change};
ghost use Rattle.schedule_text.specs.Lines.{change_words};
ghost use Rattle.schedule_text.specs.Scripts.{script_line_text, script_text};

use crate::print::write_change;
use crate::script::{Script, ScriptLine};
use std::alloc::Global;
use sync_model::Edit;
use text_lines::{Piece, write_pieces, write_text};
use wire_fields::{NoMemory, Octets};

/// All but the first byte.
fn after_first(bytes: &[u8]) -> &[u8]
    ensures { result.now ≡ drop 1 bytes.now }
{
    match bytes {
        [_, rest @ ..] => rest,
        [] => bytes,
    }
}

/// The words of a change, with one space between each two.
fn write_bare_change(alloc: Global, out: &mut Vec<u8>, edit: &Edit) -> Result<(), NoMemory>
    ensures { OnOk result (out.new.items ≡ out.old.items ++ join_with_byte 32 (change_words edit.now)) }
{
    let mut words = Vec::new(alloc);
    write_change(&mut words, edit)?;
    write_text(out, after_first(&words))
}

/// The line of a change.
fn write_change_line(alloc: Global, out: &mut Vec<u8>, edit: &Edit) -> Result<(), NoMemory>
    ensures { OnOk result (out.new.items ≡ out.old.items ++ script_line_text (Change edit.now)) }
{
    write_bare_change(alloc, out, edit)?;
    write_text(out, b"\n")
}

/// A line of a script.
#[tactic(auto, unfolding(crate::specs::Scripts::script_line_text, crate::specs::Scripts::script_words))]
fn write_script_line(alloc: Global, out: &mut Vec<u8>, line: &ScriptLine) -> Result<(), NoMemory>
    ensures { OnOk result (out.new.items ≡ out.old.items ++ script_line_text line.now) }
{
    match line {
        ScriptLine::Change(edit) => write_change_line(alloc, out, edit),
        ScriptLine::SetPass(pass) => write_pieces(
            out,
            &[
                Piece::Text(b"setpass "),
                Piece::Word(pass.as_slice()),
                Piece::Text(b"\n"),
            ],
        ),
        ScriptLine::GivePass(pass) => write_pieces(
            out,
            &[
                Piece::Text(b"givepass "),
                Piece::Word(pass.as_slice()),
                Piece::Text(b"\n"),
            ],
        ),
        ScriptLine::Sync => write_text(out, b"sync\n"),
        ScriptLine::Join => write_text(out, b"join\n"),
    }
}

/// The lines of a script.
fn write_script_lines(
    alloc: Global,
    out: &mut Vec<u8>,
    lines: &[ScriptLine],
) -> Result<(), NoMemory>
    ensures { OnOk result (out.new.items ≡ out.old.items ++ flat_map script_line_text lines.now) }
{
    for line in lines {
        write_script_line(alloc, out, line)?;
    }
    Ok(())
}

/// The one text of a script.
///
/// It takes time linear in the length of the text. A script that no text spells, as one with too many lines, is written
/// by the same rules; a change of a profile's keys, for which there are no words, as an empty line.
#[tactic(auto, unfolding(crate::specs::Scripts::script_text))]
pub fn print_script(alloc: Global, script: &Script) -> Result<Octets, NoMemory>
    ensures { IfOk result (λ text. text ≡ script_text script.now) }
{
    let mut out = Vec::new(alloc);
    write_script_lines(alloc, &mut out, script.lines.as_slice())?;
    Ok(Octets::from_vec(out))
}
