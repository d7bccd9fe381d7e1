//! The lines of a script.

ghost use Rattle.std.specs.Prelude.{◌≡◌, ◌++◌, ◌∷◌, [], codes, OnOk, OnErr, MatchResult};
ghost use Rattle.schedule_text.specs.Grammar.{AnyText, change_forms};
ghost use Rattle.schedule_text.specs.ScriptRefusals.{IsScriptFault, MayFollow, script_forms};
ghost use Rattle.schedule_text.specs.Scripts.{IsScriptLine, script_words};
ghost use Rattle.schedule_text.specs.Reading.{IsFaultThere, IsReading};
ghost use Rattle.schedule_text.specs.Refusals.{words_of};

use crate::change::change_of;
use crate::fault::{LineFault, LineReason};
use crate::pieces::{after, are_same};
use crate::script::{Script, ScriptLine};
use crate::text_word::one_text;
use std::alloc::Global;
use wire_fields::NoMemory;

const LINE_LIMIT: usize = 10_000;

/// The passphrase that is chosen, after its first word.
fn set_pass(alloc: Global, line: &[u8]) -> Result<ScriptLine, LineFault>
    ensures { IsReading (codes "setpass" ∷ []) ((AnyText ∷ []) ∷ []) IsScriptLine script_words
        (words_of line.now) result }
{
    let pass = one_text(alloc, line)?;
    Ok(ScriptLine::SetPass(pass))
}

/// The passphrase that is given, after its first word.
fn give_pass(alloc: Global, line: &[u8]) -> Result<ScriptLine, LineFault>
    ensures { IsReading (codes "givepass" ∷ []) ((AnyText ∷ []) ∷ []) IsScriptLine script_words
        (words_of line.now) result }
{
    let pass = one_text(alloc, line)?;
    Ok(ScriptLine::GivePass(pass))
}

/// The change that a line says.
fn change_line(alloc: Global, line: &[u8]) -> Result<ScriptLine, LineFault>
    ensures { IsReading [] change_forms IsScriptLine script_words (words_of line.now) result }
{
    let edit = change_of(alloc, line)?;
    Ok(ScriptLine::Change(edit))
}

/// What a line says, wherever it stands.
fn script_line_of(alloc: Global, line: &[u8]) -> Result<ScriptLine, LineFault>
    ensures { IsReading [] script_forms IsScriptLine script_words (words_of line.now) result }
{
    if are_same(line, b"sync") {
        return Ok(ScriptLine::Sync);
    }
    if are_same(line, b"join") {
        return Ok(ScriptLine::Join);
    }
    if let Some(rest) = after(line, b"setpass ") {
        return set_pass(alloc, rest);
    }
    if let Some(rest) = after(line, b"givepass ") {
        return give_pass(alloc, rest);
    }
    change_line(alloc, line)
}

/// What a line says after others, if it may stand there.
pub(crate) fn following_line(
    alloc: Global,
    before: &Script,
    line: &[u8],
) -> Result<ScriptLine, LineFault>
    ensures { MatchResult result
        (λ said. MayFollow before.now said × (words_of line.now ≡ script_words said))
        (λ fault. IsFaultThere (IsScriptFault before.now) (words_of line.now) fault) }
{
    let said = script_line_of(alloc, line)?;
    if before.lines.len() >= LINE_LIMIT {
        return Err(LineFault::Bad(LineReason::Many));
    }
    Ok(said)
}

/// Puts a line after others. After an `Err` nothing has changed.
pub(crate) fn put_script_line(before: &mut Script, line: ScriptLine) -> Result<(), NoMemory>
    ensures ok { OnOk result (before.new.lines ≡ before.old.lines ++ line ∷ []) }
    ensures err { OnErr result (before.new ≡ before.old) }
{
    before.lines.push(line)
}
