//! A script from its text.

ghost use Rattle.std.specs.Prelude.{◌≡◌, ◌≤◌, ◌+◌, ℕ, Ok, Err, length, IfOk, IfErr, MatchResult};
ghost use Rattle.schedule_text.specs.declared.fault.LineReason.{LineReason as Reason};
ghost use Rattle.schedule_text.specs.declared.script.Script.{Script as Plan};
ghost use Rattle.schedule_text.specs.Answers.{IsUnlessNoMemory, IsFaultOf};
ghost use Rattle.schedule_text.specs.Limits.{MAX_SCRIPT_LINES};
ghost use Rattle.schedule_text.specs.Reading.{IsFaultNext};
ghost use Rattle.schedule_text.specs.Refusals.{words_of};
ghost use Rattle.schedule_text.specs.ScriptRefusals.{IsScriptFault, IsScriptRefused, MayFollow};
ghost use Rattle.schedule_text.specs.Scripts.{SpellsScript, script_words};

use crate::fault::{LineReason, ParseFault};
use crate::parse::at_line;
use crate::pieces::cut_at;
use crate::script::{Script, ScriptLine};
use crate::script_line::{following_line, put_script_line};
use std::alloc::Global;
use wire_fields::List;

/// The number of the line after those of a script.
fn next_script_line(before: &Script) -> u64
    requires few_lines { length before.now.lines ≤ MAX_SCRIPT_LINES }
    ensures { result ≡ length before.now.lines + 1 }
{
    before.lines.len() as u64 + 1
}

/// What the next line says, if it may stand there.
fn script_line_after(alloc: Global, before: &Script, line: &[u8]) -> Result<ScriptLine, ParseFault>
    requires few_lines { length before.now.lines ≤ MAX_SCRIPT_LINES }
    ensures { MatchResult result
        (λ said. MayFollow before.now said × (words_of line.now ≡ script_words said))
        (λ fault. IsFaultNext (IsScriptFault before.now) (length before.now.lines) (words_of line.now) fault) }
{
    match following_line(alloc, before, line) {
        Ok(said) => Ok(said),
        Err(fault) => Err(at_line(fault, next_script_line(before))),
    }
}

/// The script that a text spells, or its first line that cannot stand.
fn script_of(alloc: Global, bytes: &[u8]) -> Result<Script, ParseFault>
    ensures { MatchResult result (λ script. SpellsScript bytes.now script)
        (λ fault. IsFaultOf (IsScriptRefused bytes.now) fault) }
{
    let mut script = Script {
        lines: List::new(alloc),
    };
    let mut rest = bytes;
    while !rest.is_empty() {
        let Some((line, more)) = cut_at(rest, b'\n') else {
            let line = next_script_line(&script);
            return Err(ParseFault::BadLine {
                line,
                reason: LineReason::End,
            });
        };
        let said = script_line_after(alloc, &script, line)?;
        put_script_line(&mut script, said)?;
        rest = more;
    }
    Ok(script)
}

/// The script that a text spells. A text of no bytes spells the script without lines.
///
/// It looks at each byte a constant number of times, so it takes time linear in the length of the text,
/// and copies only the texts of the script, once. A text that spells no script is refused at the first line that
/// cannot stand in its place: a script has at most 10,000 lines, and each of its lines may stand anywhere. Memory may
/// be wanting at any line.
pub fn parse_script(alloc: Global, bytes: &[u8]) -> Result<Script, ParseFault>
    // What is read is spelled so.
    ensures ok { IfOk result (λ script. SpellsScript bytes.now script) }
    // Where a line is refused, it is the first that cannot stand, for the right reason.
    ensures refused { IfErr result (λ fault. IsFaultOf (IsScriptRefused bytes.now) fault) }
    // What is spelled so is read, unless memory is wanting.
    ensures taken { (script : Plan) → SpellsScript bytes.now script → IsUnlessNoMemory result (Ok script) }
    // A text with a line that cannot stand is refused there, unless memory is wanting.
    ensures told { (line : ℕ) (reason : Reason) → IsScriptRefused bytes.now line reason
        → IsUnlessNoMemory result (Err (ParseFault.BadLine line reason)) }
{
    script_of(alloc, bytes)
}
