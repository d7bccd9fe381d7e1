//! A schedule from its text.

ghost use Rattle.std.specs.Prelude.{◌≡◌, ◌≤◌, ◌∷◌, ◌++◌, ◌+◌, ℕ, Some, None, Ok, Err, length, IfOk, IfErr, MatchResult};
ghost use Rattle.sync_model.specs.declared.event.Schedule.{Schedule as Plan};
ghost use Rattle.schedule_text.specs.declared.fault.LineReason.{LineReason as Reason};
ghost use Rattle.schedule_text.specs.declared.line.Line.TheVariants.{Clients};
ghost use Rattle.schedule_text.specs.Faults.{IsFaultAfter};
ghost use Rattle.schedule_text.specs.Lines.{line_text, line_words, lines_of};
ghost use Rattle.schedule_text.specs.Limits.{MAX_CLIENTS, MAX_EVENTS, MAX_PASSES};
ghost use Rattle.schedule_text.specs.Spelling.{IsUpTo, Spells};
ghost use Rattle.schedule_text.specs.Refusals.{IsRefused, words_of};
ghost use Rattle.schedule_text.specs.Answers.{IsUnlessNoMemory, IsFaultOf};
ghost use Rattle.schedule_text.specs.Reading.{IsFaultNext, fault_at};
ghost use Rattle.schedule_text.specs.Places.{MayStand};

use crate::fault::{LineFault, LineReason, ParseFault};
use crate::line::Line;
use crate::pieces::cut_at;
use crate::place::{clients_of, put_line, standing_line};
use std::alloc::Global;
use sync_model::Schedule;
use wire_fields::List;

/// A fault of a line as one of a text.
pub(crate) fn at_line(fault: LineFault, line: u64) -> ParseFault
    ensures { result ≡ fault_at line fault }
{
    match fault {
        LineFault::Bad(reason) => ParseFault::BadLine { line, reason },
        LineFault::NoMemory => ParseFault::NoMemory,
    }
}

/// The number of the line after those of a schedule.
fn next_line(before: &Schedule) -> u64
    requires few_passes { length before.now.passes ≤ MAX_PASSES }
    requires few_events { length before.now.events ≤ MAX_EVENTS }
    ensures { result ≡ length (lines_of before.now) + 1 }
{
    let seeds = u64::from(before.seed != 0);
    2 + seeds + before.passes.len() as u64 + before.events.len() as u64
}

/// How many clients the first line says, and what follows that line.
fn first_line(bytes: &[u8]) -> Result<(u32, &[u8]), ParseFault>
    ensures { MatchResult result
        (λ x. IsUpTo MAX_CLIENTS x.0 × (bytes.now ≡ line_text (Clients x.0) ++ x.1.now))
        (λ fault. IsFaultOf (IsRefused bytes.now) fault) }
{
    let Some((line, rest)) = cut_at(bytes, b'\n') else {
        let reason = if bytes.is_empty() {
            LineReason::Form
        } else {
            LineReason::End
        };
        return Err(ParseFault::BadLine { line: 1, reason });
    };
    match clients_of(line) {
        Ok(clients) => Ok((clients, rest)),
        Err(fault) => Err(at_line(fault, 1)),
    }
}

/// What the next line says, if it may stand there.
fn line_after(alloc: Global, before: &Schedule, line: &[u8]) -> Result<Line, ParseFault>
    requires few_passes { length before.now.passes ≤ MAX_PASSES }
    requires few_events { length before.now.events ≤ MAX_EVENTS }
    ensures { MatchResult result
        (λ said. MayStand (Some before.now) said × (words_of line.now ≡ line_words said))
        (λ fault. IsFaultNext (IsFaultAfter (Some before.now)) (length (lines_of before.now))
        (words_of line.now) fault) }
{
    match standing_line(alloc, before, line) {
        Ok(said) => Ok(said),
        Err(fault) => Err(at_line(fault, next_line(before))),
    }
}

/// The schedule that a text spells, or its first line that cannot stand.
fn schedule_of(alloc: Global, bytes: &[u8]) -> Result<Schedule, ParseFault>
    ensures { MatchResult result (λ schedule. Spells bytes.now schedule)
        (λ fault. IsFaultOf (IsRefused bytes.now) fault) }
{
    let (clients, lines) = first_line(bytes)?;
    let mut schedule = Schedule {
        clients,
        seed: 0,
        passes: List::new(alloc),
        events: List::new(alloc),
    };
    let mut rest = lines;
    while !rest.is_empty() {
        let Some((line, more)) = cut_at(rest, b'\n') else {
            let line = next_line(&schedule);
            return Err(ParseFault::BadLine {
                line,
                reason: LineReason::End,
            });
        };
        let said = line_after(alloc, &schedule, line)?;
        put_line(&mut schedule, said)?;
        rest = more;
    }
    Ok(schedule)
}

/// The schedule that a text spells.
///
/// It looks at each byte a constant number of times, so it takes time linear in the length of the text,
/// and copies only the texts of the schedule, once. A text that spells no schedule is refused at
/// the first line that cannot stand in its place. Memory may be wanting at any line.
pub fn parse_schedule(alloc: Global, bytes: &[u8]) -> Result<Schedule, ParseFault>
    // What is read is spelled so.
    ensures ok { IfOk result (λ schedule. Spells bytes.now schedule) }
    // Where a line is refused, it is the first that cannot stand, for the right reason.
    ensures refused { IfErr result (λ fault. IsFaultOf (IsRefused bytes.now) fault) }
    // What is spelled so is read, unless memory is wanting.
    ensures taken { (schedule : Plan) → Spells bytes.now schedule → IsUnlessNoMemory result (Ok schedule) }
    // A text with a line that cannot stand is refused there, unless memory is wanting.
    ensures told { (line : ℕ) (reason : Reason) → IsRefused bytes.now line reason
        → IsUnlessNoMemory result (Err (ParseFault.BadLine line reason)) }
{
    schedule_of(alloc, bytes)
}
