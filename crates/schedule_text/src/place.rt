//! The lines in their places.

ghost use Rattle.std.specs.Prelude.{◌≡◌, ◌↔◌, ◌≤◌, ◌++◌, ◌∷◌, [], length, codes, Some, None, IsTrue, OnOk, OnErr, MatchOption, MatchResult};
ghost use Rattle.schedule_text.specs.declared.line.Line.TheVariants.{Clients, Seed, Pass};
ghost use Rattle.schedule_text.specs.Faults.{IsFaultAfter};
ghost use Rattle.schedule_text.specs.Grammar.{Between, AnyText, forms_after, may_pass, may_seed};
ghost use Rattle.schedule_text.specs.Limits.{MAX_CLIENTS, MAX_PASSES, MAX_SEED};
ghost use Rattle.schedule_text.specs.Lines.{line_words};
ghost use Rattle.schedule_text.specs.Places.{HasRoom, IsInPlace, MayStand, after_line, is_built_line};
ghost use Rattle.schedule_text.specs.Spelling.{AreBytes, IsUpTo, is_built, is_built_change};
ghost use Rattle.schedule_text.specs.Reading.{BeginsOther, IsFaultThere, IsReading};
ghost use Rattle.schedule_text.specs.Refusals.{words_of};

use crate::event::{EVENT_LIMIT, event_of};
use crate::fault::{LineFault, LineReason};
use crate::line::Line;
use crate::number::{number_in, one_number};
use crate::pieces::{after, one_word};
use crate::text_word::one_text;
use std::alloc::Global;
use sync_model::{Edit, Event, Schedule};
use wire_fields::{NoMemory, Octets};

const CLIENT_LIMIT: u32 = 8;

const PASS_LIMIT: usize = 64;

const GREATEST_SEED: u64 = 18_446_744_073_709_551_615;

const NO_FORM: LineFault = LineFault::Bad(LineReason::Form);

/// Nothing but the number of clients stands before.
fn may_be_seed(before: &Schedule) -> bool
    ensures { result ≡ may_seed before.now }
{
    before.seed == 0 && before.passes.is_empty() && before.events.is_empty()
}

/// No event stands before.
fn may_be_pass(before: &Schedule) -> bool
    ensures { result ≡ may_pass before.now }
{
    before.events.is_empty()
}

/// The number of clients that the first line says.
pub(crate) fn clients_of(line: &[u8]) -> Result<u32, LineFault>
    ensures { IsReading [] (forms_after None) (IsUpTo MAX_CLIENTS) (λ clients. line_words (Clients clients)) (words_of line.now) result }
{
    match after(line, b"clients ") {
        Some(rest) => one_number(rest, CLIENT_LIMIT),
        None => Err(NO_FORM),
    }
}

/// The seed, after its first word.
fn seed_of(line: &[u8]) -> Result<u64, LineFault>
    ensures { IsReading (codes "seed" ∷ []) ((Between 1 MAX_SEED ∷ []) ∷ []) (IsUpTo MAX_SEED) (λ seed. line_words (Seed seed)) (words_of line.now) result }
{
    let Some(word) = one_word(line) else {
        return Err(NO_FORM);
    };
    number_in(word, 1, GREATEST_SEED)
}

/// A passphrase, after its first word.
fn pass_of(alloc: Global, line: &[u8]) -> Result<Octets, LineFault>
    ensures { IsReading (codes "pass" ∷ []) ((AnyText ∷ []) ∷ []) AreBytes (λ pass. line_words (Pass pass)) (words_of line.now) result }
{
    one_text(alloc, line)
}

/// What follows the first word of a line of a seed, where one may stand.
fn after_seed<'a>(before: &Schedule, line: &'a [u8]) -> Option<&'a [u8]>
    ensures { MatchOption result (IsTrue (may_seed before.now) → BeginsOther line.now (codes "seed"))
        (λ rest. IsTrue (may_seed before.now) × (line.now ≡ codes "seed" ++ 32 ∷ rest.now)) }
{
    if may_be_seed(before) {
        after(line, b"seed ")
    } else {
        None
    }
}

/// What follows the first word of a line of a passphrase, where one may stand.
fn after_pass<'a>(before: &Schedule, line: &'a [u8]) -> Option<&'a [u8]>
    ensures { MatchOption result (IsTrue (may_pass before.now) → BeginsOther line.now (codes "pass"))
        (λ rest. IsTrue (may_pass before.now) × (line.now ≡ codes "pass" ++ 32 ∷ rest.now)) }
{
    if may_be_pass(before) {
        after(line, b"pass ")
    } else {
        None
    }
}

/// What a line says after others.
fn line_of(alloc: Global, before: &Schedule, line: &[u8]) -> Result<Line, LineFault>
    requires few_passes { length before.now.passes ≤ MAX_PASSES }
    ensures { IsReading [] (forms_after (Some before.now)) (IsInPlace (Some before.now)) line_words (words_of line.now) result }
{
    if let Some(rest) = after_seed(before, line) {
        return Ok(Line::Seed(seed_of(rest)?));
    }
    if let Some(rest) = after_pass(before, line) {
        return Ok(Line::Pass(pass_of(alloc, rest)?));
    }
    let event = event_of(alloc, line, before.clients, before.passes.len() as u32)?;
    Ok(Line::Event(event))
}

/// There are not yet as many lines of this sort as there may be.
fn has_room(before: &Schedule, line: &Line) -> bool
    ensures { IsTrue result ↔ HasRoom (Some before.now) line.now }
{
    match line {
        Line::Clients(_) | Line::Seed(_) => true,
        Line::Pass(_) => before.passes.len() < PASS_LIMIT,
        Line::Event(_) => before.events.len() < EVENT_LIMIT as usize,
    }
}

/// This stage of the engine knows the change.
fn is_known_change(edit: &Edit) -> bool
    ensures { result ≡ is_built_change edit.now }
{
    match edit {
        Edit::SetPreference(_) | Edit::NewerPreference(_) | Edit::DeletePreference(_) => true,
        Edit::SetPassword(_) | Edit::NewerPassword(_) | Edit::DeletePassword { .. } => false,
        Edit::SetNigori(_) => false,
    }
}

/// This stage of the engine knows the event.
fn is_known_event(event: &Event) -> bool
    ensures { result ≡ is_built event.now }
{
    match event {
        Event::Edit { edit, .. } => is_known_change(edit),
        Event::Turn { .. } | Event::Gather { .. } | Event::Post { .. } => true,
        Event::Ask { .. } | Event::Offer { .. } => true,
        Event::Deliver { .. } | Event::Answer { .. } => true,
        Event::Cut { .. } | Event::Lose { .. } | Event::Crash { .. } => false,
        Event::SetPass { .. } | Event::GivePass { .. } => false,
    }
}

/// This stage of the engine knows the line.
fn is_known(line: &Line) -> bool
    ensures { result ≡ is_built_line line.now }
{
    match line {
        Line::Clients(_) | Line::Seed(_) => true,
        Line::Pass(_) => false,
        Line::Event(event) => is_known_event(event),
    }
}

/// What a line says after others, if it may stand there.
pub(crate) fn standing_line(
    alloc: Global,
    before: &Schedule,
    line: &[u8],
) -> Result<Line, LineFault>
    requires few_passes { length before.now.passes ≤ MAX_PASSES }
    ensures { MatchResult result
        (λ said. MayStand (Some before.now) said × (words_of line.now ≡ line_words said))
        (λ fault. IsFaultThere (IsFaultAfter (Some before.now)) (words_of line.now) fault) }
{
    let said = line_of(alloc, before, line)?;
    if !has_room(before, &said) {
        return Err(LineFault::Bad(LineReason::Many));
    }
    if !is_known(&said) {
        return Err(LineFault::Bad(LineReason::Later));
    }
    Ok(said)
}

/// Puts a line after others. After an `Err` nothing has changed.
pub(crate) fn put_line(before: &mut Schedule, line: Line) -> Result<(), NoMemory>
    ensures ok { OnOk result (Some before.new ≡ after_line (Some before.old) line) }
    ensures err { OnErr result (before.new ≡ before.old) }
{
    match line {
        Line::Clients(_) => Ok(()),
        Line::Seed(seed) => {
            before.seed = seed;
            Ok(())
        }
        Line::Pass(pass) => before.passes.push(pass),
        Line::Event(event) => before.events.push(event),
    }
}
