//! The events that lines say.

ghost use Rattle.std.specs.Prelude.{◌≡◌, ◌∷◌, ◌++◌, [], codes, None, MatchOption, MatchResult};
ghost use Rattle.std.specs.Fmt.{decimal};
ghost use Rattle.sync_model.specs.Text.{kind_word};
ghost use Rattle.schedule_text.specs.Grammar.{Between, after_slot, change_forms, kept_forms, kind_forms, event_forms, form_of};
ghost use Rattle.schedule_text.specs.Lines.{change_words, event_words, kept_word};
ghost use Rattle.schedule_text.specs.Spelling.{IsChange, IsEvent, IsUpTo};
ghost use Rattle.schedule_text.specs.Reading.{IsFaultIn, IsReading, early_fault, forms_after_verb, verb_word};
ghost use Rattle.schedule_text.specs.Refusals.{words_of};

use crate::change::{change_of, kept_change_of};
use crate::fault::{LineFault, LineReason};
use crate::number::{number_up_to, one_number, two_numbers};
use crate::pieces::{are_same, cut_word};
use crate::verb::{Verb, verb_of};
use std::alloc::Global;
use sync_model::{Edit, Event, Kind};

/// How many events a schedule may have, which is also the greatest number that names one.
pub(crate) const EVENT_LIMIT: u32 = 20_000;

const NO_FORM: LineFault = LineFault::Bad(LineReason::Form);

/// The type of this name.
fn kind_of(line: &[u8]) -> Option<Kind>
    ensures { MatchOption result (form_of (words_of line.now) kind_forms ≡ None) (λ kind. words_of line.now ≡ kind_word kind ∷ []) }
{
    if are_same(line, b"nigori") {
        Some(Kind::Nigori)
    } else if are_same(line, b"preference") {
        Some(Kind::Preference)
    } else if are_same(line, b"password") {
        Some(Kind::Password)
    } else {
        None
    }
}

/// The numbers of a client and the type that a line names.
fn client_and_kind(line: &[u8], clients: u32) -> Result<(u32, Kind), LineFault>
    ensures { MatchResult result
        (λ x. IsUpTo clients x.0 × (words_of line.now ≡ decimal x.0 ∷ kind_word x.1 ∷ []))
        (λ fault. IsFaultIn (after_slot (Between 1 clients) kind_forms) (words_of line.now) fault) }
{
    let Some((client, rest)) = cut_word(line) else {
        return Err(NO_FORM);
    };
    let Some(kind) = kind_of(rest) else {
        return Err(NO_FORM);
    };
    let client = number_up_to(client, clients)?;
    Ok((client, kind))
}

/// The fault of what was read that is told before that of a number in front of it.
fn early_fault<T>(read: &Result<T, LineFault>) -> Option<LineFault>
    ensures { result ≡ early_fault read.now }
{
    match read {
        Err(LineFault::Bad(LineReason::Form)) => Some(NO_FORM),
        Err(LineFault::NoMemory) => Some(LineFault::NoMemory),
        _ => None,
    }
}

/// An edit, after its first word. A change of no form is told before the client's number is looked at.
fn edit_of(alloc: Global, line: &[u8], clients: u32) -> Result<(u32, Edit), LineFault>
    ensures { IsReading [] (after_slot (Between 1 clients) change_forms)
        (λ x. IsUpTo clients x.0 × IsChange x.1) (λ x. decimal x.0 ∷ change_words x.1) (words_of line.now) result }
{
    let Some((client, rest)) = cut_word(line) else {
        return Err(NO_FORM);
    };
    let change = change_of(alloc, rest);
    if let Some(fault) = early_fault(&change) {
        return Err(fault);
    }
    let client = number_up_to(client, clients)?;
    let edit = change?;
    Ok((client, edit))
}

/// An edit that a client stopped within, after its first word.
fn cut_of(alloc: Global, line: &[u8], clients: u32) -> Result<(u32, bool, Edit), LineFault>
    ensures { IsReading [] (after_slot (Between 1 clients) kept_forms)
        (λ x. IsUpTo clients x.0 × IsChange x.2) (λ x. decimal x.0 ∷ kept_word x.1 ∷ change_words x.2) (words_of line.now) result }
{
    let Some((client, rest)) = cut_word(line) else {
        return Err(NO_FORM);
    };
    let change = kept_change_of(alloc, rest);
    if let Some(fault) = early_fault(&change) {
        return Err(fault);
    }
    let client = number_up_to(client, clients)?;
    let (kept, edit) = change?;
    Ok((client, kept, edit))
}

/// The event of a verb, and of what follows it.
fn event_after(
    alloc: Global,
    verb: Verb,
    line: &[u8],
    clients: u32,
    passes: u32,
) -> Result<Event, LineFault>
    ensures { IsReading (verb_word verb ∷ []) (forms_after_verb clients passes verb) (IsEvent clients passes) event_words (words_of line.now) result }
{
    match verb {
        Verb::Edit => {
            let (client, edit) = edit_of(alloc, line, clients)?;
            Ok(Event::Edit { client, edit })
        }
        Verb::Cut => {
            let (client, kept, edit) = cut_of(alloc, line, clients)?;
            Ok(Event::Cut { client, kept, edit })
        }
        Verb::Turn => {
            let (client, kind) = client_and_kind(line, clients)?;
            Ok(Event::Turn { client, kind })
        }
        Verb::Gather => {
            let (client, kind) = client_and_kind(line, clients)?;
            Ok(Event::Gather { client, kind })
        }
        Verb::Post => {
            let (client, kind) = client_and_kind(line, clients)?;
            Ok(Event::Post { client, kind })
        }
        Verb::Ask => Ok(Event::Ask {
            client: one_number(line, clients)?,
        }),
        Verb::Offer => Ok(Event::Offer {
            client: one_number(line, clients)?,
        }),
        Verb::Lose => Ok(Event::Lose {
            client: one_number(line, clients)?,
        }),
        Verb::Crash => Ok(Event::Crash {
            client: one_number(line, clients)?,
        }),
        Verb::Deliver => Ok(Event::Deliver {
            event: one_number(line, EVENT_LIMIT)?,
        }),
        Verb::Answer => Ok(Event::Answer {
            event: one_number(line, EVENT_LIMIT)?,
        }),
        Verb::SetPass => {
            let (client, pass) = two_numbers(line, clients, passes)?;
            Ok(Event::SetPass { client, pass })
        }
        Verb::GivePass => {
            let (client, pass) = two_numbers(line, clients, passes)?;
            Ok(Event::GivePass { client, pass })
        }
    }
}

/// The event of a line, where there are so many clients and so many passphrases.
pub(crate) fn event_of(
    alloc: Global,
    line: &[u8],
    clients: u32,
    passes: u32,
) -> Result<Event, LineFault>
    ensures { IsReading [] (event_forms clients passes) (IsEvent clients passes) event_words (words_of line.now) result }
{
    let Some((verb, rest)) = verb_of(line) else {
        return Err(NO_FORM);
    };
    event_after(alloc, verb, rest, clients, passes)
}
