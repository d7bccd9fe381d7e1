//! The first words of events.

ghost use Rattle.std.specs.Prelude.{◌≡◌, ◌∷◌, ◌++◌, [], MatchOption};
ghost use Rattle.std.specs.List.{AllByRecursion};
ghost use Rattle.schedule_text.specs.declared.verb.Verb.TheVariants.{Edit, Cut, Turn, Gather, Post, Ask, Offer, Lose, Crash, Deliver, Answer, SetPass, GivePass};
ghost use Rattle.schedule_text.specs.Reading.{BeginsOther, verb_word, verbs};

use crate::pieces::after;

/// What happens, as the first word of an event says it.
#[derive(Clone, Copy)]
pub(crate) enum Verb {
    Edit,
    Cut,
    Turn,
    Gather,
    Post,
    Ask,
    Offer,
    Lose,
    Crash,
    Deliver,
    Answer,
    SetPass,
    GivePass,
}

/// The verb of a line that may name a type or a change, and what follows it.
fn user_verb(line: &[u8]) -> Option<(Verb, &[u8])>
    ensures { MatchOption result
        (AllByRecursion (λ verb. BeginsOther line.now (verb_word verb)) (Edit ∷ Cut ∷ Turn ∷ Gather ∷ Post ∷ SetPass ∷ GivePass ∷ []))
        (λ x. line.now ≡ verb_word x.0 ++ 32 ∷ x.1.now) }
{
    if let Some(rest) = after(line, b"edit ") {
        return Some((Verb::Edit, rest));
    }
    if let Some(rest) = after(line, b"cut ") {
        return Some((Verb::Cut, rest));
    }
    if let Some(rest) = after(line, b"turn ") {
        return Some((Verb::Turn, rest));
    }
    if let Some(rest) = after(line, b"gather ") {
        return Some((Verb::Gather, rest));
    }
    if let Some(rest) = after(line, b"post ") {
        return Some((Verb::Post, rest));
    }
    if let Some(rest) = after(line, b"setpass ") {
        return Some((Verb::SetPass, rest));
    }
    if let Some(rest) = after(line, b"givepass ") {
        return Some((Verb::GivePass, rest));
    }
    None
}

/// The verb of a line that has one number after it, and that number's word.
fn number_verb(line: &[u8]) -> Option<(Verb, &[u8])>
    ensures { MatchOption result
        (AllByRecursion (λ verb. BeginsOther line.now (verb_word verb)) (Ask ∷ Offer ∷ Lose ∷ Crash ∷ Deliver ∷ Answer ∷ []))
        (λ x. line.now ≡ verb_word x.0 ++ 32 ∷ x.1.now) }
{
    if let Some(rest) = after(line, b"ask ") {
        return Some((Verb::Ask, rest));
    }
    if let Some(rest) = after(line, b"offer ") {
        return Some((Verb::Offer, rest));
    }
    if let Some(rest) = after(line, b"lose ") {
        return Some((Verb::Lose, rest));
    }
    if let Some(rest) = after(line, b"crash ") {
        return Some((Verb::Crash, rest));
    }
    if let Some(rest) = after(line, b"deliver ") {
        return Some((Verb::Deliver, rest));
    }
    if let Some(rest) = after(line, b"answer ") {
        return Some((Verb::Answer, rest));
    }
    None
}

/// The verb of a line, and what follows it.
pub(crate) fn verb_of(line: &[u8]) -> Option<(Verb, &[u8])>
    ensures { MatchOption result
        (AllByRecursion (λ verb. BeginsOther line.now (verb_word verb)) verbs)
        (λ x. line.now ≡ verb_word x.0 ++ 32 ∷ x.1.now) }
{
    if let Some(found) = user_verb(line) {
        return Some(found);
    }
    number_verb(line)
}
