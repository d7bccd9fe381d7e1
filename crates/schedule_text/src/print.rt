//! The text of a schedule.

ghost use Rattle.std.specs.Prelude.{◌≡◌, ◌++◌, ◌∷◌, [], IfOk, OnOk, OnErr};
ghost use Rattle.std.specs.List.{flat_map};
ghost use Rattle.std.specs.Fmt.{decimal, signed_decimal};
ghost use Rattle.sync_values.specs.declared.edit.Edit.TheVariants.{SetPreference, NewerPreference, SetPassword, NewerPassword};
ghost use Rattle.sync_model.specs.Text.{kind_word, text_word};
ghost use Rattle.schedule_text.specs.Lines.{change_words, kept_word, login_words, schedule_text};
ghost use Rattle.schedule_text.specs.Printing.{event_text, pass_text, seed_text, spaced};
ghost use Rattle.text_lines.specs.Continued.{Continues};

use std::alloc::Global;
use sync_model::{Edit, Event, Kind, Schedule};
use sync_values::{Password, Preference};
use text_lines::{Piece, kind_name, write_pieces, write_text};
use wire_fields::{NoMemory, Octets};

/// Five texts as words, each after a space.
#[tactic(auto, unfolding(crate::specs::Printing::spaced))]
fn write_site<'a>(
    out: &mut Vec<u8>,
    origin: &'a Octets,
    user_element: &'a Octets,
    user_value: &'a Octets,
    pass_element: &'a Octets,
    realm: &'a Octets,
) -> Result<(), NoMemory>
    ensures ok { OnOk result (out.new.items ≡ out.old.items
        ++ spaced (text_word origin.now ∷ text_word user_element.now ∷ text_word user_value.now ∷ text_word pass_element.now ∷ text_word realm.now ∷ [])) }
    ensures err { OnErr result (Continues out.old.items out.new.items) }
{
    write_pieces(
        out,
        &[
            Piece::Text(b" "),
            Piece::Word(origin.as_slice()),
            Piece::Text(b" "),
            Piece::Word(user_element.as_slice()),
            Piece::Text(b" "),
            Piece::Word(user_value.as_slice()),
            Piece::Text(b" "),
            Piece::Word(pass_element.as_slice()),
            Piece::Text(b" "),
            Piece::Word(realm.as_slice()),
        ],
    )
}

/// The secret and the date of a login as words, each after a space.
#[tactic(auto, unfolding(crate::specs::Printing::spaced))]
fn write_secret(out: &mut Vec<u8>, password: &Password) -> Result<(), NoMemory>
    ensures ok { OnOk result (out.new.items ≡ out.old.items
        ++ spaced (text_word password.now.secret ∷ signed_decimal password.now.created ∷ [])) }
    ensures err { OnErr result (Continues out.old.items out.new.items) }
{
    write_pieces(
        out,
        &[
            Piece::Text(b" "),
            Piece::Word(password.secret.as_slice()),
            Piece::Text(b" "),
            Piece::Signed(password.created),
        ],
    )
}

/// The words of a login, each after a space.
#[tactic(auto, using(text_lines::proofs::Continuing::continues_after))]
fn write_login(out: &mut Vec<u8>, password: &Password) -> Result<(), NoMemory>
    ensures ok { OnOk result (out.new.items ≡ out.old.items ++ spaced (login_words password.now)) }
    ensures err { OnErr result (Continues out.old.items out.new.items) }
{
    write_site(
        out,
        &password.origin,
        &password.user_element,
        &password.user_value,
        &password.pass_element,
        &password.realm,
    )?;
    write_secret(out, password)
}

/// The words of a login that is set, each after a space.
#[tactic(auto, using(text_lines::proofs::Continuing::continues_after))]
fn write_set_login(out: &mut Vec<u8>, password: &Password) -> Result<(), NoMemory>
    ensures ok { OnOk result (out.new.items ≡ out.old.items ++ spaced (change_words (SetPassword password.now))) }
    ensures err { OnErr result (Continues out.old.items out.new.items) }
{
    write_text(out, b" set password")?;
    write_login(out, password)
}

/// A space, and unknown fields as a word.
fn write_extra(out: &mut Vec<u8>, extra: &Octets) -> Result<(), NoMemory>
    ensures ok { OnOk result (out.new.items ≡ out.old.items ++ 32 ∷ text_word extra.now) }
    ensures err { OnErr result (Continues out.old.items out.new.items) }
{
    write_pieces(out, &[Piece::Text(b" "), Piece::Word(extra.as_slice())])
}

/// The words of a login as a newer client sets it, each after a space.
#[tactic(auto, using(text_lines::proofs::Continuing::continues_after))]
fn write_newer_login(out: &mut Vec<u8>, password: &Password) -> Result<(), NoMemory>
    ensures ok { OnOk result (out.new.items ≡ out.old.items ++ spaced (change_words (NewerPassword password.now))) }
    ensures err { OnErr result (Continues out.old.items out.new.items) }
{
    write_text(out, b" newer password")?;
    write_login(out, password)?;
    write_extra(out, &password.extra)
}

/// The words of a preference as a newer client sets it, each after a space.
#[tactic(auto, unfolding(crate::specs::Printing::spaced, crate::specs::Lines::change_words))]
fn write_newer_preference(out: &mut Vec<u8>, preference: &Preference) -> Result<(), NoMemory>
    ensures ok { OnOk result (out.new.items ≡ out.old.items ++ spaced (change_words (NewerPreference preference.now))) }
    ensures err { OnErr result (Continues out.old.items out.new.items) }
{
    write_pieces(
        out,
        &[
            Piece::Text(b" newer preference "),
            Piece::Word(preference.name.as_slice()),
            Piece::Text(b" "),
            Piece::Word(preference.value.as_slice()),
            Piece::Text(b" "),
            Piece::Word(preference.extra.as_slice()),
        ],
    )
}

/// The words of a preference that is set, each after a space.
#[tactic(auto, unfolding(crate::specs::Printing::spaced, crate::specs::Lines::change_words))]
fn write_preference(out: &mut Vec<u8>, preference: &Preference) -> Result<(), NoMemory>
    ensures ok { OnOk result (out.new.items ≡ out.old.items ++ spaced (change_words (SetPreference preference.now))) }
    ensures err { OnErr result (Continues out.old.items out.new.items) }
{
    write_pieces(
        out,
        &[
            Piece::Text(b" set preference "),
            Piece::Word(preference.name.as_slice()),
            Piece::Text(b" "),
            Piece::Word(preference.value.as_slice()),
        ],
    )
}

/// The words of a change, each after a space.
#[tactic(auto, using(text_lines::proofs::Continuing::continues_after), unfolding(crate::specs::Printing::spaced, crate::specs::Lines::change_words))]
pub(crate) fn write_change(out: &mut Vec<u8>, edit: &Edit) -> Result<(), NoMemory>
    ensures ok { OnOk result (out.new.items ≡ out.old.items ++ spaced (change_words edit.now)) }
    ensures err { OnErr result (Continues out.old.items out.new.items) }
{
    match edit {
        Edit::SetPreference(preference) => write_preference(out, preference),
        Edit::NewerPreference(preference) => write_newer_preference(out, preference),
        Edit::DeletePreference(name) => write_pieces(
            out,
            &[
                Piece::Text(b" del preference "),
                Piece::Word(name.as_slice()),
            ],
        ),
        Edit::SetPassword(password) => write_set_login(out, password),
        Edit::NewerPassword(password) => write_newer_login(out, password),
        Edit::DeletePassword {
            origin,
            user_element,
            user_value,
            pass_element,
            realm,
        } => {
            write_text(out, b" del password")?;
            write_site(out, origin, user_element, user_value, pass_element, realm)
        }
        Edit::SetNigori(_) => Ok(()),
    }
}

/// A verb, a client, and what became of a change, with the change and the line's end.
#[tactic(auto, using(text_lines::proofs::Continuing::continues_after))]
fn write_edit<'a>(
    out: &mut Vec<u8>,
    verb: &'a [u8],
    client: u32,
    kept: &'a [u8],
    edit: &Edit,
) -> Result<(), NoMemory>
    ensures ok { OnOk result (out.new.items ≡
        out.old.items ++ verb.now ++ decimal client ++ kept.now ++ spaced (change_words edit.now) ++ 10 ∷ []) }
    ensures err { OnErr result (Continues out.old.items out.new.items) }
{
    write_pieces(
        out,
        &[
            Piece::Text(verb),
            Piece::Number(u64::from(client)),
            Piece::Text(kept),
        ],
    )?;
    write_change(out, edit)?;
    write_text(out, b"\n")
}

/// The line of a verb, a client and a type.
fn write_kind_line(out: &mut Vec<u8>, verb: &[u8], client: u32, kind: Kind) -> Result<(), NoMemory>
    ensures ok { OnOk result (out.new.items ≡
        out.old.items ++ verb.now ++ decimal client ++ 32 ∷ kind_word kind ++ 10 ∷ []) }
    ensures err { OnErr result (Continues out.old.items out.new.items) }
{
    write_pieces(
        out,
        &[
            Piece::Text(verb),
            Piece::Number(u64::from(client)),
            Piece::Text(b" "),
            Piece::Text(kind_name(kind)),
            Piece::Text(b"\n"),
        ],
    )
}

/// The line of a verb and a number.
fn write_number_line(out: &mut Vec<u8>, verb: &[u8], number: u64) -> Result<(), NoMemory>
    ensures ok { OnOk result (out.new.items ≡ out.old.items ++ verb.now ++ decimal number ++ 10 ∷ []) }
    ensures err { OnErr result (Continues out.old.items out.new.items) }
{
    write_pieces(
        out,
        &[Piece::Text(verb), Piece::Number(number), Piece::Text(b"\n")],
    )
}

/// The line of a verb and two numbers.
fn write_numbers_line(
    out: &mut Vec<u8>,
    verb: &[u8],
    first: u32,
    second: u32,
) -> Result<(), NoMemory>
    ensures ok { OnOk result (out.new.items ≡
        out.old.items ++ verb.now ++ decimal first ++ 32 ∷ decimal second ++ 10 ∷ []) }
    ensures err { OnErr result (Continues out.old.items out.new.items) }
{
    write_pieces(
        out,
        &[
            Piece::Text(verb),
            Piece::Number(u64::from(first)),
            Piece::Text(b" "),
            Piece::Number(u64::from(second)),
            Piece::Text(b"\n"),
        ],
    )
}

/// A space, and what became of a change.
#[tactic(auto, unfolding(crate::specs::Lines::kept_word))]
fn kept_part(kept: bool) -> &'static [u8]
    ensures { result.now ≡ 32 ∷ kept_word kept }
{
    if kept { b" kept" } else { b" lost" }
}

/// The line of an event.
fn write_event(out: &mut Vec<u8>, event: &Event) -> Result<(), NoMemory>
    ensures ok { OnOk result (out.new.items ≡ out.old.items ++ event_text event.now) }
    ensures err { OnErr result (Continues out.old.items out.new.items) }
{
    match event {
        Event::Edit { client, edit } => write_edit(out, b"edit ", *client, b"", edit),
        Event::Cut { client, kept, edit } => {
            write_edit(out, b"cut ", *client, kept_part(*kept), edit)
        }
        Event::Turn { client, kind } => write_kind_line(out, b"turn ", *client, *kind),
        Event::Gather { client, kind } => write_kind_line(out, b"gather ", *client, *kind),
        Event::Post { client, kind } => write_kind_line(out, b"post ", *client, *kind),
        Event::Ask { client } => write_number_line(out, b"ask ", u64::from(*client)),
        Event::Offer { client } => write_number_line(out, b"offer ", u64::from(*client)),
        Event::Lose { client } => write_number_line(out, b"lose ", u64::from(*client)),
        Event::Crash { client } => write_number_line(out, b"crash ", u64::from(*client)),
        Event::Deliver { event } => write_number_line(out, b"deliver ", u64::from(*event)),
        Event::Answer { event } => write_number_line(out, b"answer ", u64::from(*event)),
        Event::SetPass { client, pass } => write_numbers_line(out, b"setpass ", *client, *pass),
        Event::GivePass { client, pass } => write_numbers_line(out, b"givepass ", *client, *pass),
    }
}

/// The line of a passphrase.
#[tactic(auto, unfolding(crate::specs::Printing::pass_text, crate::specs::Lines::line_text, crate::specs::Lines::line_words))]
fn write_pass(out: &mut Vec<u8>, pass: &Octets) -> Result<(), NoMemory>
    ensures ok { OnOk result (out.new.items ≡ out.old.items ++ pass_text pass.now) }
    ensures err { OnErr result (Continues out.old.items out.new.items) }
{
    write_pieces(
        out,
        &[
            Piece::Text(b"pass "),
            Piece::Word(pass.as_slice()),
            Piece::Text(b"\n"),
        ],
    )
}

/// The line of the seed, unless it is 0.
fn write_seed(out: &mut Vec<u8>, seed: u64) -> Result<(), NoMemory>
    ensures ok { OnOk result (out.new.items ≡ out.old.items ++ seed_text seed) }
    ensures err { OnErr result (Continues out.old.items out.new.items) }
{
    if seed == 0 {
        return Ok(());
    }
    write_number_line(out, b"seed ", seed)
}

/// The lines of passphrases.
#[tactic(auto, using(text_lines::proofs::Continuing::continues_after))]
fn write_passes(out: &mut Vec<u8>, passes: &[Octets]) -> Result<(), NoMemory>
    ensures ok { OnOk result (out.new.items ≡ out.old.items ++ flat_map pass_text passes.now) }
    ensures err { OnErr result (Continues out.old.items out.new.items) }
{
    for pass in passes {
        write_pass(out, pass)?;
    }
    Ok(())
}

/// The lines of events.
#[tactic(auto, using(text_lines::proofs::Continuing::continues_after))]
fn write_events(out: &mut Vec<u8>, events: &[Event]) -> Result<(), NoMemory>
    ensures ok { OnOk result (out.new.items ≡ out.old.items ++ flat_map event_text events.now) }
    ensures err { OnErr result (Continues out.old.items out.new.items) }
{
    for event in events {
        write_event(out, event)?;
    }
    Ok(())
}

/// The one text of a schedule.
///
/// It takes time linear in the length of the text. A schedule that no text spells, as one with nine clients, is
/// written by the same rules; an edit of a profile's keys, for which there are no words, as its first two words.
pub fn print_schedule(alloc: Global, schedule: &Schedule) -> Result<Octets, NoMemory>
    ensures { IfOk result (λ text. text ≡ schedule_text schedule.now) }
{
    let mut out = Vec::new(alloc);
    write_number_line(&mut out, b"clients ", u64::from(schedule.clients))?;
    write_seed(&mut out, schedule.seed)?;
    write_passes(&mut out, schedule.passes.as_slice())?;
    write_events(&mut out, schedule.events.as_slice())?;
    Ok(Octets::from_vec(out))
}
