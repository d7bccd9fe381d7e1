//! The changes that a line says.

ghost use Rattle.std.specs.Prelude.{◌≡◌, ◌∷◌, ◌++◌, ◌<◌, ◌≤◌, ◌≢◌, [], codes, length, List, ℕ, MatchOption, MatchResult, if◌then◌else◌};
ghost use Rattle.sync_model.specs.Text.{text_word};
ghost use Rattle.std.specs.Fmt.{decimal};
ghost use Rattle.client_tags.specs.declared.Kind.TheVariants.{Preference as PreferenceKind, Password as PasswordKind};
ghost use Rattle.schedule_text.specs.Grammar.{Between, AnyText, AnyExtra, site_form, login_form, set_forms, newer_forms, delete_forms, change_forms, kept_forms};
ghost use Rattle.schedule_text.specs.Limits.{MAX_DATE};
ghost use Rattle.schedule_text.specs.Sites.{AreSiteBytes, site_words};
ghost use Rattle.schedule_text.specs.Lines.{change_words, kept_word};
ghost use Rattle.schedule_text.specs.Spelling.{AreBytes, IsChange};
ghost use Rattle.schedule_text.specs.Reading.{IsFaultIn, IsFormFault, IsReading, BeginsOther};
ghost use Rattle.schedule_text.specs.Refusals.{words_of};

use crate::fault::{LineFault, LineReason};
use crate::number::number_in;
use crate::pieces::{after, cut_word, one_word, two_words};
use crate::text_word::{extra_in, text_in};
use std::alloc::Global;
use sync_model::{Edit, Kind};
use sync_values::{Password, Preference};
use wire_fields::Octets;

/// The greatest date that a line can say.
const GREATEST_DATE: u64 = 9_223_372_036_854_775_807;

const NO_FORM: LineFault = LineFault::Bad(LineReason::Form);

/// Where a login is filled in, and for whom: the five texts that name it.
#[derive(Drop)]
pub(crate) struct Site {
    origin: Octets,
    user_element: Octets,
    user_value: Octets,
    pass_element: Octets,
    realm: Octets,
}

/// The setting of a preference, by its last two words.
fn set_preference(alloc: Global, line: &[u8]) -> Result<Edit, LineFault>
    ensures { IsReading (codes "set" ∷ codes "preference" ∷ []) ((AnyText ∷ AnyText ∷ []) ∷ []) IsChange change_words (words_of line.now) result }
{
    let Some((name, value)) = two_words(line) else {
        return Err(NO_FORM);
    };
    let name = text_in(alloc, name)?;
    let value = text_in(alloc, value)?;
    let extra = Octets::new(alloc);
    Ok(Edit::SetPreference(Preference { name, value, extra }))
}

/// The preference that a newer client sets, by its last three words.
fn newer_preference(alloc: Global, line: &[u8]) -> Result<Edit, LineFault>
    ensures { IsReading (codes "newer" ∷ codes "preference" ∷ []) ((AnyText ∷ AnyText ∷ AnyExtra PreferenceKind ∷ []) ∷ []) IsChange change_words (words_of line.now) result }
{
    let Some((name, value, extra)) = three_words(line) else {
        return Err(NO_FORM);
    };
    let name = text_in(alloc, name)?;
    let value = text_in(alloc, value)?;
    let extra = extra_in(alloc, Kind::Preference, extra)?;
    Ok(Edit::NewerPreference(Preference { name, value, extra }))
}

/// The deletion of a preference, by its last word.
fn delete_preference(alloc: Global, line: &[u8]) -> Result<Edit, LineFault>
    ensures { IsReading (codes "del" ∷ codes "preference" ∷ []) ((AnyText ∷ []) ∷ []) IsChange change_words (words_of line.now) result }
{
    let Some(name) = one_word(line) else {
        return Err(NO_FORM);
    };
    let name = text_in(alloc, name)?;
    Ok(Edit::DeletePreference(name))
}

/// The texts that five words spell.
fn site_of(
    alloc: Global,
    origin: &[u8],
    user_element: &[u8],
    user_value: &[u8],
    pass_element: &[u8],
    realm: &[u8],
) -> Result<Site, LineFault>
    ensures { MatchResult result
        (λ site. AreSiteBytes site × (origin.now ∷ user_element.now ∷ user_value.now ∷ pass_element.now ∷ realm.now ∷ [] ≡ site_words site))
        (λ fault. IsFormFault site_form (origin.now ∷ user_element.now ∷ user_value.now ∷ pass_element.now ∷ realm.now ∷ []) fault) }
{
    let origin = text_in(alloc, origin)?;
    let user_element = text_in(alloc, user_element)?;
    let user_value = text_in(alloc, user_value)?;
    let pass_element = text_in(alloc, pass_element)?;
    let realm = text_in(alloc, realm)?;
    Ok(Site {
        origin,
        user_element,
        user_value,
        pass_element,
        realm,
    })
}

/// The first four words of a line that has more, and what follows them.
fn four_words(line: &[u8]) -> Option<(&[u8], &[u8], &[u8], &[u8], &[u8])>
    ensures { MatchOption result (length (words_of line.now) < 5)
        (λ x. words_of line.now ≡ x.0.now ∷ x.1.now ∷ x.2.now ∷ x.3.now ∷ words_of x.4.now) }
{
    let (origin, rest) = cut_word(line)?;
    let (user_element, rest) = cut_word(rest)?;
    let (user_value, rest) = cut_word(rest)?;
    let (pass_element, rest) = cut_word(rest)?;
    Some((origin, user_element, user_value, pass_element, rest))
}

/// The deletion of a login, by the five words that name it.
fn delete_password(alloc: Global, line: &[u8]) -> Result<Edit, LineFault>
    ensures { IsReading (codes "del" ∷ codes "password" ∷ []) (site_form ∷ []) IsChange change_words (words_of line.now) result }
{
    let Some((origin, user_element, user_value, pass_element, rest)) = four_words(line) else {
        return Err(NO_FORM);
    };
    let Some(realm) = one_word(rest) else {
        return Err(NO_FORM);
    };
    let site = site_of(alloc, origin, user_element, user_value, pass_element, realm)?;
    Ok(Edit::DeletePassword {
        origin: site.origin,
        user_element: site.user_element,
        user_value: site.user_value,
        pass_element: site.pass_element,
        realm: site.realm,
    })
}

/// The words of a line that has three.
fn three_words(line: &[u8]) -> Option<(&[u8], &[u8], &[u8])>
    ensures { MatchOption result (length (words_of line.now) ≢ 3)
        (λ words. words_of line.now ≡ words.0.now ∷ words.1.now ∷ words.2.now ∷ []) }
{
    let (first, rest) = cut_word(line)?;
    let (second, third) = two_words(rest)?;
    Some((first, second, third))
}

/// The secret and the date of a login.
fn secret_of(alloc: Global, secret: &[u8], date: &[u8]) -> Result<(Octets, u64), LineFault>
    ensures { MatchResult result
        (λ x. AreBytes x.0 × (x.1 ≤ MAX_DATE) × (secret.now ≡ text_word x.0) × (date.now ≡ decimal x.1))
        (λ fault. IsFormFault (AnyText ∷ Between 0 MAX_DATE ∷ []) (secret.now ∷ date.now ∷ []) fault) }
{
    let secret = text_in(alloc, secret)?;
    let date = number_in(date, 0, GREATEST_DATE)?;
    Ok((secret, date))
}

/// The setting of a login, by its seven words.
fn set_password(alloc: Global, line: &[u8]) -> Result<Edit, LineFault>
    ensures { IsReading (codes "set" ∷ codes "password" ∷ []) (login_form ∷ []) IsChange change_words (words_of line.now) result }
{
    let Some((origin, user_element, user_value, pass_element, rest)) = four_words(line) else {
        return Err(NO_FORM);
    };
    let Some((realm, secret, date)) = three_words(rest) else {
        return Err(NO_FORM);
    };
    let site = site_of(alloc, origin, user_element, user_value, pass_element, realm)?;
    let (secret, date) = secret_of(alloc, secret, date)?;
    Ok(Edit::SetPassword(Password {
        origin: site.origin,
        user_element: site.user_element,
        user_value: site.user_value,
        pass_element: site.pass_element,
        realm: site.realm,
        secret,
        created: date as i64,
        extra: Octets::new(alloc),
    }))
}

/// The last four words of a newer login: its realm, its secret, its date and its unknown fields.
fn last_words(line: &[u8]) -> Option<(&[u8], &[u8], &[u8], &[u8])>
    ensures { MatchOption result (length (words_of line.now) ≢ 4)
        (λ words. words_of line.now ≡ words.0.now ∷ words.1.now ∷ words.2.now ∷ words.3.now ∷ []) }
{
    let (realm, rest) = cut_word(line)?;
    let (secret, date, extra) = three_words(rest)?;
    Some((realm, secret, date, extra))
}

/// The login that a newer client sets, by its eight words.
fn newer_password(alloc: Global, line: &[u8]) -> Result<Edit, LineFault>
    ensures { IsReading (codes "newer" ∷ codes "password" ∷ []) ((login_form ++ AnyExtra PasswordKind ∷ []) ∷ []) IsChange change_words (words_of line.now) result }
{
    let Some((origin, user_element, user_value, pass_element, rest)) = four_words(line) else {
        return Err(NO_FORM);
    };
    let Some((realm, secret, date, extra)) = last_words(rest) else {
        return Err(NO_FORM);
    };
    let site = site_of(alloc, origin, user_element, user_value, pass_element, realm)?;
    let (secret, date) = secret_of(alloc, secret, date)?;
    let extra = extra_in(alloc, Kind::Password, extra)?;
    Ok(Edit::NewerPassword(Password {
        origin: site.origin,
        user_element: site.user_element,
        user_value: site.user_value,
        pass_element: site.pass_element,
        realm: site.realm,
        secret,
        created: date as i64,
        extra,
    }))
}

/// A change that sets something, after its first word.
fn set_of(alloc: Global, line: &[u8]) -> Result<Edit, LineFault>
    ensures { IsReading (codes "set" ∷ []) set_forms IsChange change_words (words_of line.now) result }
{
    if let Some(rest) = after(line, b"preference ") {
        return set_preference(alloc, rest);
    }
    if let Some(rest) = after(line, b"password ") {
        return set_password(alloc, rest);
    }
    Err(NO_FORM)
}

/// A change of a newer client, after its first word.
fn newer_of(alloc: Global, line: &[u8]) -> Result<Edit, LineFault>
    ensures { IsReading (codes "newer" ∷ []) newer_forms IsChange change_words (words_of line.now) result }
{
    if let Some(rest) = after(line, b"preference ") {
        return newer_preference(alloc, rest);
    }
    if let Some(rest) = after(line, b"password ") {
        return newer_password(alloc, rest);
    }
    Err(NO_FORM)
}

/// A change that deletes something, after its first word.
fn delete_of(alloc: Global, line: &[u8]) -> Result<Edit, LineFault>
    ensures { IsReading (codes "del" ∷ []) delete_forms IsChange change_words (words_of line.now) result }
{
    if let Some(rest) = after(line, b"preference ") {
        return delete_preference(alloc, rest);
    }
    if let Some(rest) = after(line, b"password ") {
        return delete_password(alloc, rest);
    }
    Err(NO_FORM)
}

/// The change that a part of a line says.
pub(crate) fn change_of(alloc: Global, line: &[u8]) -> Result<Edit, LineFault>
    ensures { IsReading [] change_forms IsChange change_words (words_of line.now) result }
{
    if let Some(rest) = after(line, b"set ") {
        return set_of(alloc, rest);
    }
    if let Some(rest) = after(line, b"newer ") {
        return newer_of(alloc, rest);
    }
    if let Some(rest) = after(line, b"del ") {
        return delete_of(alloc, rest);
    }
    Err(NO_FORM)
}

/// Whether a change was kept, and what follows that word.
#[tactic(auto, unfolding(crate::specs::Lines::kept_word))]
fn kept_of(line: &[u8]) -> Option<(bool, &[u8])>
    ensures { MatchOption result (BeginsOther line.now (codes "kept") × BeginsOther line.now (codes "lost"))
        (λ x. line.now ≡ kept_word x.0 ++ 32 ∷ x.1.now) }
{
    if let Some(rest) = after(line, b"kept ") {
        return Some((true, rest));
    }
    if let Some(rest) = after(line, b"lost ") {
        return Some((false, rest));
    }
    None
}

/// A change that was kept or lost.
pub(crate) fn kept_change_of(alloc: Global, line: &[u8]) -> Result<(bool, Edit), LineFault>
    ensures { IsReading [] kept_forms (λ x. IsChange x.1) (λ x. kept_word x.0 ∷ change_words x.1) (words_of line.now) result }
{
    let Some((kept, rest)) = kept_of(line) else {
        return Err(NO_FORM);
    };
    let edit = change_of(alloc, rest)?;
    Ok((kept, edit))
}
