//! Edits that are drawn: preferences of 40 names, and logins at 30 sites.
ghost use Rattle.std.specs.Prelude.{◌≡◌, IfOk};
ghost use Rattle.schedule_generator.specs.Draws.{rest};
ghost use Rattle.schedule_generator.specs.Steps.{numbered, site, set_preference, delete_preference, set_password, delete_password};

use crate::draws::Draws;
use std::alloc::Global;
use sync_model::Edit;
use sync_values::{Password, Preference};
use text_lines::{Piece, write_number, write_pieces, write_text};
use wire_fields::{NoMemory, Octets};

const PREFERENCES: u32 = 40;

const SITES: u32 = 30;

const VALUES: u32 = 1_000;

const DATES: u32 = 10;

// A text with a number behind it.
#[tactic(auto, unfolding(crate::specs::Steps::numbered))]
fn numbered(alloc: Global, name: &[u8], number: u32) -> Result<Octets, NoMemory>
    ensures { IfOk result (λ text. text ≡ numbered name.now number) }
{
    let mut text = Vec::new(alloc);
    write_text(&mut text, name)?;
    write_number(&mut text, u64::from(number))?;
    Ok(Octets::from_vec(text))
}

// The address of the site of a number.
#[tactic(auto, unfolding(crate::specs::Steps::site))]
fn site(alloc: Global, number: u32) -> Result<Octets, NoMemory>
    ensures { IfOk result (λ text. text ≡ site number) }
{
    let mut text = Vec::new(alloc);
    write_pieces(
        &mut text,
        &[
            Piece::Text(b"https://s"),
            Piece::Number(u64::from(number)),
            Piece::Text(b".example/"),
        ],
    )?;
    Ok(Octets::from_vec(text))
}

#[tactic(auto, unfolding(crate::specs::Steps::set_preference))]
pub(crate) fn set_preference(alloc: Global, draws: &mut Draws) -> Result<Edit, NoMemory>
    ensures drawn { IfOk result (λ edit. edit ≡ set_preference draws.old) }
    ensures rest { draws.new ≡ rest (rest draws.old) }
{
    let name = draws.below(PREFERENCES);
    let value = draws.below(VALUES);
    Ok(Edit::SetPreference(Preference {
        name: numbered(alloc, b"p", name)?,
        value: numbered(alloc, b"v", value)?,
        extra: Octets::new(alloc),
    }))
}

#[tactic(auto, unfolding(crate::specs::Steps::delete_preference))]
pub(crate) fn delete_preference(alloc: Global, draws: &mut Draws) -> Result<Edit, NoMemory>
    ensures drawn { IfOk result (λ edit. edit ≡ delete_preference draws.old) }
    ensures rest { draws.new ≡ rest draws.old }
{
    let name = draws.below(PREFERENCES);
    Ok(Edit::DeletePreference(numbered(alloc, b"p", name)?))
}

#[tactic(auto, unfolding(crate::specs::Steps::set_password))]
pub(crate) fn set_password(alloc: Global, draws: &mut Draws) -> Result<Edit, NoMemory>
    ensures drawn { IfOk result (λ edit. edit ≡ set_password draws.old) }
    ensures rest { draws.new ≡ rest (rest (rest draws.old)) }
{
    let place = draws.below(SITES);
    let secret = draws.below(VALUES);
    let date = draws.below(DATES);
    Ok(Edit::SetPassword(Password {
        origin: site(alloc, place)?,
        user_element: Octets::from_slice(alloc, b"u")?,
        user_value: Octets::from_slice(alloc, b"n")?,
        pass_element: Octets::from_slice(alloc, b"p")?,
        realm: site(alloc, place)?,
        secret: numbered(alloc, b"w", secret)?,
        created: i64::from(date),
        extra: Octets::new(alloc),
    }))
}

#[tactic(auto, unfolding(crate::specs::Steps::delete_password))]
pub(crate) fn delete_password(alloc: Global, draws: &mut Draws) -> Result<Edit, NoMemory>
    ensures drawn { IfOk result (λ edit. edit ≡ delete_password draws.old) }
    ensures rest { draws.new ≡ rest draws.old }
{
    let place = draws.below(SITES);
    Ok(Edit::DeletePassword {
        origin: site(alloc, place)?,
        user_element: Octets::from_slice(alloc, b"u")?,
        user_value: Octets::from_slice(alloc, b"n")?,
        pass_element: Octets::from_slice(alloc, b"p")?,
        realm: site(alloc, place)?,
    })
}
