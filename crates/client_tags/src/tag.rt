ghost use Rattle.std.specs.Prelude.{◌≡◌, ◌<◌, ◌∷◌, ◌++◌, true, IfOk, OnOk};
ghost use Rattle.std.specs.Fmt.{digit_glyph};
ghost use Rattle.client_tags.specs.Tags.{is_unreserved, percent_escape, escaped, password_tag, nigori_tag};
ghost use Rattle.client_tags.specs.Laws.{TagsTellLogins};

use crate::NoMemory;
use std::alloc::Global;

/// The tag of the keys of a profile. There is one such entity in a profile.
pub fn nigori_tag() -> &'static [u8]
    ensures { result.now ≡ nigori_tag }
{
    b"google_chrome_nigori"
}

/// The tag of a login: it differs where one of the five texts differs. It takes time linear in their
/// lengths.
pub fn password_tag(
    alloc: Global,
    origin: &[u8],
    user_element: &[u8],
    user_value: &[u8],
    pass_element: &[u8],
    realm: &[u8],
) -> Result<Vec<u8>, NoMemory>
    ensures { IfOk result (λ tag. tag.items
        ≡ password_tag origin.now user_element.now user_value.now pass_element.now realm.now) }
{
    let mut tag = Vec::new(alloc);
    push_escaped(&mut tag, origin)?;
    push_part(&mut tag, user_element)?;
    push_part(&mut tag, user_value)?;
    push_part(&mut tag, pass_element)?;
    push_part(&mut tag, realm)?;
    Ok(tag)
}

// A further text of a tag, behind the sign that parts it from the one before.
fn push_part(tag: &mut Vec<u8>, text: &[u8]) -> Result<(), NoMemory>
    ensures { OnOk result (tag.new.items ≡ tag.old.items ++ 124 ∷ escaped text.now) }
{
    tag.push(b'|')?;
    push_escaped(tag, text)
}

fn push_escaped(tag: &mut Vec<u8>, text: &[u8]) -> Result<(), NoMemory>
    ensures { OnOk result (tag.new.items ≡ tag.old.items ++ escaped text.now) }
{
    for byte in text {
        if is_unreserved(*byte) {
            tag.push(*byte)?;
        } else {
            tag.extend_from_slice(&percent_escape(*byte))?;
        }
    }
    Ok(())
}

pub(crate) fn is_unreserved(byte: u8) -> bool
    ensures { result ≡ is_unreserved byte }
{
    byte.is_ascii_alphanumeric() || matches!(byte, b'-' | b'.' | b'_' | b'~')
}

pub(crate) fn percent_escape(byte: u8) -> [u8; 3]
    ensures { result ≡ percent_escape byte }
{
    [b'%', hex_digit(byte / 16), hex_digit(byte % 16)]
}

// The digit of a number below 16, a letter in upper case.
fn hex_digit(number: u8) -> u8
    requires { number < 16 }
    ensures { result ≡ digit_glyph true number }
{
    if number < 10 {
        b'0' + number
    } else {
        b'A' + (number - 10)
    }
}

/// Logins of which a text differs have different tags.
pub fn tags_tell_logins()
    ensures { TagsTellLogins }
{}
