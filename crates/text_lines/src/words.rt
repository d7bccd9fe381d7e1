ghost use Rattle.std.specs.Prelude.{◌≡◌, ◌<◌, ◌++◌, true, OnOk, OnErr};
ghost use Rattle.std.specs.List.{flat_map};
ghost use Rattle.std.specs.Fmt.{decimal, signed_decimal, digit_glyph};
ghost use Rattle.client_tags.specs.Tags.{percent_escape};
ghost use Rattle.sync_model.specs.Text.{is_plain, byte_text, text_word, kind_word};
ghost use Rattle.text_lines.specs.Continued.{Continues};

use client_tags::Kind;
use itoa::Buffer;
use wire_fields::NoMemory;

/// Bytes as they are.
pub fn write_text(out: &mut Vec<u8>, text: &[u8]) -> Result<(), NoMemory>
    ensures ok { OnOk result (out.new.items ≡ out.old.items ++ text.now) }
    ensures err { OnErr result (Continues out.old.items out.new.items) }
{
    out.extend_from_slice(text)?;
    Ok(())
}

fn is_plain_byte(byte: u8) -> bool
    ensures { result ≡ is_plain byte }
{
    b'!' <= byte && byte <= b'~' && byte != b'%'
}

/// The digit of a number below 16, a letter in upper case.
fn hex_digit(number: u8) -> u8
    requires { number < 16 }
    ensures { result ≡ digit_glyph true number }
{
    if number < 10 {
        b'0' + number
    } else {
        b'A' + (number - 10)
    }
}

fn write_escape(out: &mut Vec<u8>, byte: u8) -> Result<(), NoMemory>
    ensures ok { OnOk result (out.new.items ≡ out.old.items ++ percent_escape byte) }
    ensures err { OnErr result (Continues out.old.items out.new.items) }
{
    write_text(out, &[b'%', hex_digit(byte / 16), hex_digit(byte % 16)])
}

fn write_byte(out: &mut Vec<u8>, byte: u8) -> Result<(), NoMemory>
    ensures ok { OnOk result (out.new.items ≡ out.old.items ++ byte_text byte) }
    ensures err { OnErr result (Continues out.old.items out.new.items) }
{
    if is_plain_byte(byte) {
        write_text(out, &[byte])
    } else {
        write_escape(out, byte)
    }
}

#[tactic(auto, using(crate::proofs::Continuing::continues_after))]
fn write_bytes(out: &mut Vec<u8>, text: &[u8]) -> Result<(), NoMemory>
    ensures ok { OnOk result (out.new.items ≡ out.old.items ++ flat_map byte_text text.now) }
    ensures err { OnErr result (Continues out.old.items out.new.items) }
{
    for byte in text {
        write_byte(out, *byte)?;
    }
    Ok(())
}

/// A text as a word of a line: it has no space, no line end and no byte outside of ASCII, and the empty
/// text is `-`. It takes time linear in the text's length.
#[tactic(auto, using(crate::proofs::TextWord::word_by_bytes), unfolding(sync_model::specs::Text::text_word))]
pub fn write_word(out: &mut Vec<u8>, text: &[u8]) -> Result<(), NoMemory>
    ensures ok { OnOk result (out.new.items ≡ out.old.items ++ text_word text.now) }
    ensures err { OnErr result (Continues out.old.items out.new.items) }
{
    if text.is_empty() {
        write_text(out, b"-")
    } else if text == b"-".as_slice() {
        write_escape(out, b'-')
    } else {
        write_bytes(out, text)
    }
}

/// A number in decimal, with no leading zero.
pub fn write_number(out: &mut Vec<u8>, number: u64) -> Result<(), NoMemory>
    ensures ok { OnOk result (out.new.items ≡ out.old.items ++ decimal number) }
    ensures err { OnErr result (Continues out.old.items out.new.items) }
{
    let mut buffer = Buffer::new();
    write_text(out, buffer.format(number).as_bytes())
}

/// A number in decimal, with `-` before it where it is below 0.
pub fn write_signed(out: &mut Vec<u8>, number: i64) -> Result<(), NoMemory>
    ensures ok { OnOk result (out.new.items ≡ out.old.items ++ signed_decimal number) }
    ensures err { OnErr result (Continues out.old.items out.new.items) }
{
    let mut buffer = Buffer::new();
    write_text(out, buffer.format(number).as_bytes())
}

/// The name of a type in the lines of a report.
#[tactic(auto, unfolding(sync_model::specs::Text::kind_word))]
pub fn kind_name(kind: Kind) -> &'static [u8]
    ensures { result.now ≡ kind_word kind }
{
    match kind {
        Kind::Nigori => b"nigori",
        Kind::Preference => b"preference",
        Kind::Password => b"password",
    }
}

/// The name of a type.
pub fn write_kind(out: &mut Vec<u8>, kind: Kind) -> Result<(), NoMemory>
    ensures ok { OnOk result (out.new.items ≡ out.old.items ++ kind_word kind) }
    ensures err { OnErr result (Continues out.old.items out.new.items) }
{
    write_text(out, kind_name(kind))
}
