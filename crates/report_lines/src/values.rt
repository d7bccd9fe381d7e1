ghost use Rattle.std.specs.Prelude.{◌≡◌, [], ◌++◌, OnOk, OnErr};
ghost use Rattle.run_setting.specs.Hashed.{hashed};
ghost use Rattle.sync_model.specs.Report.{extra_text, preference_text, password_text, pass_number, key_text, key_numbers, nigori_text, value_text, lock_text};
ghost use Rattle.text_lines.specs.Continued.{Continues};

use sync_model::Value;
use sync_values::{NigoriKey, NigoriValue, Password, Preference};
use text_lines::{Piece, write_pieces, write_text};
use wire_fields::{NoMemory, Octets};

fn write_preference(out: &mut Vec<u8>, preference: &Preference) -> Result<(), NoMemory>
    ensures ok { OnOk result (out.new.items ≡ out.old.items ++ preference_text preference.now) }
    ensures err { OnErr result (Continues out.old.items out.new.items) }
{
    write_pieces(
        out,
        &[
            Piece::Word(preference.name.as_slice()),
            Piece::Text(b" "),
            Piece::Word(preference.value.as_slice()),
        ],
    )
}

fn write_password(out: &mut Vec<u8>, password: &Password) -> Result<(), NoMemory>
    ensures ok { OnOk result (out.new.items ≡ out.old.items ++ password_text password.now) }
    ensures err { OnErr result (Continues out.old.items out.new.items) }
{
    write_pieces(
        out,
        &[
            Piece::Word(password.origin.as_slice()),
            Piece::Text(b" "),
            Piece::Word(password.user_element.as_slice()),
            Piece::Text(b" "),
            Piece::Word(password.user_value.as_slice()),
            Piece::Text(b" "),
            Piece::Word(password.pass_element.as_slice()),
            Piece::Text(b" "),
            Piece::Word(password.realm.as_slice()),
            Piece::Text(b" "),
            Piece::Word(password.secret.as_slice()),
            Piece::Text(b" "),
            Piece::Signed(password.created),
        ],
    )
}

/// What ends a value that a newer client wrote more fields of: those fields as a word, if there are any.
#[tactic(auto, unfolding(sync_model::specs::Report::extra_text))]
fn write_extra(out: &mut Vec<u8>, extra: &[u8]) -> Result<(), NoMemory>
    ensures ok { OnOk result (out.new.items ≡ out.old.items ++ extra_text extra.now) }
    ensures err { OnErr result (Continues out.old.items out.new.items) }
{
    if extra.is_empty() {
        return Ok(());
    }
    write_pieces(out, &[Piece::Text(b" + "), Piece::Word(extra)])
}

// The number of a key. No passphrase is known, so it is 0.
#[tactic(auto, unfolding(sync_model::specs::Report::key_text))]
fn write_key(out: &mut Vec<u8>, key: &NigoriKey) -> Result<(), NoMemory>
    ensures ok { OnOk result (out.new.items ≡ out.old.items ++ key_text hashed (pass_number hashed []) key.now) }
    ensures err { OnErr result (Continues out.old.items out.new.items) }
{
    let _ = key;
    write_pieces(out, &[Piece::Text(b" "), Piece::Number(0)])
}

#[tactic(auto, using(text_lines::proofs::Continuing::continues_after))]
fn write_keys(out: &mut Vec<u8>, keys: &[NigoriKey]) -> Result<(), NoMemory>
    ensures ok { OnOk result (out.new.items ≡ out.old.items ++ key_numbers hashed (pass_number hashed []) keys.now) }
    ensures err { OnErr result (Continues out.old.items out.new.items) }
{
    for key in keys {
        write_key(out, key)?;
    }
    Ok(())
}

#[tactic(auto, using(text_lines::proofs::Continuing::continues_after), unfolding(sync_model::specs::Report::nigori_text))]
fn write_nigori(out: &mut Vec<u8>, nigori: &NigoriValue) -> Result<(), NoMemory>
    ensures ok { OnOk result (out.new.items ≡ out.old.items ++ nigori_text hashed (pass_number hashed []) nigori.now) }
    ensures err { OnErr result (Continues out.old.items out.new.items) }
{
    write_pieces(
        out,
        &[
            Piece::Text(b"lock "),
            Piece::Number(0),
            Piece::Text(b" keys"),
        ],
    )?;
    write_keys(out, nigori.keys.as_slice())
}

/// A value as the words of a line, in time linear in its texts: `absent`, a preference's name and value,
/// the seven words of a login, or the numbers of a profile's keys, which are 0. A `+` and a word end it where a newer
/// client wrote more fields of it.
#[tactic(auto, using(text_lines::proofs::Continuing::continues_after), unfolding(sync_model::specs::Report::value_text, run_setting::specs::Hashed::hashed))]
pub fn write_value(out: &mut Vec<u8>, value: &Value) -> Result<(), NoMemory>
    ensures ok { OnOk result (out.new.items ≡ out.old.items ++ value_text hashed (pass_number hashed []) value.now) }
    ensures err { OnErr result (Continues out.old.items out.new.items) }
{
    match value {
        Value::Absent => write_text(out, b"absent"),
        Value::Preference(preference) => {
            write_preference(out, preference)?;
            write_extra(out, preference.extra.as_slice())
        }
        Value::Password(password) => {
            write_password(out, password)?;
            write_extra(out, password.extra.as_slice())
        }
        Value::Nigori(nigori) => write_nigori(out, nigori),
    }
}

/// What seals a write. No passphrase is known, so a key has the number 0.
#[tactic(auto, unfolding(sync_model::specs::Report::lock_text))]
pub fn write_lock(out: &mut Vec<u8>, lock: &Option<Octets>) -> Result<(), NoMemory>
    ensures ok { OnOk result (out.new.items ≡ out.old.items ++ lock_text (pass_number hashed []) lock.now) }
    ensures err { OnErr result (Continues out.old.items out.new.items) }
{
    match lock {
        None => write_text(out, b"plain"),
        Some(_) => write_pieces(out, &[Piece::Text(b"pass "), Piece::Number(0)]),
    }
}
