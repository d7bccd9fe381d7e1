use super::*;
use std::alloc::Global;
use std::test::*;
use sync_values::{Password, Preference};
use wire_fields::{List, NoMemory, Octets};

fn refusal(rt: &HostRuntime, bytes: &[u8]) -> Option<ParseFault> {
    parse_script(rt.alloc(), bytes).err()
}

fn bad_line(line: u64, reason: LineReason) -> Option<ParseFault> {
    Some(ParseFault::BadLine { line, reason })
}

const SCRIPT: &[u8] =
    b"set preference a%20b -\nnewer preference a 1 %18%07\ndel preference %2D\nset password https://a u%20e - %2D 100%25 %0A%FF 9223372036854775807\nsetpass open%20sesame\nsync\ngivepass -\njoin\n";

fn preference(
    alloc: Global,
    name: &[u8],
    value: &[u8],
    extra: &[u8],
) -> Result<Preference, NoMemory> {
    Ok(Preference {
        name: Octets::from_slice(alloc, name)?,
        value: Octets::from_slice(alloc, value)?,
        extra: Octets::from_slice(alloc, extra)?,
    })
}

fn login(alloc: Global) -> Result<Password, NoMemory> {
    Ok(Password {
        origin: Octets::from_slice(alloc, b"https://a")?,
        user_element: Octets::from_slice(alloc, b"u e")?,
        user_value: Octets::new(alloc),
        pass_element: Octets::from_slice(alloc, b"-")?,
        realm: Octets::from_slice(alloc, b"100%")?,
        secret: Octets::from_slice(alloc, b"\n\xff")?,
        created: 9_223_372_036_854_775_807,
        extra: Octets::new(alloc),
    })
}

fn push_changes(alloc: Global, lines: &mut Vec<ScriptLine>) -> Result<(), NoMemory> {
    let set = preference(alloc, b"a b", b"", b"")?;
    let newer = preference(alloc, b"a", b"1", b"\x18\x07")?;
    let deleted = Octets::from_slice(alloc, b"-")?;
    let login = login(alloc)?;
    lines.push(ScriptLine::Change(Edit::SetPreference(set)))?;
    lines.push(ScriptLine::Change(Edit::NewerPreference(newer)))?;
    lines.push(ScriptLine::Change(Edit::DeletePreference(deleted)))?;
    lines.push(ScriptLine::Change(Edit::SetPassword(login)))?;
    Ok(())
}

fn push_others(alloc: Global, lines: &mut Vec<ScriptLine>) -> Result<(), NoMemory> {
    let pass = Octets::from_slice(alloc, b"open sesame")?;
    lines.push(ScriptLine::SetPass(pass))?;
    lines.push(ScriptLine::Sync)?;
    lines.push(ScriptLine::GivePass(Octets::new(alloc)))?;
    lines.push(ScriptLine::Join)?;
    Ok(())
}

#[test]
fn prints_each_kind_of_line(rt: HostRuntime) -> Result<(), Fail> {
    let mut lines = Vec::new(rt.alloc());
    push_changes(rt.alloc(), &mut lines)?;
    push_others(rt.alloc(), &mut lines)?;
    let script = Script {
        lines: List::from_vec(lines),
    };
    let text = print_script(rt.alloc(), &script)?;
    assert_eq!(rt; text.as_slice(), SCRIPT);
    Ok(())
}

/// A line has this passphrase.
fn is_pass_line(line: Option<&ScriptLine>, pass: &[u8]) -> bool {
    match line {
        Some(ScriptLine::SetPass(text)) => text.as_slice() == pass,
        Some(ScriptLine::GivePass(text)) => text.as_slice() == pass,
        _ => false,
    }
}

#[test]
fn reads_each_kind_of_line(rt: HostRuntime) -> Result<(), Fail> {
    let script = parse_script(rt.alloc(), SCRIPT)?;
    let lines = script.lines.as_slice();
    assert_eq!(rt; lines.len(), 8);
    assert!(rt; matches!(&lines[0], ScriptLine::Change(Edit::SetPreference(_))));
    assert!(rt; matches!(&lines[1], ScriptLine::Change(Edit::NewerPreference(_))));
    assert!(rt; matches!(&lines[2], ScriptLine::Change(Edit::DeletePreference(_))));
    assert!(rt; matches!(&lines[3], ScriptLine::Change(Edit::SetPassword(_))));
    assert!(rt; matches!(&lines[4], ScriptLine::SetPass(_)));
    assert!(rt; is_pass_line(lines.get(4), b"open sesame"));
    assert!(rt; matches!(&lines[5], ScriptLine::Sync));
    assert!(rt; matches!(&lines[6], ScriptLine::GivePass(_)));
    assert!(rt; is_pass_line(lines.get(6), b""));
    assert!(rt; matches!(&lines[7], ScriptLine::Join));
    let text = print_script(rt.alloc(), &script)?;
    assert_eq!(rt; text.as_slice(), SCRIPT);
    Ok(())
}

const LOGINS: &[u8] =
    b"newer password https://a u%20e - %2D 100%25 %0A%FF 0 `%01\nnewer password a b c d e f 9 -\ndel password a b c d e\nset password - - - - - - 0\n";

#[test]
fn reads_logins(rt: HostRuntime) -> Result<(), Fail> {
    let script = parse_script(rt.alloc(), LOGINS)?;
    assert_eq!(rt; script.lines.len(), 4);
    let text = print_script(rt.alloc(), &script)?;
    assert_eq!(rt; text.as_slice(), LOGINS);
    Ok(())
}

#[test]
fn reads_an_empty_text(rt: HostRuntime) -> Result<(), Fail> {
    let script = parse_script(rt.alloc(), b"")?;
    assert_eq!(rt; script.lines.len(), 0);
    let text = print_script(rt.alloc(), &script)?;
    assert!(rt; text.as_slice().is_empty());
    Ok(())
}

#[test]
fn refuses_a_line_without_an_end(rt: HostRuntime) {
    assert_eq!(rt; refusal(&rt, b"sync"), bad_line(1, LineReason::End));
    assert_eq!(rt; refusal(&rt, b"sync\nfoo"), bad_line(2, LineReason::End));
    assert_eq!(rt; refusal(&rt, b"foo\nsync"), bad_line(1, LineReason::Form));
}

#[test]
fn refuses_a_form(rt: HostRuntime) {
    let form = bad_line(1, LineReason::Form);
    assert_eq!(rt; refusal(&rt, b"\n"), form);
    assert_eq!(rt; refusal(&rt, b"sync \n"), form);
    assert_eq!(rt; refusal(&rt, b" sync\n"), form);
    assert_eq!(rt; refusal(&rt, b"sync now\n"), form);
    assert_eq!(rt; refusal(&rt, b"Join\n"), form);
    assert_eq!(rt; refusal(&rt, b"setpass\n"), form);
    assert_eq!(rt; refusal(&rt, b"setpass open sesame\n"), form);
    assert_eq!(rt; refusal(&rt, b"givepass a \n"), form);
    assert_eq!(rt; refusal(&rt, b"set preference a\n"), form);
    assert_eq!(rt; refusal(&rt, b"set preference a b %18%07\n"), form);
    assert_eq!(rt; refusal(&rt, b"newer preference a b\n"), form);
    assert_eq!(rt; refusal(&rt, b"del nigori a\n"), form);
    // What a schedule has and a script has not.
    assert_eq!(rt; refusal(&rt, b"clients 1\n"), form);
    assert_eq!(rt; refusal(&rt, b"pass a\n"), form);
    assert_eq!(rt; refusal(&rt, b"edit 1 del preference a\n"), form);
    assert_eq!(rt; refusal(&rt, b"ask 1\n"), form);
}

#[test]
fn refuses_numbers(rt: HostRuntime) {
    let number = bad_line(2, LineReason::Number);
    let range = bad_line(2, LineReason::Range);
    assert_eq!(rt;
        refusal(&rt, b"join\nset password a b c d e f 01\n"),
        number
    );
    assert_eq!(rt; refusal(&rt, b"join\nset password a b c d e f \n"), number);
    assert_eq!(rt;
        refusal(&rt, b"join\nset password a b c d e f 9223372036854775808\n"),
        range
    );
    assert_eq!(rt;
        refusal(
            &rt,
            b"join\nnewer password a b c d e f 9223372036854775808 %0A\n"
        ),
        range
    );
}

#[test]
fn refuses_words(rt: HostRuntime) {
    let word = bad_line(1, LineReason::Word);
    assert_eq!(rt; refusal(&rt, b"setpass %41\n"), word);
    assert_eq!(rt; refusal(&rt, b"setpass \n"), word);
    assert_eq!(rt; refusal(&rt, b"givepass a%2D\n"), word);
    assert_eq!(rt; refusal(&rt, b"del preference a%2d\n"), word);
    assert_eq!(rt; refusal(&rt, b"set password a b c d %%% f x\n"), word);
    // A known field, and a number of too many bytes.
    assert_eq!(rt; refusal(&rt, b"newer preference a 1 %0A\n"), word);
    assert_eq!(rt; refusal(&rt, b"newer preference a 1 %18%87%00\n"), word);
}

#[test]
fn tells_the_first_line(rt: HostRuntime) {
    assert_eq!(rt;
        refusal(&rt, b"sync\nsetpass %\nfoo\n"),
        bad_line(2, LineReason::Word)
    );
    assert_eq!(rt;
        refusal(&rt, b"sync\nfoo\nsetpass %\n"),
        bad_line(2, LineReason::Form)
    );
}

#[test]
fn reads_so_many_lines(rt: HostRuntime) -> Result<(), Fail> {
    let mut text = Vec::new(rt.alloc());
    for _ in 0..9_999 {
        text.extend_from_slice(b"sync\n")?;
    }
    text.extend_from_slice(b"join\n")?;
    assert_eq!(rt; parse_script(rt.alloc(), &text)?.lines.len(), 10_000);
    let length = text.len();
    text.extend_from_slice(b"join\n")?;
    assert_eq!(rt; refusal(&rt, &text), bad_line(10_001, LineReason::Many));
    // Each other reason comes before it.
    text.truncate(length);
    text.extend_from_slice(b"setpass %\n")?;
    assert_eq!(rt; refusal(&rt, &text), bad_line(10_001, LineReason::Word));
    text.truncate(length);
    text.extend_from_slice(b"sync")?;
    assert_eq!(rt; refusal(&rt, &text), bad_line(10_001, LineReason::End));
    Ok(())
}

#[test]
fn has_laws() {
    spells_one_script();
    refuses_one_script_line();
    refuses_no_script();
    scripts_are_read_back();
    spells_canonical_scripts();
}
