use super::*;
use std::alloc::Global;
use std::test::*;
use sync_model::{Edit, Kind};
use sync_values::{Password, Preference};
use wire_fields::{List, NoMemory, Octets};

fn refusal(rt: &HostRuntime, bytes: &[u8]) -> Option<ParseFault> {
    parse_schedule(rt.alloc(), bytes).err()
}

fn bad_line(line: u64, reason: LineReason) -> Option<ParseFault> {
    Some(ParseFault::BadLine { line, reason })
}

const TEXT: &[u8] =
    b"clients 3\nseed 18446744073709551615\nedit 1 set preference a%20b -\nedit 2 del preference %2D\ngather 1 nigori\nask 3\noffer 1\ndeliver 4\nanswer 20000\npost 2 password\nturn 3 preference\n";

fn edits(alloc: Global) -> Result<(Edit, Edit), NoMemory> {
    let name = Octets::from_slice(alloc, b"a b")?;
    let value = Octets::new(alloc);
    let other = Octets::from_slice(alloc, b"-")?;
    let extra = Octets::new(alloc);
    let set = Edit::SetPreference(Preference { name, value, extra });
    Ok((set, Edit::DeletePreference(other)))
}

fn steps(alloc: Global, set: Edit, delete: Edit) -> Result<Vec<Event>, NoMemory> {
    let first = Event::Edit {
        client: 1,
        edit: set,
    };
    let second = Event::Edit {
        client: 2,
        edit: delete,
    };
    let mut events = Vec::new(alloc);
    events.push(first)?;
    events.push(second)?;
    Ok(events)
}

fn push_steps(events: &mut Vec<Event>) -> Result<(), NoMemory> {
    events.push(Event::Gather {
        client: 1,
        kind: Kind::Nigori,
    })?;
    events.push(Event::Ask { client: 3 })?;
    events.push(Event::Offer { client: 1 })?;
    events.push(Event::Deliver { event: 4 })?;
    events.push(Event::Answer { event: 20_000 })?;
    events.push(Event::Post {
        client: 2,
        kind: Kind::Password,
    })?;
    events.push(Event::Turn {
        client: 3,
        kind: Kind::Preference,
    })?;
    Ok(())
}

#[test]
fn prints_each_kind_of_line(rt: HostRuntime) -> Result<(), Fail> {
    let (set, delete) = edits(rt.alloc())?;
    let mut events = steps(rt.alloc(), set, delete)?;
    push_steps(&mut events)?;
    let schedule = Schedule {
        clients: 3,
        seed: 18_446_744_073_709_551_615,
        passes: List::new(rt.alloc()),
        events: List::from_vec(events),
    };
    let text = print_schedule(rt.alloc(), &schedule)?;
    assert_eq!(rt; text.as_slice(), TEXT);
    Ok(())
}

#[test]
fn reads_each_kind_of_line(rt: HostRuntime) -> Result<(), Fail> {
    let schedule = parse_schedule(rt.alloc(), TEXT)?;
    assert_eq!(rt; schedule.clients, 3);
    assert_eq!(rt; schedule.seed, 18_446_744_073_709_551_615);
    assert_eq!(rt; schedule.passes.len(), 0);
    assert_eq!(rt; schedule.events.len(), 9);
    let text = print_schedule(rt.alloc(), &schedule)?;
    assert_eq!(rt; text.as_slice(), TEXT);
    Ok(())
}

fn login(alloc: Global, extra: &[u8]) -> Result<Password, NoMemory> {
    Ok(Password {
        origin: Octets::from_slice(alloc, b"https://a")?,
        user_element: Octets::from_slice(alloc, b"u e")?,
        user_value: Octets::new(alloc),
        pass_element: Octets::from_slice(alloc, b"-")?,
        realm: Octets::from_slice(alloc, b"100%")?,
        secret: Octets::from_slice(alloc, b"\n\xff")?,
        created: 9_223_372_036_854_775_807,
        extra: Octets::from_slice(alloc, extra)?,
    })
}

fn deletion(alloc: Global) -> Result<Edit, NoMemory> {
    Ok(Edit::DeletePassword {
        origin: Octets::from_slice(alloc, b"a")?,
        user_element: Octets::from_slice(alloc, b"b")?,
        user_value: Octets::from_slice(alloc, b"c")?,
        pass_element: Octets::from_slice(alloc, b"d")?,
        realm: Octets::from_slice(alloc, b"e")?,
    })
}

fn passes(alloc: Global) -> Result<Vec<Octets>, NoMemory> {
    let first = Octets::from_slice(alloc, b"open sesame")?;
    let mut passes = Vec::new(alloc);
    passes.push(first)?;
    passes.push(Octets::new(alloc))?;
    Ok(passes)
}

fn push_cuts(events: &mut Vec<Event>, login: Password, deletion: Edit) -> Result<(), NoMemory> {
    events.push(Event::Cut {
        client: 1,
        kept: true,
        edit: Edit::SetPassword(login),
    })?;
    events.push(Event::Cut {
        client: 2,
        kept: false,
        edit: deletion,
    })?;
    Ok(())
}

fn push_later_steps(events: &mut Vec<Event>) -> Result<(), NoMemory> {
    events.push(Event::Lose { client: 8 })?;
    events.push(Event::Crash { client: 7 })?;
    events.push(Event::SetPass { client: 6, pass: 1 })?;
    events.push(Event::GivePass { client: 5, pass: 2 })?;
    Ok(())
}

const LATER_TEXT: &[u8] =
    b"clients 8\npass open%20sesame\npass -\ncut 1 kept set password https://a u%20e - %2D 100%25 %0A%FF 9223372036854775807\ncut 2 lost del password a b c d e\nlose 8\ncrash 7\nsetpass 6 1\ngivepass 5 2\n";

#[test]
fn prints_passphrases_cuts_and_passwords(rt: HostRuntime) -> Result<(), Fail> {
    let login = login(rt.alloc(), b"")?;
    let deletion = deletion(rt.alloc())?;
    let mut events = Vec::new(rt.alloc());
    push_cuts(&mut events, login, deletion)?;
    push_later_steps(&mut events)?;
    let schedule = Schedule {
        clients: 8,
        seed: 0,
        passes: List::from_vec(passes(rt.alloc())?),
        events: List::from_vec(events),
    };
    let text = print_schedule(rt.alloc(), &schedule)?;
    assert_eq!(rt; text.as_slice(), LATER_TEXT);
    Ok(())
}

fn newer_steps(alloc: Global) -> Result<Vec<Event>, NoMemory> {
    let preference = Preference {
        name: Octets::from_slice(alloc, b"a")?,
        value: Octets::from_slice(alloc, b"1")?,
        extra: Octets::from_slice(alloc, b"\x18\x07")?,
    };
    let login = login(alloc, b"\x60\x01")?;
    let mut events = Vec::new(alloc);
    events.push(Event::Edit {
        client: 2,
        edit: Edit::NewerPreference(preference),
    })?;
    events.push(Event::Edit {
        client: 1,
        edit: Edit::NewerPassword(login),
    })?;
    Ok(events)
}

const NEWER_TEXT: &[u8] =
    b"clients 2\nedit 2 newer preference a 1 %18%07\nedit 1 newer password https://a u%20e - %2D 100%25 %0A%FF 9223372036854775807 `%01\n";

#[test]
fn prints_the_edits_of_newer_clients(rt: HostRuntime) -> Result<(), Fail> {
    let schedule = Schedule {
        clients: 2,
        seed: 0,
        passes: List::new(rt.alloc()),
        events: List::from_vec(newer_steps(rt.alloc())?),
    };
    let text = print_schedule(rt.alloc(), &schedule)?;
    assert_eq!(rt; text.as_slice(), NEWER_TEXT);
    Ok(())
}

// A newer client writes more fields, or none.
const NEWER_PREFERENCES: &[u8] =
    b"clients 2\nedit 2 newer preference a 1 %18%07\nedit 1 newer preference a 2 %18%08%1A%01a\nedit 1 newer preference a 3 -\n";

#[test]
fn reads_the_preferences_of_newer_clients(rt: HostRuntime) -> Result<(), Fail> {
    let schedule = parse_schedule(rt.alloc(), NEWER_PREFERENCES)?;
    assert_eq!(rt; schedule.events.len(), 3);
    let text = print_schedule(rt.alloc(), &schedule)?;
    assert_eq!(rt; text.as_slice(), NEWER_PREFERENCES);
    Ok(())
}

#[test]
fn refuses_a_first_line(rt: HostRuntime) {
    assert_eq!(rt; refusal(&rt, b""), bad_line(1, LineReason::Form));
    assert_eq!(rt; refusal(&rt, b"clients 1"), bad_line(1, LineReason::End));
    assert_eq!(rt;
        refusal(&rt, b"clients 9\n"),
        bad_line(1, LineReason::Range)
    );
    assert_eq!(rt;
        refusal(&rt, b"clients 0\n"),
        bad_line(1, LineReason::Range)
    );
    assert_eq!(rt;
        refusal(&rt, b"clients \n"),
        bad_line(1, LineReason::Number)
    );
    assert_eq!(rt;
        refusal(&rt, b"clients  1\n"),
        bad_line(1, LineReason::Form)
    );
    assert_eq!(rt; refusal(&rt, b"offer 1\n"), bad_line(1, LineReason::Form));
}

fn event_refusal(rt: &HostRuntime, line: &[u8]) -> Result<Option<ParseFault>, NoMemory> {
    let mut text = Vec::from_slice(rt.alloc(), b"clients 2\n")?;
    text.extend_from_slice(line)?;
    Ok(refusal(rt, &text))
}

#[test]
fn refuses_a_form(rt: HostRuntime) -> Result<(), Fail> {
    let form = bad_line(2, LineReason::Form);
    assert_eq!(rt; event_refusal(&rt, b"turn 1 foo\n")?, form);
    assert_eq!(rt; event_refusal(&rt, b"turn x foo\n")?, form);
    assert_eq!(rt; event_refusal(&rt, b"cut 1 kept set preference a\n")?, form);
    assert_eq!(rt; event_refusal(&rt, b"clients 1\n")?, form);
    assert_eq!(rt; event_refusal(&rt, b"offer 1 \n")?, form);
    assert_eq!(rt; event_refusal(&rt, b"\n")?, form);
    assert_eq!(rt;
        refusal(&rt, b"clients 1\nseed 1\nseed 2\n"),
        bad_line(3, LineReason::Form)
    );
    assert_eq!(rt;
        refusal(&rt, b"clients 1\nask 1\nseed 2\n"),
        bad_line(3, LineReason::Form)
    );
    assert_eq!(rt;
        refusal(&rt, b"clients 1\nask 1\npass x\n"),
        bad_line(3, LineReason::Form)
    );
    Ok(())
}

#[test]
fn refuses_numbers(rt: HostRuntime) -> Result<(), Fail> {
    let number = bad_line(2, LineReason::Number);
    let range = bad_line(2, LineReason::Range);
    assert_eq!(rt; event_refusal(&rt, b"deliver 01\n")?, number);
    assert_eq!(rt; event_refusal(&rt, b"deliver +1\n")?, number);
    assert_eq!(rt; event_refusal(&rt, b"setpass  1\n")?, number);
    assert_eq!(rt; event_refusal(&rt, b"setpass 3 x\n")?, range);
    assert_eq!(rt; event_refusal(&rt, b"deliver 0\n")?, range);
    assert_eq!(rt; event_refusal(&rt, b"deliver 20001\n")?, range);
    assert_eq!(rt;
        event_refusal(&rt, b"answer 99999999999999999999999999\n")?,
        range
    );
    assert_eq!(rt; event_refusal(&rt, b"seed 18446744073709551616\n")?, range);
    assert_eq!(rt; event_refusal(&rt, b"seed 0\n")?, range);
    assert_eq!(rt; event_refusal(&rt, b"setpass 1 1\n")?, range);
    assert_eq!(rt; event_refusal(&rt, b"lose 9\n")?, range);
    assert_eq!(rt; refusal(&rt, b"clients 1\nturn 2 password\n"), range);
    Ok(())
}

#[test]
fn refuses_words(rt: HostRuntime) -> Result<(), Fail> {
    let word = bad_line(2, LineReason::Word);
    assert_eq!(rt; event_refusal(&rt, b"edit 1 set preference %41 b\n")?, word);
    assert_eq!(rt;
        event_refusal(&rt, b"edit 1 set preference b a%2D\n")?,
        word
    );
    assert_eq!(rt; event_refusal(&rt, b"edit 1 del preference a%2d\n")?, word);
    assert_eq!(rt; event_refusal(&rt, b"edit 1 del preference \n")?, word);
    assert_eq!(rt; event_refusal(&rt, b"pass %\n")?, word);
    assert_eq!(rt;
        event_refusal(&rt, b"edit 1 set password a b c d %%% f x\n")?,
        word
    );
    Ok(())
}

#[test]
fn refuses_fields_that_are_not_canonical(rt: HostRuntime) -> Result<(), Fail> {
    let word = bad_line(2, LineReason::Word);
    // A known field, a number of too many bytes, a group without an end, and no text.
    assert_eq!(rt;
        event_refusal(&rt, b"edit 1 newer preference a 1 %0A\n")?,
        word
    );
    assert_eq!(rt;
        event_refusal(&rt, b"edit 1 newer preference a 1 %18%87%00\n")?,
        word
    );
    assert_eq!(rt;
        event_refusal(&rt, b"edit 2 newer preference b %C3%A9 %1B\n")?,
        word
    );
    assert_eq!(rt;
        event_refusal(&rt, b"edit 1 newer preference a 1 \n")?,
        word
    );
    // The leftmost word that is at fault is told, and the form before all of them.
    let range = bad_line(2, LineReason::Range);
    assert_eq!(rt;
        event_refusal(&rt, b"edit 3 newer preference a 1 %0A\n")?,
        range
    );
    let form = bad_line(2, LineReason::Form);
    assert_eq!(rt; event_refusal(&rt, b"edit 1 newer preference a 1\n")?, form);
    assert_eq!(rt;
        event_refusal(&rt, b"edit 1 set preference a 1 %18%07\n")?,
        form
    );
    Ok(())
}

#[test]
fn refuses_a_date(rt: HostRuntime) -> Result<(), Fail> {
    assert_eq!(rt;
        event_refusal(
            &rt,
            b"edit 1 set password a b c d e f 9223372036854775807\n"
        )?,
        bad_line(2, LineReason::Later)
    );
    assert_eq!(rt;
        event_refusal(
            &rt,
            b"edit 1 set password a b c d e f 9223372036854775808\n"
        )?,
        bad_line(2, LineReason::Range)
    );
    Ok(())
}

#[test]
fn refuses_what_is_not_built(rt: HostRuntime) -> Result<(), Fail> {
    let later = bad_line(2, LineReason::Later);
    assert_eq!(rt;
        event_refusal(&rt, b"edit 1 newer password a b c d e f 0 `%01\n")?,
        later
    );
    assert_eq!(rt; event_refusal(&rt, b"lose 1\n")?, later);
    assert_eq!(rt; event_refusal(&rt, b"pass x\n")?, later);
    assert_eq!(rt; event_refusal(&rt, b"crash 1\n")?, later);
    assert_eq!(rt;
        event_refusal(&rt, b"cut 2 lost del preference a\n")?,
        later
    );
    assert_eq!(rt;
        event_refusal(&rt, b"edit 1 del password a b c d e\n")?,
        later
    );
    Ok(())
}

#[test]
fn reads_so_many_events(rt: HostRuntime) -> Result<(), Fail> {
    let mut text = Vec::from_slice(rt.alloc(), b"clients 1\n")?;
    for _ in 0..20_000 {
        text.extend_from_slice(b"offer 1\n")?;
    }
    assert_eq!(rt; parse_schedule(rt.alloc(), &text)?.events.len(), 20_000);
    text.extend_from_slice(b"lose 1\n")?;
    assert_eq!(rt; refusal(&rt, &text), bad_line(20_002, LineReason::Many));
    Ok(())
}

#[test]
fn each_reason_has_its_words(rt: HostRuntime) -> Result<(), Fail> {
    let reasons: [(LineReason, &str); 7] = [
        (LineReason::End, "it has no line end"),
        (LineReason::Form, "no line of this form may stand here"),
        (LineReason::Number, "a word is no number"),
        (LineReason::Range, "a number is out of range"),
        (LineReason::Word, "a word is no text"),
        (LineReason::Many, "there are too many lines of this sort"),
        (LineReason::Later, "this line is not known yet"),
    ];
    for (reason, words) in reasons {
        let text = format!(in rt.alloc(); "{reason}")?;
        assert_eq!(rt; text.as_str(), words);
    }
    let text = format!(in rt.alloc(); "{}", ParseFault::NoMemory)?;
    assert_eq!(rt; text.as_str(), "no memory");
    Ok(())
}

#[test]
fn shows_a_refusal(rt: HostRuntime) -> Result<(), Fail> {
    let fault = refusal(&rt, b"clients 1\noffer 1").ok_or("the last line has no end")?;
    let text = format!(in rt.alloc(); "{fault}")?;
    assert_eq!(rt; text.as_str(), "line 2: it has no line end");
    let fault = refusal(&rt, b"clients 9\n").ok_or("there are too many clients")?;
    let text = format!(in rt.alloc(); "{fault}")?;
    assert_eq!(rt; text.as_str(), "line 1: a number is out of range");
    Ok(())
}

#[test]
fn has_laws() {
    spells_one_schedule();
    refuses_one_line();
    refuses_no_schedule();
    texts_are_read_back();
    spells_canonical_edits();
}
