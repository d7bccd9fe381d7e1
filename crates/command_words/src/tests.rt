// Words by hand, from the table of the commands.
use super::*;
use client_keeper::StoreReason;
use outer_edge::{NoMemory, Words};
use std::alloc::Global;
use std::test::Fail;

// The words of a text, which single spaces part.
fn words_in(alloc: Global, text: &str) -> Result<Words, NoMemory> {
    let mut words = Words::new(alloc);
    for word in text.split(' ') {
        words.push(word)?;
    }
    Ok(words)
}

const GENERATE: GenerateOptions = GenerateOptions {
    clients: 2,
    steps: 500,
    seed: u64::MAX,
};

#[test]
fn options_stand_in_any_order(rt: HostRuntime) -> Result<(), Fail> {
    for text in [
        "generate --clients 2 --steps 500 --seed 18446744073709551615",
        "generate --seed 18446744073709551615 --clients 2 --steps 500",
        "generate --steps 500 --seed 18446744073709551615 --clients 2",
    ] {
        let words = words_in(rt.alloc(), text)?;
        assert!(rt; generate_options(&words, "generate") == Some(GENERATE));
        assert!(rt; generate_options(&words, "summary").is_none());
    }
    Ok(())
}

#[test]
fn a_server_and_a_client_have_a_store(rt: HostRuntime) -> Result<(), Fail> {
    let words = words_in(
        rt.alloc(),
        "serve --workers 16 --port 65535 --connections 1000000 --store a_9",
    )?;
    let options = serve_options(&words);
    assert!(rt; options.is_some());
    if let Some(options) = options {
        assert_eq!(rt;
            (options.port, options.connections, options.workers),
            (65_535, 1_000_000, 16)
        );
        assert_eq!(rt; options.store, "a_9");
    }
    let words = words_in(rt.alloc(), "client --port 1 --store z")?;
    let options = client_options(&words);
    assert!(rt; options.is_some());
    if let Some(options) = options {
        assert_eq!(rt; options.port, 1);
        assert_eq!(rt; options.store, "z");
    }
    Ok(())
}

#[test]
fn a_soak_has_clients_and_a_seed(rt: HostRuntime) -> Result<(), Fail> {
    let words = words_in(rt.alloc(), "soak --seed 0 --clients 8")?;
    assert!(rt;
        soak_options(&words)
            == Some(SoakOptions {
                clients: 8,
                seed: 0
            })
    );
    Ok(())
}

// The words of no command with options: each is wrong in one thing.
#[test]
fn other_words_say_nothing(rt: HostRuntime) -> Result<(), Fail> {
    for text in [
        "serve",
        "serve --port 1 --store a --connections 1",
        "serve --port 0 --store a --connections 1 --workers 1",
        "serve --port 65536 --store a --connections 1 --workers 1",
        "serve --port 01 --store a --connections 1 --workers 1",
        "serve --port +1 --store a --connections 1 --workers 1",
        "serve --port 1 --store A --connections 1 --workers 1",
        "serve --port 1 --store -a --connections 1 --workers 1",
        "serve --port 1 --store a --connections 0 --workers 1",
        "serve --port 1 --store a --connections 1000001 --workers 1",
        "serve --port 1 --store a --connections 1 --workers 0",
        "serve --port 8000 --store a --connections 1 --workers 17",
        "serve --port 1 --port 1 --connections 1 --workers 1",
        "serve --port 1 --store a --connections 1 --workers 1 --workers 1",
        "serve --port 1 --store a --connections 1 --workers 1 more",
        "serve --Port 1 --store a --connections 1 --workers 1",
    ] {
        let words = words_in(rt.alloc(), text)?;
        assert!(rt; serve_options(&words).is_none());
    }
    for text in [
        "client --port 1 --store",
        "client --store a --port",
        "client --port 1 --store a b",
    ] {
        let words = words_in(rt.alloc(), text)?;
        assert!(rt; client_options(&words).is_none());
    }
    for text in [
        "soak --clients 9 --seed 1",
        "soak --clients 1 --seed 18446744073709551616",
    ] {
        let words = words_in(rt.alloc(), text)?;
        assert!(rt; soak_options(&words).is_none());
    }
    Ok(())
}

#[test]
fn a_store_has_64_bytes_at_most(rt: HostRuntime) -> Result<(), Fail> {
    let longest = "abcdefghijklmnopqrstuvwxyz0123456789_abcdefghijklmnopqrstuvwxyz0";
    assert_eq!(rt; longest.len(), 64);
    let mut words = words_in(rt.alloc(), "client --port 1 --store")?;
    words.push(longest)?;
    assert!(rt; client_options(&words).is_some());
    let mut words = words_in(rt.alloc(), "client --port 1 --store")?;
    words.push("abcdefghijklmnopqrstuvwxyz0123456789_abcdefghijklmnopqrstuvwxyz01")?;
    assert!(rt; client_options(&words).is_none());
    Ok(())
}

#[test]
fn each_ending_has_its_line(rt: HostRuntime) -> Result<(), Fail> {
    assert_eq!(rt; keeper_fault(), b"keeper fault\n".as_slice());
    assert_eq!(rt; net_fault(), b"net fault\n".as_slice());
    assert_eq!(rt; bad_reply(), b"bad reply\n".as_slice());
    assert_eq!(rt; place_fault(), b"place fault\n".as_slice());
    for (reason, wanted) in [
        (StoreReason::Format, "bad store: 0 666f726d6174 format\n"),
        (StoreReason::Table, "bad store: 0 666f726d6174 table\n"),
        (StoreReason::Key, "bad store: 0 666f726d6174 key\n"),
        (StoreReason::Value, "bad store: 0 666f726d6174 value\n"),
        (StoreReason::Numbers, "bad store: 0 666f726d6174 numbers\n"),
        (StoreReason::Place, "bad store: 0 666f726d6174 place\n"),
        (StoreReason::Version, "bad store: 0 666f726d6174 version\n"),
    ] {
        let line = bad_store(rt.alloc(), 0, b"format", reason)?;
        assert_eq!(rt; line.as_slice(), wanted.as_bytes());
    }
    let line = bad_store(rt.alloc(), 255, &[0, 171], StoreReason::Key)?;
    assert_eq!(rt; line.as_slice(), b"bad store: 255 00ab key\n".as_slice());
    Ok(())
}
