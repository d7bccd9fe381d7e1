//! The commands with options.
ghost use Rattle.std.specs.Prelude.{◌≡◌, ◌↔◌, List, IsTrue, MatchOption};
ghost use Rattle.command_words.specs.Commands.{IsGenerate, IsServe, IsClient, IsSoak, IsNamed, ReadsGenerate, ReadsServe, ReadsClient, ReadsSoak};
ghost use Rattle.command_words.specs.declared.commands.GenerateOptions.{GenerateOptions as Generating};
ghost use Rattle.command_words.specs.declared.commands.ServeOptions.{ServeOptions as Serving};
ghost use Rattle.command_words.specs.declared.commands.ClientOptions.{ClientOptions as Running};
ghost use Rattle.command_words.specs.declared.commands.SoakOptions.{SoakOptions as Soaking};

use crate::options::{number_of, store_of};
use outer_edge::Words;

/// How a schedule is generated.
#[derive(Clone, Copy, Debug, PartialEq, Eq)]
pub struct GenerateOptions {
    /// From 1 to 8.
    pub clients: u32,
    /// At most 500.
    pub steps: u32,
    pub seed: u64,
}

/// How a server runs.
#[derive(Clone, Copy, Debug, PartialEq, Eq)]
pub struct ServeOptions<'a> {
    /// From 1.
    pub port: u16,
    /// From 1 to 64 of `a` to `z`, `0` to `9` and `_`.
    pub store: &'a str,
    /// From 1 to 1,000,000.
    pub connections: u32,
    /// From 1 to 16.
    pub workers: u32,
}

/// How a client runs.
#[derive(Clone, Copy, Debug, PartialEq, Eq)]
pub struct ClientOptions<'a> {
    /// From 1.
    pub port: u16,
    /// From 1 to 64 of `a` to `z`, `0` to `9` and `_`.
    pub store: &'a str,
}

/// How many clients soak, and by which draws.
#[derive(Clone, Copy, Debug, PartialEq, Eq)]
pub struct SoakOptions {
    /// From 1 to 8.
    pub clients: u32,
    pub seed: u64,
}

// There are so many words, and the first is this name.
fn is_named(words: &Words, name: &str, count: usize) -> bool
    ensures { IsTrue result ↔ IsNamed name.now count words.now }
{
    words.len() == count && words.get(0) == Some(name)
}

/// What the words say of generating a schedule behind this command's name, if they say it.
pub fn generate_options(words: &Words, name: &str) -> Option<GenerateOptions>
    ensures { MatchOption result ((options : Generating) → IsGenerate name.now words.now options → ⊥)
        (IsGenerate name.now words.now) }
{
    read_generate(words, name)
}

fn read_generate(words: &Words, name: &str) -> Option<GenerateOptions>
    ensures { MatchOption result ((options : Generating) → ReadsGenerate name.now words.now options → ⊥)
        (ReadsGenerate name.now words.now) }
{
    if !is_named(words, name, 7) {
        return None;
    }
    let clients = number_of(words, "--clients", 1, 8)?;
    let steps = number_of(words, "--steps", 0, 500)?;
    let seed = number_of(words, "--seed", 0, u64::MAX)?;
    Some(GenerateOptions {
        clients: clients as u32,
        steps: steps as u32,
        seed,
    })
}

/// What the words say of serving, if they say it.
pub fn serve_options(words: &Words) -> Option<ServeOptions<'_>>
    ensures { MatchOption result ((options : Serving) → IsServe words.now options → ⊥) (IsServe words.now) }
{
    read_serve(words)
}

fn read_serve(words: &Words) -> Option<ServeOptions<'_>>
    ensures { MatchOption result ((options : Serving) → ReadsServe words.now options → ⊥) (ReadsServe words.now) }
{
    if !is_named(words, "serve", 9) {
        return None;
    }
    let port = number_of(words, "--port", 1, 65_535)?;
    let store = store_of(words, "--store")?;
    let connections = number_of(words, "--connections", 1, 1_000_000)?;
    let workers = number_of(words, "--workers", 1, 16)?;
    Some(ServeOptions {
        port: port as u16,
        store,
        connections: connections as u32,
        workers: workers as u32,
    })
}

/// What the words say of running a client, if they say it.
pub fn client_options(words: &Words) -> Option<ClientOptions<'_>>
    ensures { MatchOption result ((options : Running) → IsClient words.now options → ⊥) (IsClient words.now) }
{
    read_client(words)
}

fn read_client(words: &Words) -> Option<ClientOptions<'_>>
    ensures { MatchOption result ((options : Running) → ReadsClient words.now options → ⊥) (ReadsClient words.now) }
{
    if !is_named(words, "client", 5) {
        return None;
    }
    let port = number_of(words, "--port", 1, 65_535)?;
    let store = store_of(words, "--store")?;
    Some(ClientOptions {
        port: port as u16,
        store,
    })
}

/// What the words say of soaking, if they say it.
pub fn soak_options(words: &Words) -> Option<SoakOptions>
    ensures { MatchOption result ((options : Soaking) → IsSoak words.now options → ⊥) (IsSoak words.now) }
{
    read_soak(words)
}

fn read_soak(words: &Words) -> Option<SoakOptions>
    ensures { MatchOption result ((options : Soaking) → ReadsSoak words.now options → ⊥) (ReadsSoak words.now) }
{
    if !is_named(words, "soak", 5) {
        return None;
    }
    let clients = number_of(words, "--clients", 1, 8)?;
    let seed = number_of(words, "--seed", 0, u64::MAX)?;
    Some(SoakOptions {
        clients: clients as u32,
        seed,
    })
}
