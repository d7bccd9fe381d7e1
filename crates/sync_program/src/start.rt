//! The start of a run: the words of the command line.
ghost use Rattle.std.specs.Prelude.{◌≡◌, ◌≢◌, map, string_bytes, IfOk, IfErr};
ghost use Rattle.std.specs.IoError.{error_kind};
ghost use Rattle.std.specs.Vec.Iter.{into_iter_items};
ghost use Rattle.outer_edge.specs.Faults.{NeverFalls};
ghost use Rattle.sync_program.specs.Outside.{reading, writing};
ghost use Rattle.sync_program.specs.Starting.{words_after_name, IsRun, IsRunIfHeld, HasNoWords};

use crate::refusal::{Refusal, refuse};
use crate::run::run;
use crate::status::Status;
use outer_edge::{NoMemory, Sink, Source, Words};
use std::alloc::Global;
use std::env::Args;
use std::io;
use std::io::ErrorKind;

/// Does what the words of the command line say that stand behind the program's name.
///
/// A word that is no text is none that the program knows. It takes time linear in the words, and that of `run`.
pub fn start<S: Source, O: Sink>(
    alloc: Global,
    args: io::Result<Args>,
    input: &mut S,
    output: &mut O,
) -> Status
    ensures run { IfOk args (λ args. IsRunIfHeld (words_after_name (map string_bytes (into_iter_items args))) result
        (reading S.left S.came S.faults input.old input.new)
        (writing O.taken O.faults output.old output.new)) }
    ensures no_words { IfErr args (λ error. HasNoWords (error_kind error) result
        (reading S.left S.came S.faults input.old input.new)
        (writing O.taken O.faults output.old output.new)) }
    // In every case.
    ensures reads_never_fall { NeverFalls (S.faults input.old) (S.faults input.new) }
    ensures writes_never_fall { NeverFalls (O.faults output.old) (O.faults output.new) }
{
    let args = match args {
        Ok(args) => args,
        Err(error) => return refuse(alloc, output, refusal_of(&error)),
    };
    match words_of(alloc, args) {
        Ok(words) => run(alloc, &words, input, output),
        Err(NoMemory) => refuse(alloc, output, Refusal::NoMemory),
    }
}

// The words behind the program's name.
fn words_of(alloc: Global, args: Args) -> Result<Words, NoMemory>
    ensures { IfOk result (λ words. words ≡ words_after_name (map string_bytes (into_iter_items args))) }
{
    let mut words = Words::new(alloc);
    let mut args = args;
    let Some(_name) = args.next() else {
        return Ok(words);
    };
    while let Some(word) = args.next() {
        words.push(word.as_str())?;
    }
    Ok(words)
}

// Why there are no words: memory was wanting, or one of them is no text, and so none that the program knows.
fn refusal_of(error: &io::Error) -> Refusal
    ensures no_memory { error_kind error.now ≡ ErrorKind.OutOfMemory → result ≡ Refusal.NoMemory }
    ensures no_text { error_kind error.now ≢ ErrorKind.OutOfMemory → result ≡ Refusal.UnknownWords }
{
    match error.kind() {
        ErrorKind::OutOfMemory => Refusal::NoMemory,
        _ => Refusal::UnknownWords,
    }
}
