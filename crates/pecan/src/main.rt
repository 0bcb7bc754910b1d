//! The program: it reads a script of commands, and writes the reply to each.
//!
//! What it writes is said by `pecan` of `pc_transcript`, which does the whole run.
#![tactic(auto)]

ghost use Rattle.std.specs.Prelude.{◌≡◌, ◌≢◌, ◌<◌, ◌↔◌, ◌⊎◌, drop, IfErr, IfSome};
ghost use Rattle.pc_world.specs.Causes.{IsSound};
ghost use Rattle.pc_world.specs.HandedOn.{HandsOn};
ghost use Rattle.pc_session.specs.PlainSession.{opening};
ghost use Rattle.pc_transcript.specs.State.{state_of};
ghost use Rattle.pc_transcript.specs.Words.{AreTaken, run_commands};
ghost use Rattle.pc_transcript.specs.Transcript.{WritesTranscript};
ghost use Rattle.pecan.specs.Words.{unread};

use pc_syntax::Steps;
use pc_transcript::{Status, pecan};
use pc_world::{MemShelf, Shelf, Sink, Source, StdSink, StdSource};
use std::alloc::Global;
use std::env;
use std::io::ErrorKind;
use std::marker::Brand;
use std::process::ExitCode;
use std::rt::Env;
use std::sync::ledger::{Blank, Ledger};

fn main(rt: HostRuntime) -> ExitCode {
    let mut source = StdSource::new(rt.stdin());
    let mut sink = StdSink::new(rt.stdout());

    let mut shelf = MemShelf::new(Vec::new(rt.alloc()), Vec::new(rt.alloc()));
    let status = match command_line(&rt) {
        Ok(words) => counted::<_, _, _, Brand>(
            rt.alloc(),
            behind_first(&words),
            &mut source,
            &mut sink,
            &mut shelf,
            Blank::new(1),
        ),
        Err(status) => status,
    };
    ExitCode::from(status.code())
}

// The words of the command line, or a status where they aren't text or there is no memory.
fn command_line(rt: &(impl Env + AllocGlobal)) -> Result<Vec<String>, Status>
    ensures status { IfErr result (λ status. (status ≡ Status.BadWords) ⊎ (status ≡ Status.NoMemory)) }
{
    let all = match env::args(rt) {
        Ok(all) => all,
        Err(error) => return Err(unread(error.kind())),
    };
    match all.collect(rt.alloc()) {
        Ok(words) => Ok(words),
        Err(_) => Err(Status::NoMemory),
    }
}

// The status where the words can't be read, for an error of this kind.
fn unread(kind: ErrorKind) -> Status
    ensures { result ≡ unread kind }
{
    match kind {
        ErrorKind::OutOfMemory => Status::NoMemory,
        _ => Status::BadWords,
    }
}

// All words but the first, which is the program's name.
fn behind_first(words: &[String]) -> &[String]
    ensures { result.now ≡ drop 1 words.now }
{
    match words {
        [_, rest @ ..] => rest,
        [] => words,
    }
}

// The run, with a count of its own.
fn counted<S: Source, K: Sink, H: Shelf, L: Ledger>(
    alloc: Global,
    words: &[String],
    source: &mut S,
    sink: &mut K,
    shelf: &mut H,
    blank: Blank,
) -> Status
    requires name { blank.name ≡ L.name }
    requires parts { blank.parts ≡ L.parts }
    requires some { 0 < blank.parts }

    // The words are those that `pecan` gets, and what is written is what it says.
    ensures bad_words { (result ≡ Status.BadWords) ↔ ¬ AreTaken words.now }
    ensures transcript { AreTaken words.now → result ≢ Status.NoMemory
        → IsSound (S.faults source.old) (S.faults source.new) → IsSound (K.faults sink.old) (K.faults sink.new)
        → IfSome (S.left source.old) (λ bytes. WritesTranscript (run_commands words.now bytes) (state_of opening (H.files shelf.old))
        (K.written sink.old) (K.written sink.new) (H.files shelf.new) result) }
    ensures handed_on { result ≢ Status.WriteFault → HandsOn (K.written sink.old) (K.handed_on sink.old) → HandsOn (K.written sink.new) (K.handed_on sink.new) }
{
    let mut work = Steps::<L>::new(blank);
    pecan(alloc, words, source, sink, shelf, &mut work)
}
