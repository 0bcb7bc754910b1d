//! A whole run.

ghost use Rattle.std.specs.Prelude.{◌≡◌, ◌≢◌, ◌<◌, ◌≤◌, ◌↔◌, ℕ, List, true, false, length, take, OnOk, OnErr, IfSome};
ghost use Rattle.std.specs.Io.KnownBytes.{Appends, Consumes, IsAtEnd};
ghost use Rattle.pc_world.specs.Causes.{HasCause, Rose, IsSound};
ghost use Rattle.pc_world.specs.HandedOn.{HandsOn};
ghost use Rattle.pc_script.specs.Intake.{commands_to_come, has_ended};
ghost use Rattle.pc_script.specs.Script.{commands_in, unit_limit, unit_count};
ghost use Rattle.pc_session.specs.PlainSession.{opening};
ghost use Rattle.pc_transcript.specs.State.{state_of};
ghost use Rattle.pc_transcript.specs.Words.{AreTaken, commands_with, run_commands};
ghost use Rattle.pc_transcript.specs.Transcript.{WritesAnswer, WritesPart, WritesReplies, WritesFront, WritesTranscript};

use crate::obeying::obey_line;
use crate::status::Status;
use pc_script::{Given, Intake, Next, Stop, next_command};
use pc_session::Session;
use pc_syntax::Steps;
use pc_world::{Failed, Shelf, Sink, Source, put_all};
use std::alloc::Global;
use std::sync::ledger::Ledger;

/// The whole program: answers the commands of the source in order, and says how that ended.
/// `words` are those of the command line, without the program's name.
pub fn pecan<S: Source, K: Sink, H: Shelf, L: Ledger>(
    alloc: Global,
    words: &[String],
    source: &mut S,
    sink: &mut K,
    shelf: &mut H,
    work: &mut Steps<L>,
) -> Status
    // What is written is the replies of a transcript of the words and the script.
    ensures transcript { AreTaken words.now → result ≢ Status.NoMemory
        → IsSound (S.faults source.old) (S.faults source.new) → IsSound (K.faults sink.old) (K.faults sink.new)
        → IfSome (S.left source.old) (λ bytes. WritesTranscript (run_commands words.now bytes) (state_of opening (H.files shelf.old))
        (K.written sink.old) (K.written sink.new) (H.files shelf.new) result) }

    // A run that ended early has written a front of such replies, and after a failed read
    // exactly the replies to the commands that stand whole in the bytes taken.
    ensures interrupted { AreTaken words.now
        → IfSome (S.left source.old) (λ bytes. WritesFront (run_commands words.now bytes) (state_of opening (H.files shelf.old))
        (K.written sink.old) (K.written sink.new)) }
    ensures read_fault { AreTaken words.now → result ≡ Status.ReadFault → (taken : List ℕ) × Consumes (S.left source.old) (S.left source.new) taken
        × WritesReplies (commands_with words.now taken true).items (state_of opening (H.files shelf.old))
        (K.written sink.old) (K.written sink.new) (H.files shelf.new) }

    // When each status comes.
    ensures bad_words { (result ≡ Status.BadWords) ↔ ¬ AreTaken words.now }
    ensures nothing { result ≡ Status.BadWords → K.written sink.new ≡ K.written sink.old }
    ensures read { result ≡ Status.ReadFault → Rose (S.faults source.old) (S.faults source.new) }
    ensures read_told { S.faults source.old < S.faults source.new → result ≡ Status.ReadFault }
    ensures write { result ≡ Status.WriteFault → Rose (K.faults sink.old) (K.faults sink.new) }
    ensures write_told { K.faults sink.old < K.faults sink.new → result ≡ Status.WriteFault }
    ensures ended { result ≡ Status.Done → IsAtEnd (S.left source.new) }
    ensures done { result ≡ Status.Done → IfSome (S.left source.old) (λ bytes. unit_count bytes ≤ unit_limit) }
    ensures too_many { result ≡ Status.TooManyLines → IfSome (S.left source.old) (λ bytes. unit_limit < unit_count bytes) }
    ensures not_refused { result ≢ Status.Refused }

    // No reply is kept back.
    ensures handed_on { result ≢ Status.WriteFault → HandsOn (K.written sink.old) (K.handed_on sink.old) → HandsOn (K.written sink.new) (K.handed_on sink.new) }
{
    if !words.is_empty() {
        return Status::BadWords;
    }
    without_words(alloc, source, sink, shelf, work)
}

// The run of a command line without words.
fn without_words<S: Source, K: Sink, H: Shelf, L: Ledger>(
    alloc: Global,
    source: &mut S,
    sink: &mut K,
    shelf: &mut H,
    work: &mut Steps<L>,
) -> Status
    ensures transcript { result ≢ Status.NoMemory
        → IsSound (S.faults source.old) (S.faults source.new) → IsSound (K.faults sink.old) (K.faults sink.new)
        → IfSome (S.left source.old) (λ bytes. WritesTranscript (commands_in bytes false) (state_of opening (H.files shelf.old))
        (K.written sink.old) (K.written sink.new) (H.files shelf.new) result) }
    ensures interrupted { IfSome (S.left source.old) (λ bytes. WritesFront (commands_in bytes false) (state_of opening (H.files shelf.old))
        (K.written sink.old) (K.written sink.new)) }
    ensures read_fault { result ≡ Status.ReadFault → (taken : List ℕ) × Consumes (S.left source.old) (S.left source.new) taken
        × WritesReplies (commands_in taken true).items (state_of opening (H.files shelf.old))
        (K.written sink.old) (K.written sink.new) (H.files shelf.new) }
    ensures taken { result ≢ Status.BadWords }
    ensures read { result ≡ Status.ReadFault → Rose (S.faults source.old) (S.faults source.new) }
    ensures read_told { S.faults source.old < S.faults source.new → result ≡ Status.ReadFault }
    ensures write { result ≡ Status.WriteFault → Rose (K.faults sink.old) (K.faults sink.new) }
    ensures write_told { K.faults sink.old < K.faults sink.new → result ≡ Status.WriteFault }
    ensures ended { result ≡ Status.Done → IsAtEnd (S.left source.new) }
    ensures done { result ≡ Status.Done → IfSome (S.left source.old) (λ bytes. unit_count bytes ≤ unit_limit) }
    ensures too_many { result ≡ Status.TooManyLines → IfSome (S.left source.old) (λ bytes. unit_limit < unit_count bytes) }
    ensures not_refused { result ≢ Status.Refused }
    ensures handed_on { result ≢ Status.WriteFault → HandsOn (K.written sink.old) (K.handed_on sink.old) → HandsOn (K.written sink.new) (K.handed_on sink.new) }
{
    let Ok(mut intake) = Intake::new(alloc) else {
        return Status::NoMemory;
    };
    let Ok(mut session) = Session::new(alloc) else {
        return Status::NoMemory;
    };
    run(alloc, &mut intake, &mut session, source, sink, shelf, work)
}

// Answers the commands that are still to come.
fn run<S: Source, K: Sink, H: Shelf, L: Ledger>(
    alloc: Global,
    intake: &mut Intake,
    session: &mut Session,
    source: &mut S,
    sink: &mut K,
    shelf: &mut H,
    work: &mut Steps<L>,
) -> Status
    requires unended { has_ended intake.old ≡ false }
    ensures transcript { result ≢ Status.ReadFault → result ≢ Status.WriteFault → result ≢ Status.NoMemory
        → IfSome (S.left source.old) (λ bytes. WritesTranscript (commands_to_come intake.old bytes false)
        (state_of session.old.now (H.files shelf.old)) (K.written sink.old) (K.written sink.new) (H.files shelf.new) result) }
    ensures interrupted { IfSome (S.left source.old) (λ bytes. WritesFront (commands_to_come intake.old bytes false)
        (state_of session.old.now (H.files shelf.old)) (K.written sink.old) (K.written sink.new)) }
    ensures read_fault { result ≡ Status.ReadFault → (taken : List ℕ) × Consumes (S.left source.old) (S.left source.new) taken
        × WritesReplies (commands_to_come intake.old taken true).items
        (state_of session.old.now (H.files shelf.old)) (K.written sink.old) (K.written sink.new) (H.files shelf.new) }
    ensures ended { result ≡ Status.Done → IsAtEnd (S.left source.new) }
    ensures bad_words { result ≢ Status.BadWords }
    ensures not_refused { result ≢ Status.Refused }
    ensures read { result ≡ Status.ReadFault → Rose (S.faults source.old) (S.faults source.new) }
    ensures read_told { S.faults source.old < S.faults source.new → result ≡ Status.ReadFault }
    ensures write { result ≡ Status.WriteFault → Rose (K.faults sink.old) (K.faults sink.new) }
    ensures write_told { K.faults sink.old < K.faults sink.new → result ≡ Status.WriteFault }
    ensures handed_on { result ≢ Status.WriteFault → HandsOn (K.written sink.old) (K.handed_on sink.old) → HandsOn (K.written sink.new) (K.handed_on sink.new) }
{
    'commands: loop {
        match next_command(alloc, intake, source) {
            Ok(Next::Item(given)) => {
                match answer(alloc, session, sink, shelf, given, work) {
                    Ok(()) => {}
                    Err(_) => return Status::WriteFault,
                }
            }
            Ok(Next::End) => return Status::Done,
            Ok(Next::TooMany) => return Status::TooManyLines,
            Err(Stop::ReadFailed) => return Status::ReadFault,
            Err(Stop::NoMemory) => return Status::NoMemory,
        }
    }
}

// Answers one command. Its reply is one piece, handed over and then on.
fn answer<K: Sink, H: Shelf, L: Ledger>(
    alloc: Global,
    session: &mut Session,
    sink: &mut K,
    shelf: &mut H,
    given: Given,
    work: &mut Steps<L>,
) -> Result<(), Failed>
    ensures ok { OnOk result (WritesAnswer (state_of session.old.now (H.files shelf.old)) given (state_of session.new.now (H.files shelf.new))
        (K.written sink.old) (K.written sink.new)) }
    ensures err { OnErr result (WritesPart (state_of session.old.now (H.files shelf.old)) given (K.written sink.old) (K.written sink.new)) }
    ensures handed_on { OnOk result (HandsOn (K.written sink.new) (K.handed_on sink.new)) }
    ensures cause { HasCause (K.faults sink.old) (K.faults sink.new) result }
{
    match obey_line(alloc, session, shelf, given, work) {
        Ok(piece) => {
            hand_on(sink, piece.text.bytes())?;
            Ok(())
        }
        Err(_) => {
            hand_on(sink, b"refused: no memory\n")?;
            Ok(())
        }
    }
}

// Writes the piece and has the sink hand on all that it holds.
fn hand_on<K: Sink>(sink: &mut K, piece: &[u8]) -> Result<(), Failed>
    ensures ok { OnOk result (Appends (K.written sink.old) (K.written sink.new) piece.now) }
    ensures err { OnErr result ((n : ℕ) × (n ≤ length piece.now) × Appends (K.written sink.old) (K.written sink.new) (take n piece.now)) }
    ensures handed_on { OnOk result (HandsOn (K.written sink.new) (K.handed_on sink.new)) }
    ensures cause { HasCause (K.faults sink.old) (K.faults sink.new) result }
{
    put_all(sink, piece)?;
    sink.flush()?;
    Ok(())
}
