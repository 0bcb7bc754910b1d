//! One command.

ghost use Rattle.std.specs.Prelude.{◌≡◌, [], IfOk, OnErr};
ghost use Rattle.pc_command.specs.Replies.{reply_of};
ghost use Rattle.pc_transcript.specs.State.{state_of};
ghost use Rattle.pc_transcript.specs.Obeying.{edited, moved, Does, refuses, piece_of, Obeys, Answers};

use crate::piece::Piece;
use pc_command::{Answer, Command, Refusal, read_line, reply};
use pc_script::Given;
use pc_session::{Accepted, Session};
use pc_syntax::{Steps, Word};
use pc_world::Shelf;
use std::alloc::{AllocError, Global};
use std::sync::ledger::Ledger;

/// Does the command of a line, and answers its reply; that of a line that is no command says why. After want of memory
/// the session and the shelf are as before, and the reply is `refused: no memory` and a line feed.
pub fn obey_line<H: Shelf, L: Ledger>(
    alloc: Global,
    session: &mut Session,
    shelf: &mut H,
    given: Given,
    work: &mut Steps<L>,
) -> Result<Piece, AllocError>
    ensures ok { IfOk result (λ piece. Answers (state_of session.old.now (H.files shelf.old)) given piece (state_of session.new.now (H.files shelf.new))) }
    ensures err { OnErr result (state_of session.new.now (H.files shelf.new) ≡ state_of session.old.now (H.files shelf.old)) }
{
    let Given { line, here } = given;
    match read_line(alloc, line.bytes(), here) {
        Ok(Some(command)) => {
            let piece = obey(alloc, session, shelf, &command, work)?;
            Ok(piece)
        }
        Ok(None) => {
            let text = Word::new(alloc, b"")?;
            Ok(Piece {
                text,
                refuses: false,
            })
        }
        Err(error) => {
            let piece = piece_of(alloc, Answer::Wrong(error))?;
            Ok(piece)
        }
    }
}

/// Does one command, and answers its reply. The session is settled first and last. After want of memory the session and
/// the shelf are as before.
pub fn obey<H: Shelf, L: Ledger>(
    alloc: Global,
    session: &mut Session,
    shelf: &mut H,
    command: &Command,
    work: &mut Steps<L>,
) -> Result<Piece, AllocError>
    ensures ok { IfOk result (λ piece. Obeys command.now (state_of session.old.now (H.files shelf.old)) piece (state_of session.new.now (H.files shelf.new))) }
    ensures err { OnErr result (state_of session.new.now (H.files shelf.new) ≡ state_of session.old.now (H.files shelf.old)) }
    ensures settled { session.new.before ≡ session.new.now }
{
    let _ = &shelf;
    session.settle();
    let answer = perform(alloc, session, command, work);
    match piece_of(alloc, answer) {
        Ok(piece) => {
            session.settle();
            Ok(piece)
        }
        Err(_) => {
            session.revert();
            Err(AllocError)
        }
    }
}

// Does a command to a settled session, and says what came of it.
fn perform<L: Ledger>(
    alloc: Global,
    session: &mut Session,
    command: &Command,
    work: &mut Steps<L>,
) -> Answer
    requires { session.old.before ≡ session.old.now }
    ensures does { Does command.now session.old.now result session.new.now }
    ensures before { session.new.before ≡ session.old.now }
{
    match command {
        Command::Load(text) => edited(session.load(alloc, text.bytes(), work)),
        Command::Put(path, template) => edited(session.put(alloc, path, template.bytes(), work)),
        Command::Add(path, number, template) => {
            edited(session.add(alloc, path, *number, template.bytes(), work))
        }
        Command::Fill(path, text) => edited(session.fill(alloc, path, text.bytes(), work)),
        Command::Retype(range, text) => { edited(session.retype(alloc, range, text.bytes(), work)) }
        Command::Cut(path) => edited(session.cut(alloc, path, work)),
        Command::Undo => moved(session.undo(work)),
        Command::Redo => moved(session.redo(work)),
        Command::Show(name) => match session.show(alloc, name, work) {
            Ok(text) => Answer::Shown(Word::from_vec(text)),
            Err(_) => Answer::Refused(Refusal::NoMemory),
        },
    }
}

// What is written for an answer, while no view is watched. A text that is shown isn't copied.
fn piece_of(alloc: Global, answer: Answer) -> Result<Piece, AllocError>
    ensures { IfOk result (λ piece. piece ≡ piece_of answer []) }
{
    let refuses = refuses(&answer);
    let text = text_of(alloc, answer)?;
    Ok(Piece { text, refuses })
}

// The reply with an answer.
#[tactic(auto, unfolding(pc_command::specs::Replies::reply_of))]
fn text_of(alloc: Global, answer: Answer) -> Result<Word, AllocError>
    ensures { IfOk result (λ text. text ≡ reply_of answer) }
{
    match answer {
        Answer::Shown(text) => Ok(text),
        _ => reply(alloc, &answer),
    }
}

// Whether the answer is a refusal.
fn refuses(answer: &Answer) -> bool
    ensures { result ≡ refuses answer.now }
{
    match answer {
        Answer::Edited(_, _) | Answer::Done(_) | Answer::Shown(_) => false,
        Answer::Refused(_) | Answer::Wrong(_) => true,
    }
}

// The answer to an edit with this result.
fn edited(result_of: Result<Accepted, Refusal>) -> Answer
    ensures { result ≡ edited result_of }
{
    match result_of {
        Ok(accepted) => Answer::Edited(accepted.count, accepted.dropped),
        Err(refusal) => Answer::Refused(refusal),
    }
}

// The answer to undo or redo with this result.
fn moved(result_of: Result<u64, Refusal>) -> Answer
    ensures { result ≡ moved result_of }
{
    match result_of {
        Ok(count) => Answer::Done(count),
        Err(refusal) => Answer::Refused(refusal),
    }
}
