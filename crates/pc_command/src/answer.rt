//! Replies.

ghost use Rattle.std.specs.Prelude.{◌≡◌, IfOk};
ghost use Rattle.pc_command.specs.Replies.{reply_of};

use crate::error::CommandError;
use crate::refusal::Refusal;
use pc_syntax::Word;
use std::alloc::{AllocError, Global};

/// What there is to say to a command.
#[derive(Drop)]
pub enum Answer {
    /// The program was edited: the steps that were made up to now, and the comments of its text that no node keeps.
    Edited(u64, u64),
    /// It was done: the steps that were made up to now.
    Done(u64),
    /// What was to be shown, with its last line feed.
    Shown(Word),
    /// The command isn't done.
    Refused(Refusal),
    /// The line is no command.
    Wrong(CommandError),
}

/// The text of a reply, with its last line feed.
#[tactic(auto, unfolding(crate::specs::Replies::reply_of))]
pub fn reply(alloc: Global, answer: &Answer) -> Result<Word, AllocError>
    ensures { IfOk result (λ text. text ≡ reply_of answer.now) }
{
    let text = match answer {
        Answer::Edited(number, 0) => format!(in alloc; "ok {number}\n")?,
        Answer::Edited(number, dropped) => format!(in alloc; "ok {number} dropped {dropped}\n")?,
        Answer::Done(number) => format!(in alloc; "ok {number}\n")?,
        Answer::Shown(text) => return Word::new(alloc, text.bytes()),
        Answer::Refused(refusal) => format!(in alloc; "refused: {refusal}\n")?,
        Answer::Wrong(error) => format!(in alloc; "refused: {error}\n")?,
    };
    Ok(Word::from_vec(text.into_bytes()))
}
