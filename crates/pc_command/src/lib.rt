//! The grammar of command lines, and the texts of replies.
//!
//! Start at `read_line`, which reads a line as a command or says why it is none. What a line says is `reading` of
//! `specs/Lines.antt`, and how a reply is written is `reply_of` of `specs/Replies.antt`.
#![tactic(auto)]

mod answer;
mod command;
mod command_word;
mod error;
mod form;
mod laws;
mod range;
mod reading;
mod refusal;
mod view_word;
mod words;

pub use answer::{Answer, reply};
pub use command::{Command, ViewName};
pub use error::CommandError;
pub use form::{LINE_LEN, here_word, is_skipped};
pub use laws::texts_that_are_taken;
pub use reading::read_line;
pub use refusal::Refusal;
pub use words::next_word;
