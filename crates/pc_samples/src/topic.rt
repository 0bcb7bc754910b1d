//! The topics: each is the reader of some files.

use crate::state::State;
use crate::trouble::Trouble;
use crate::{
    commands, edits, lexing, lines, places, printing, reading, replies, retyping, scripts,
    sessions, words,
};
use pc_syntax::Steps;
use std::alloc::Global;
use std::sync::ledger::Ledger;

/// What the cases of a file are about.
#[derive(Clone, Copy)]
pub enum Topic {
    Words,
    Lexing,
    Reading,
    Depths,
    Notes,
    Printing,
    Trees,
    Places,
    Retyping,
    Edits,
    Lines,
    Replies,
    Commands,
    Sessions,
    Scripts,
    Faults,
}

impl Topic {
    /// The files with their topics.
    pub const FILES: [(&'static str, Topic); 22] = [
        ("words.txt", Topic::Words),
        ("templates.txt", Topic::Words),
        ("lexing.txt", Topic::Lexing),
        ("reading.txt", Topic::Reading),
        ("depths.txt", Topic::Depths),
        ("notes.txt", Topic::Notes),
        ("printing.txt", Topic::Printing),
        ("trees.txt", Topic::Trees),
        ("places.txt", Topic::Places),
        ("retyping.txt", Topic::Retyping),
        ("making.txt", Topic::Edits),
        ("edits.txt", Topic::Edits),
        ("lines.txt", Topic::Lines),
        ("replies.txt", Topic::Replies),
        ("commands.txt", Topic::Commands),
        ("sessions.txt", Topic::Sessions),
        ("scripts.txt", Topic::Scripts),
        ("loading.txt", Topic::Scripts),
        ("editing.txt", Topic::Scripts),
        ("errors.txt", Topic::Scripts),
        ("decls.txt", Topic::Scripts),
        ("faults.txt", Topic::Faults),
    ];
}

/// What the calls of a case answer.
pub fn answer<L: Ledger>(
    alloc: Global,
    topic: Topic,
    state: &mut State,
    input: &[u8],
    work: &mut Steps<L>,
) -> Result<Vec<u8>, Trouble> {
    match topic {
        Topic::Words => words::answer(alloc, input),
        Topic::Lexing => lexing::answer(alloc, input),
        Topic::Reading => reading::answer(alloc, input, work),
        Topic::Depths => reading::depth(alloc, input),
        Topic::Notes => reading::notes(alloc, input, work),
        Topic::Printing => printing::answer(alloc, input, work),
        Topic::Trees => printing::view(alloc, input, work),
        Topic::Places => places::answer(alloc, state, input, work),
        Topic::Retyping => retyping::answer(alloc, state, input, work),
        Topic::Edits => edits::answer(alloc, state, input, work),
        Topic::Lines => lines::answer(alloc, input),
        Topic::Replies => replies::answer(alloc, input),
        Topic::Commands => commands::answer(alloc, input),
        Topic::Sessions => sessions::answer(alloc, state, input, work),
        Topic::Scripts => scripts::answer(alloc, input, work),
        Topic::Faults => scripts::faulty(alloc, input, work),
    }
}
