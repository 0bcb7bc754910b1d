//! The cases of a file.
//!
//! All before the first line `== NAME` is the file's head. Such a line begins a section. In it each line `> BYTES` is
//! a line of input, and the lines below it are the answer; the next line of input begins the next case. Blank lines
//! don't count. `escape.rt` has how bytes are written that don't show. The line feed at the end of an input doesn't
//! count, and each line of an answer ends with one that does, unless the line ends with a single `\`.

use crate::escape::{meant, shown};
use crate::state::State;
use crate::topic::{Topic, answer};
use crate::trouble::Trouble;
use pc_syntax::Steps;
use std::alloc::Global;
use std::sync::ledger::Ledger;

/// How many cases hold and how many fail, with a line for each of these.
#[derive(Drop)]
pub struct Tally {
    pub held: u64,
    pub failed: u64,
    report: Vec<u8>,
}

// A case as far as it was read: its line in the file, its input and its answer.
#[derive(Drop)]
struct Case {
    at: usize,
    input: Option<Vec<u8>>,
    answer: Option<Vec<u8>>,
    trouble: Option<Trouble>,
}

impl Case {
    fn new() -> Case {
        Case {
            at: 0,
            input: None,
            answer: None,
            trouble: None,
        }
    }

    // A further line of input.
    fn ask(&mut self, alloc: Global, line: &[u8]) -> Result<(), Trouble> {
        let (bytes, _) = meant(alloc, line)?;
        match &mut self.input {
            Some(input) => {
                input.push(b'\n')?;
                input.extend_from_slice(&bytes)?;
            }
            None => self.input = Some(bytes),
        }
        Ok(())
    }

    // A further line of the answer.
    fn expect(&mut self, alloc: Global, line: &[u8]) -> Result<(), Trouble> {
        let (mut bytes, open) = meant(alloc, line)?;
        if !open {
            bytes.push(b'\n')?;
        }
        match &mut self.answer {
            Some(answer) => answer.extend_from_slice(&bytes)?,
            None => self.answer = Some(bytes),
        }
        Ok(())
    }
}

impl Tally {
    pub fn new(alloc: Global) -> Tally {
        Tally {
            held: 0,
            failed: 0,
            report: Vec::new(alloc),
        }
    }

    /// A line for each failure.
    pub fn report(&self) -> &[u8] {
        &self.report
    }

    /// Makes the calls of each case of a file. A file without cases fails.
    pub fn run<L: Ledger>(
        &mut self,
        alloc: Global,
        name: &str,
        topic: Topic,
        text: &[u8],
        work: &mut Steps<L>,
    ) {
        let before = self.held.saturating_add(self.failed);
        if self.sections(alloc, name, topic, text, work).is_err() {
            self.unread(alloc, name);
        }
        if self.held.saturating_add(self.failed) == before {
            self.unread(alloc, name);
        }
    }

    /// Counts a file that isn't there or has no cases as a failure.
    pub fn unread(&mut self, alloc: Global, name: &str) {
        self.failed = self.failed.saturating_add(1);
        if let Ok(line) = format!(in alloc; "{name}: no cases are read\n") {
            let _ = self.report.extend_from_slice(line.as_bytes());
        }
    }

    fn sections<L: Ledger>(
        &mut self,
        alloc: Global,
        name: &str,
        topic: Topic,
        text: &[u8],
        work: &mut Steps<L>,
    ) -> Result<(), Trouble> {
        let mut state: Option<State> = None;
        let mut case = Case::new();
        for (i, line) in text.split(|byte| *byte == b'\n').enumerate() {
            let begins = line.starts_with(b"== ");
            let asked = asked(line);
            if begins || asked.is_some() && case.answer.is_some() {
                self.judge(alloc, name, topic, &mut state, &case, work)?;
                case = Case::new();
            }
            if begins {
                state = Some(State::new(alloc)?);
            } else if state.is_some() {
                if case.input.is_none() {
                    case.at = i.saturating_add(1);
                }
                let taken = match asked {
                    Some(input) => case.ask(alloc, input),
                    None if line.is_empty() => Ok(()),
                    None => case.expect(alloc, line),
                };
                if let Err(trouble) = taken {
                    case.trouble = Some(trouble);
                }
            }
        }
        self.judge(alloc, name, topic, &mut state, &case, work)
    }

    // Makes the calls of a case, and compares.
    fn judge<L: Ledger>(
        &mut self,
        alloc: Global,
        name: &str,
        topic: Topic,
        state: &mut Option<State>,
        case: &Case,
        work: &mut Steps<L>,
    ) -> Result<(), Trouble> {
        let Some(state) = state else {
            return Ok(());
        };
        if case.input.is_none() && case.answer.is_none() && case.trouble.is_none() {
            return Ok(());
        }
        let Some(told) = outcome(alloc, topic, state, case, work)? else {
            self.held = self.held.saturating_add(1);
            return Ok(());
        };
        self.failed = self.failed.saturating_add(1);
        let place = format!(in alloc; "{name}, line {}: ", case.at)?;
        self.report.extend_from_slice(place.as_bytes())?;
        self.report.extend_from_slice(&told)?;
        self.report.push(b'\n')?;
        Ok(())
    }
}

// What doesn't hold of a case; none where it holds.
fn outcome<L: Ledger>(
    alloc: Global,
    topic: Topic,
    state: &mut State,
    case: &Case,
    work: &mut Steps<L>,
) -> Result<Option<Vec<u8>>, Trouble> {
    if let Some(trouble) = case.trouble {
        return Ok(Some(format!(in alloc; "{trouble}")?.into_bytes()));
    }
    let Some(input) = &case.input else {
        return Ok(Some(format!(in alloc; "{}", Trouble::BadInput)?.into_bytes()));
    };
    let Some(wanted) = &case.answer else {
        return Ok(Some(format!(in alloc; "{}", Trouble::NoAnswer)?.into_bytes()));
    };
    match answer(alloc, topic, state, input, work) {
        Ok(got) => {
            if got.as_slice() == wanted.as_slice() {
                return Ok(None);
            }
            Ok(Some(compared(alloc, wanted, &got)?))
        }
        Err(trouble) => Ok(Some(format!(in alloc; "{trouble}")?.into_bytes())),
    }
}

// What stands behind the mark of an input.
fn asked(line: &[u8]) -> Option<&[u8]> {
    match line.strip_prefix(b"> ") {
        Some(input) => Some(input),
        None if line.len() == 1 && line.starts_with(b">") => Some(b""),
        None => None,
    }
}

// What was expected, and what was got.
fn compared(alloc: Global, wanted: &[u8], got: &[u8]) -> Result<Vec<u8>, Trouble> {
    let mut text = b"expected ".to_vec(alloc)?;
    text.extend_from_slice(&shown(alloc, wanted)?)?;
    text.extend_from_slice(b", got ")?;
    text.extend_from_slice(&shown(alloc, got)?)?;
    Ok(text)
}
