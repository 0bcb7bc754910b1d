//! Lines of a script.
//!
//! `here LINE`: the word up to which it takes a text. `line LINE`: the command that it is, without a text from the lines after it.
//! `taking LINE` and lines after it: with those as its text.

use crate::grown::{cut_at, word};
use crate::trouble::Trouble;
use pc_command::{Command, ViewName, here_word, read_line};
use pc_pretty::Range;
use pc_syntax::Word;
use std::alloc::{AllocError, Global};

pub fn answer(alloc: Global, input: &[u8]) -> Result<Vec<u8>, Trouble> {
    let (call, rest) = word(input);
    let mut text = match call {
        b"here" => here_word(rest).unwrap_or(b"none").to_vec(alloc)?,
        b"line" => told(alloc, rest, None)?,
        b"taking" => {
            let (line, here) = cut_at(rest, b'\n');
            told(alloc, line, Some(Word::new(alloc, here)?))?
        }
        _ => return Err(Trouble::BadInput),
    };
    text.push(b'\n')?;
    Ok(text)
}

// A command in brackets, with its path as a list and its words in angles, or why there is none.
fn told(alloc: Global, line: &[u8], here: Option<Word>) -> Result<Vec<u8>, AllocError> {
    match read_line(alloc, line, here) {
        Ok(Some(command)) => told_command(alloc, &command),
        Ok(None) => b"none".to_vec(alloc),
        Err(error) => Ok(format!(in alloc; "{error}")?.into_bytes()),
    }
}

fn told_command(alloc: Global, command: &Command) -> Result<Vec<u8>, AllocError> {
    match command {
        Command::Load(text) => with_word(format!(in alloc; "[load]")?.into_bytes(), text),
        Command::Put(path, template) => {
            with_word(
                format!(in alloc; "[put {:?}]", path.steps())?.into_bytes(),
                template,
            )
        }
        Command::Add(path, number, template) => {
            with_word(
                format!(in alloc; "[add {:?} {number}]", path.steps())?.into_bytes(),
                template,
            )
        }
        Command::Fill(path, text) => {
            with_word(
                format!(in alloc; "[fill {:?}]", path.steps())?.into_bytes(),
                text,
            )
        }
        Command::Retype(range, text) => with_word(told_range(alloc, range)?, text),
        Command::Cut(path) => Ok(format!(in alloc; "[cut {:?}]", path.steps())?.into_bytes()),
        Command::Undo => b"[undo]".to_vec(alloc),
        Command::Redo => b"[redo]".to_vec(alloc),
        Command::Show(ViewName::Syntax) => b"[show syntax]".to_vec(alloc),
        Command::Show(ViewName::Nodes) => b"[show tree]".to_vec(alloc),
        Command::Show(ViewName::Decls) => b"[show decls]".to_vec(alloc),
        Command::Show(ViewName::Errors) => b"[show errors]".to_vec(alloc),
    }
}

fn told_range(alloc: Global, range: &Range) -> Result<Vec<u8>, AllocError> {
    let Range {
        from_line,
        from_column,
        to_line,
        to_column,
    } = range;
    let text = format!(in alloc; "[retype {from_line}:{from_column}-{to_line}:{to_column}]")?;
    Ok(text.into_bytes())
}

fn with_word(mut text: Vec<u8>, word: &Word) -> Result<Vec<u8>, AllocError> {
    text.push(b'<')?;
    text.extend_from_slice(word.bytes())?;
    text.push(b'>')?;
    Ok(text)
}
