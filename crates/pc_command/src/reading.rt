//! A line as a command.

ghost use Rattle.std.specs.Prelude.{◌≡◌, true};
ghost use Rattle.std.specs.Option.{option_map_or};
ghost use Rattle.pc_command.specs.Form.{fits};
ghost use Rattle.pc_command.specs.Words.{words_of};
ghost use Rattle.pc_command.specs.Lines.{reading, line_reading, command_reading, load_reading, put_reading, add_reading, fill_reading, retype_reading, cut_reading, show_reading, watch_reading, text_reading, path_reading, range_reading, number_reading, view_reading, alone, Reads};

use crate::command::{Command, ViewName};
use crate::command_word::CommandWord;
use crate::error::CommandError;
use crate::form::{end_word, fits, is_skipped};
use crate::range::range_of;
use crate::view_word::ViewWord;
use crate::words::{first_word, next_word};
use pc_pretty::Range;
use pc_syntax::{Path, ReadError, Word, element_number};
use std::alloc::Global;

/// What a line asks for, or none where it is blank or a note. `here` is the text that the line took from the lines after
/// it; it is none where the line takes none, and where the script ends before the text does. A line that takes none
/// passes over one.
///
/// Blank lines and notes come first, then the errors in the order of `CommandError`.
#[tactic(auto, unfolding(crate::specs::Lines::reading))]
pub fn read_line(
    alloc: Global,
    line: &[u8],
    here: Option<Word>,
) -> Result<Option<Command>, CommandError>
    ensures { Reads (reading line.now here) result }
{
    if is_skipped(line) {
        return Ok(None);
    }
    if !fits(line) || !is_short(&here) {
        return Err(CommandError::TooLong);
    }
    let command = read_command(alloc, line, here)?;
    Ok(Some(command))
}

/// Whether the text that a line took isn't too long.
fn is_short(here: &Option<Word>) -> bool
    ensures { result ≡ option_map_or fits here.now true }
{
    match here {
        Some(text) => fits(text.bytes()),
        None => true,
    }
}

#[tactic(auto, unfolding(crate::specs::Lines::line_reading))]
fn read_command(alloc: Global, line: &[u8], here: Option<Word>) -> Result<Command, CommandError>
    ensures { Reads (line_reading line.now here) result }
{
    let (word, rest) = first_word(line);
    match CommandWord::read(word) {
        Some(word) => read_rest(alloc, word, rest, here),
        None => Err(CommandError::Unknown),
    }
}

#[tactic(auto, unfolding(crate::specs::Lines::command_reading))]
fn read_rest(
    alloc: Global,
    word: CommandWord,
    rest: &[u8],
    here: Option<Word>,
) -> Result<Command, CommandError>
    ensures { Reads (command_reading word rest.now here) result }
{
    match word {
        CommandWord::Load => read_load(alloc, rest, here),
        CommandWord::Put => read_put(alloc, rest),
        CommandWord::Add => read_add(alloc, rest),
        CommandWord::Fill => read_fill(alloc, rest, here),
        CommandWord::Retype => read_retype(alloc, rest, here),
        CommandWord::Cut => read_cut(alloc, rest),
        CommandWord::Undo => alone(Command::Undo, rest),
        CommandWord::Redo => alone(Command::Redo, rest),
        CommandWord::Show => read_show(rest),
        CommandWord::Watch | CommandWord::Unwatch => read_watch(rest),
        _ => Err(CommandError::NotBuilt),
    }
}

#[tactic(auto, unfolding(crate::specs::Lines::load_reading))]
fn read_load(alloc: Global, rest: &[u8], here: Option<Word>) -> Result<Command, CommandError>
    ensures { Reads (load_reading rest.now here) result }
{
    let text = read_text(alloc, rest, here)?;
    Ok(Command::Load(text))
}

#[tactic(auto, unfolding(crate::specs::Lines::put_reading))]
fn read_put(alloc: Global, rest: &[u8]) -> Result<Command, CommandError>
    ensures { Reads (put_reading (words_of rest.now)) result }
{
    let Some((word, rest)) = next_word(rest) else {
        return Err(CommandError::Missing);
    };
    let path = read_path(alloc, word)?;
    let Some((template, rest)) = next_word(rest) else {
        return Err(CommandError::Missing);
    };
    let template = Word::new(alloc, template)?;
    alone(Command::Put(path, template), rest)
}

#[tactic(auto, unfolding(crate::specs::Lines::add_reading))]
fn read_add(alloc: Global, rest: &[u8]) -> Result<Command, CommandError>
    ensures { Reads (add_reading (words_of rest.now)) result }
{
    let Some((path_word, rest)) = next_word(rest) else {
        return Err(CommandError::Missing);
    };
    let Some((number_word, rest)) = next_word(rest) else {
        read_path(alloc, path_word)?;
        return Err(CommandError::Missing);
    };
    let number = read_number(number_word)?;
    let path = read_path(alloc, path_word)?;
    let Some((template, rest)) = next_word(rest) else {
        return Err(CommandError::Missing);
    };
    let template = Word::new(alloc, template)?;
    alone(Command::Add(path, number, template), rest)
}

#[tactic(auto, unfolding(crate::specs::Lines::fill_reading))]
fn read_fill(alloc: Global, rest: &[u8], here: Option<Word>) -> Result<Command, CommandError>
    ensures { Reads (fill_reading rest.now here) result }
{
    let (word, text) = first_word(rest);
    if word.is_empty() {
        return Err(CommandError::Missing);
    }
    let path = read_path(alloc, word)?;
    let text = read_text(alloc, text, here)?;
    Ok(Command::Fill(path, text))
}

#[tactic(auto, unfolding(crate::specs::Lines::retype_reading))]
fn read_retype(alloc: Global, rest: &[u8], here: Option<Word>) -> Result<Command, CommandError>
    ensures { Reads (retype_reading rest.now here) result }
{
    let (word, text) = first_word(rest);
    if word.is_empty() {
        return Err(CommandError::Missing);
    }
    let range = read_range(word)?;
    let text = read_text(alloc, text, here)?;
    Ok(Command::Retype(range, text))
}

#[tactic(auto, unfolding(crate::specs::Lines::cut_reading))]
fn read_cut(alloc: Global, rest: &[u8]) -> Result<Command, CommandError>
    ensures { Reads (cut_reading (words_of rest.now)) result }
{
    let Some((word, rest)) = next_word(rest) else {
        return Err(CommandError::Missing);
    };
    let path = read_path(alloc, word)?;
    alone(Command::Cut(path), rest)
}

#[tactic(auto, unfolding(crate::specs::Lines::show_reading))]
fn read_show(rest: &[u8]) -> Result<Command, CommandError>
    ensures { result ≡ show_reading (words_of rest.now) }
{
    let Some((word, rest)) = next_word(rest) else {
        return Err(CommandError::Missing);
    };
    let view = read_view(word)?;
    alone(Command::Show(view), rest)
}

#[tactic(auto, unfolding(crate::specs::Lines::watch_reading))]
fn read_watch(rest: &[u8]) -> Result<Command, CommandError>
    ensures { result ≡ watch_reading (words_of rest.now) }
{
    if let Some((word, _)) = next_word(rest) {
        read_view(word)?;
    }
    Err(CommandError::NotBuilt)
}

/// The text of a line, or the one that stands in the lines after it.
#[tactic(auto, unfolding(crate::specs::Lines::text_reading))]
fn read_text(alloc: Global, text: &[u8], here: Option<Word>) -> Result<Word, CommandError>
    ensures { Reads (text_reading text.now here) result }
{
    if end_word(text).is_some() {
        return here.ok_or(CommandError::Missing);
    }
    let text = Word::new(alloc, text)?;
    Ok(text)
}

#[tactic(auto, unfolding(crate::specs::Lines::path_reading))]
fn read_path(alloc: Global, word: &[u8]) -> Result<Path, CommandError>
    ensures { Reads (path_reading word.now) result }
{
    match Path::read(alloc, word) {
        Ok(path) => Ok(path),
        Err(ReadError::BadForm) => Err(CommandError::BadPath),
        Err(ReadError::NoMemory) => Err(CommandError::NoMemory),
    }
}

#[tactic(auto, unfolding(crate::specs::Lines::number_reading))]
fn read_number(word: &[u8]) -> Result<u32, CommandError>
    ensures { result ≡ number_reading word.now }
{
    element_number(word).ok_or(CommandError::BadNumber)
}

#[tactic(auto, unfolding(crate::specs::Lines::range_reading))]
fn read_range(word: &[u8]) -> Result<Range, CommandError>
    ensures { result ≡ range_reading word.now }
{
    range_of(word).ok_or(CommandError::BadNumber)
}

#[tactic(auto, unfolding(crate::specs::Lines::view_reading))]
fn read_view(word: &[u8]) -> Result<ViewName, CommandError>
    ensures { result ≡ view_reading word.now }
{
    match ViewWord::read(word) {
        Some(ViewWord::Syntax) => Ok(ViewName::Syntax),
        Some(ViewWord::Tree) => Ok(ViewName::Nodes),
        Some(ViewWord::Decls) => Ok(ViewName::Decls),
        Some(ViewWord::Errors) => Ok(ViewName::Errors),
        Some(_) => Err(CommandError::NotBuilt),
        None => Err(CommandError::Unknown),
    }
}

/// The command, where no word is left over.
#[tactic(auto, unfolding(crate::specs::Lines::alone))]
fn alone(command: Command, rest: &[u8]) -> Result<Command, CommandError>
    ensures { result ≡ alone command (words_of rest.now) }
{
    match next_word(rest) {
        Some(_) => Err(CommandError::Extra),
        None => Ok(command),
    }
}
