//! The form of one line: whether it is a command, and whether it takes a text from the lines after it.

ghost use Rattle.std.specs.Prelude.{◌≡◌};
ghost use Rattle.std.specs.Option.{option_copied};
ghost use Rattle.pc_command.specs.Form.{fits, is_skipped, is_letter, is_word, text_behind, text_in, end_word, here_word};

use crate::command_word::CommandWord;
use crate::words::{first_word, unindented};

/// The most bytes of a line, or of a text that stands in the lines after it.
pub const LINE_LEN: usize = 1_000_000;

/// Whether there are at most 1,000,000 bytes.
#[tactic(auto, unfolding(crate::specs::Form::line_limit))]
pub fn fits(bytes: &[u8]) -> bool
    ensures { result ≡ fits bytes.now }
{
    bytes.len() <= LINE_LEN
}

/// Whether the line is blank or a note.
#[tactic(auto, unfolding(crate::specs::Form::is_skipped))]
pub fn is_skipped(line: &[u8]) -> bool
    ensures { result ≡ is_skipped line.now }
{
    if !fits(line) {
        return false;
    }
    match unindented(line) {
        [] => true,
        [first, ..] => *first == b'#',
    }
}

/// The word that ends the text which the line takes from the lines after it.
#[tactic(auto, unfolding(crate::specs::Form::here_word))]
pub fn here_word(line: &[u8]) -> Option<&[u8]>
    ensures { option_copied result ≡ here_word line.now }
{
    if !fits(line) {
        return None;
    }
    match text_in(line) {
        Some(text) => end_word(text),
        None => None,
    }
}

/// The text in a line, where its command takes one.
#[tactic(auto, unfolding(crate::specs::Form::text_in))]
fn text_in(line: &[u8]) -> Option<&[u8]>
    ensures { option_copied result ≡ text_in line.now }
{
    let (word, rest) = first_word(line);
    match CommandWord::read(word) {
        Some(word) => text_behind(word, rest),
        None => None,
    }
}

/// The text in what stands behind a command word, for the commands that take one.
#[tactic(auto, unfolding(crate::specs::Form::text_behind))]
fn text_behind(word: CommandWord, rest: &[u8]) -> Option<&[u8]>
    ensures { option_copied result ≡ text_behind word rest.now }
{
    match word {
        CommandWord::Load | CommandWord::Input | CommandWord::Inputln => Some(rest),
        CommandWord::Fill | CommandWord::Retype => Some(first_word(rest).1),
        _ => None,
    }
}

/// The word that ends a text which stands in the lines after a line with this text.
#[tactic(auto, unfolding(crate::specs::Form::end_word))]
pub fn end_word(text: &[u8]) -> Option<&[u8]>
    ensures { option_copied result ≡ end_word text.now }
{
    match text.strip_prefix(b"<<") {
        Some(word) => { if is_word(word) { Some(word) } else { None } }
        None => None,
    }
}

fn is_word(bytes: &[u8]) -> bool
    ensures { result ≡ is_word bytes.now }
{
    !bytes.is_empty() && bytes.iter().all(|byte| is_letter(*byte))
}

fn is_letter(byte: u8) -> bool
    ensures { result ≡ is_letter byte }
{
    (byte >= b'A' && byte <= b'Z') || (byte >= b'a' && byte <= b'z')
}
